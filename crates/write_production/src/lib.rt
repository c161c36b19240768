// The event code of an event (EXI 6.2, 8.4.3), written. What the functions ask and leave is in
// specs/Codes.antt.
#![tactic(auto)]

ghost use Rattle.std.specs.Prelude.{◌≡◌};
ghost use Rattle.settings.specs.Meant.{settings_from};
ghost use Rattle.read_field.specs.View.{alignment_of};
ghost use Rattle.write_field.specs.Written.{Put};
ghost use Rattle.write_production.specs.Codes.{FixedPre, placed_bits, LowerPre, lower_bits};
ghost use Rattle.write_production.specs.Codes.{CodePre, code_bits_as, own_values, FirstPre};
ghost use Rattle.write_production.specs.Codes.{first_bits};

use event_code::IN_ELEMENT;
use grammar_codes::Place;
use settings::Settings;

// Whether the code is a learned production's; how many are learned in the state; and of a learned
// one how many are newer, the value of its part.
#[derive(Clone, Copy)]
pub struct Code {
    pub learned: bool,
    pub count: u32,
    pub part: u32,
}

// The code of a production that is not learned, by its place in the table.
fn put_fixed(o: Settings, stream: &mut [u8], at: usize, mode: u32, p: Place, count: u32) -> usize
    requires { FixedPre (settings_from o) stream.old at mode p count }
    ensures { Put stream.old at (placed_bits (settings_from o) mode p count) stream.new
        result }
{
    let first = count + grammar_codes::values_at(mode, 0, o.comments, o.instructions);
    if p.level == 0 {
        return write_field::put_choice(o.aligned, stream, at, first, count + p.value);
    }
    let on = count + grammar_codes::count_at(mode, 0, o.comments, o.instructions);
    let next = write_field::put_choice(o.aligned, stream, at, first, on);
    put_lower(o, stream, next, mode, p)
}

// The parts below the first.
fn put_lower(o: Settings, stream: &mut [u8], at: usize, mode: u32, p: Place) -> usize
    requires { LowerPre (settings_from o) stream.old at mode p }
    ensures { Put stream.old at (lower_bits (settings_from o) mode p) stream.new result }
{
    let second = grammar_codes::values_at(mode, 1, o.comments, o.instructions);
    if p.level == 1 {
        return write_field::put_choice(o.aligned, stream, at, second, p.value);
    }
    let on = grammar_codes::count_at(mode, 1, o.comments, o.instructions);
    let next = write_field::put_choice(o.aligned, stream, at, second, on);
    let third = grammar_codes::values_at(mode, 2, o.comments, o.instructions);
    write_field::put_choice(o.aligned, stream, next, third, p.value)
}

// Writes an event code. (A part that is none of the learned productions' is written as 0; where
// memory holds rows there is none.)
pub fn put_code(o: Settings, stream: &mut [u8], at: usize, mode: u32, p: Place, code: Code) -> usize
    requires { CodePre (settings_from o) stream.old at mode p code }
    ensures { Put stream.old at (code_bits_as (settings_from o) mode p code) stream.new
        result }
{
    if code.learned {
        let among = code.count + grammar_codes::values_at(mode, 0, o.comments, o.instructions);
        let part = mem_chain::less(code.part, among);
        return write_field::put_choice(o.aligned, stream, at, among, part);
    }
    put_fixed(o, stream, at, mode, p, code.count)
}

// ---- in an element

// How many values the first part of a code has beside the learned productions'.
fn own_values(mode: u32) -> u32
    ensures { result ≡ own_values mode }
{
    if mode == IN_ELEMENT {
        return 2;
    }
    1
}

// Writes a code of one part in an element: a learned production's, or the end tag's in its content.
pub fn put_first(
    aligned: bool,
    stream: &mut [u8],
    at: usize,
    mode: u32,
    count: u32,
    v: u32,
) -> usize
    requires { FirstPre stream.old at count v }
    ensures { Put stream.old at (first_bits (alignment_of aligned) mode count v)
        stream.new result }
{
    let among = count + own_values(mode);
    write_field::put_choice(aligned, stream, at, among, v)
}
