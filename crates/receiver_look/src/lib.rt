// Where octets end inside an event (02, P8): among the code points of which string, if any. The
// event is looked at from its first bit on, and nothing is laid. What the functions ask and leave
// is in specs/Look.antt.
#![tactic(auto)]

ghost use Rattle.std.specs.Prelude.{◌≤◌, ◌<◌, ◌≡◌, false};
ghost use Rattle.read_field.specs.View.{alignment_of};
ghost use Rattle.settings.specs.Meant.{settings_from};
ghost use Rattle.spec_exi.specs.Sizes.{max_uris};
ghost use Rattle.event_code.specs.Numbers.{in_tag};
ghost use Rattle.mem_layout.specs.Layout.{uri_rows};
ghost use Rattle.read_production.specs.View.{production_in};
ghost use Rattle.read_production.specs.Production.{ProductionPost};
ghost use Rattle.receiver_strings.specs.View.{looked_in};
ghost use Rattle.receiver_strings.specs.Strings.{SpotPre};
ghost use Rattle.receiver_look.specs.Look.{UriPre, UriSeen, NameSeen};
ghost use Rattle.receiver_look.specs.Look.{HitPre, OwnSeen, LocalSeen, HitSeen};
ghost use Rattle.receiver_look.specs.Look.{AttributeSeen, InstructionSeen, ContentSeen};
ghost use Rattle.receiver_look.specs.Look.{FixedLookPre, FixedSeen, LookPre, LookPost};

use event_code::{AT, CH, CM, IN_FRAGMENT, IN_TAG, PI, SE};
use mem_state::Core;
use read_production::ProductionRead;
use receiver_strings::Cut;
use refusal::Refusal;
use settings::Settings;

// The URI of a name: a hit, or the String of a miss (EXI 7.3.2).
fn uri(aligned: bool, stream: &[u8], at: usize, uris: u32) -> Result<usize, Cut>
    requires { UriPre stream.now at uris }
    ensures { UriSeen (alignment_of aligned) stream.now at uris (looked_in result) }
{
    let Ok(number) = read_field::choice(aligned, stream, at, uris + 1) else {
        return Err(Cut::unknown(at));
    };
    if number.value == 0 {
        return receiver_strings::string(stream, number.next, 0);
    }
    Ok(number.next)
}

// A name that no production carries.
fn name(aligned: bool, stream: &[u8], at: usize, uris: u32) -> Result<usize, Cut>
    requires { UriPre stream.now at uris }
    ensures { NameSeen (alignment_of aligned) stream.now at uris (looked_in result) }
{
    let next = uri(aligned, stream, at, uris)?;
    receiver_strings::string(stream, next, 1)
}

// The local name of a URI's row by its number among the URI's names.
fn own_name(aligned: bool, stream: &[u8], at: usize, row: u32, work: &[u32]) -> Result<usize, Cut>
    requires hit_pre { HitPre stream.now work.now at }
    requires row_lt_uri_rows { row < uri_rows }
    ensures { OwnSeen (alignment_of aligned) stream.now work.now at row (looked_in result) }
{
    let among = mem_names::count_names(work, row);
    let Ok(number) = read_field::choice(aligned, stream, at, among) else {
        return Err(Cut::unknown(at));
    };
    Ok(number.next)
}

// The same after the number that tells a hit from a literal (EXI 7.3.3).
fn local_hit(aligned: bool, stream: &[u8], at: usize, row: u32, work: &[u32]) -> Result<usize, Cut>
    requires hit_pre { HitPre stream.now work.now at }
    requires row_lt_uri_rows { row < uri_rows }
    ensures { LocalSeen (alignment_of aligned) stream.now work.now at row (looked_in result) }
{
    let Ok(number) = read_field::unsigned(stream, at) else {
        return Err(Cut::unknown(at));
    };
    if number.value != 0 {
        return Err(Cut::unknown(at));
    }
    own_name(aligned, stream, number.next, row, work)
}

// A name whose URI and local name both come by their numbers.
fn name_hit(aligned: bool, stream: &[u8], at: usize, uris: u32, work: &[u32]) -> Result<usize, Cut>
    requires hit_pre { HitPre stream.now work.now at }
    requires uris_le_max_uris { uris ≤ max_uris }
    ensures { HitSeen (alignment_of aligned) stream.now work.now at uris (looked_in result) }
{
    let Ok(number) = read_field::choice(aligned, stream, at, uris + 1) else {
        return Err(Cut::unknown(at));
    };
    if number.value == 0 || uris < number.value {
        return Err(Cut::unknown(at));
    }
    local_hit(aligned, stream, number.next, number.value - 1, work)
}

// An attribute: its name, if the production carries none, and its value.
fn attribute(
    aligned: bool,
    stream: &[u8],
    at: usize,
    learned: bool,
    uris: u32,
    work: &[u32],
) -> Result<usize, Cut>
    requires hit_pre { HitPre stream.now work.now at }
    requires uris_le_max_uris { uris ≤ max_uris }
    ensures { AttributeSeen (alignment_of aligned) stream.now work.now at learned
        uris (looked_in result) }
{
    if learned {
        return receiver_strings::string(stream, at, 2);
    }
    if let Ok(next) = name_hit(aligned, stream, at, uris, work) {
        return receiver_strings::string(stream, next, 2);
    }
    let next = name(aligned, stream, at, uris)?;
    receiver_strings::string(stream, next, 2)
}

// An instruction: its target and its text.
fn instruction(stream: &[u8], at: usize) -> Result<usize, Cut>
    requires { SpotPre stream.now at }
    ensures { InstructionSeen stream.now at (looked_in result) }
{
    let next = receiver_strings::string(stream, at, 0)?;
    receiver_strings::string(stream, next, 0)
}

// What follows an event's code, by its kind.
fn content(
    aligned: bool,
    stream: &[u8],
    at: usize,
    kind: u32,
    learned: bool,
    uris: u32,
    work: &[u32],
) -> Result<usize, Cut>
    requires hit_pre { HitPre stream.now work.now at }
    requires uris_le_max_uris { uris ≤ max_uris }
    ensures { ContentSeen (alignment_of aligned) stream.now work.now at kind
        learned uris (looked_in result) }
{
    match kind {
        SE => {
            if learned {
                return Err(Cut::unknown(at));
            }
            name(aligned, stream, at, uris)
        }
        AT => attribute(aligned, stream, at, learned, uris, work),
        CH => receiver_strings::string(stream, at, 2),
        CM => receiver_strings::string(stream, at, 0),
        PI => instruction(stream, at),
        _ => Err(Cut::unknown(at)),
    }
}

// An event whose code names no learned production: its rest, from the code's second part on, which
// stands at a position, and the content.
fn fixed(o: Settings, stream: &[u8], next: usize, c: Core, work: &[u32]) -> Result<usize, Cut>
    requires { FixedLookPre stream.now work.now next c }
    ensures { FixedSeen (settings_from o) stream.now work.now next c (looked_in result) }
{
    let Ok(p) = read_production::read_fixed(o, stream, next, c.mode) else {
        return Err(Cut::unknown(c.at));
    };
    content(o.aligned, stream, p.next, p.kind, p.learned, c.uris, work)
}

// An event in an element. Of learned productions AT and CH alone have a content, and both a value,
// so that they are not told apart: at the others octets do not end.
fn inside(o: Settings, stream: &[u8], c: Core, work: &[u32]) -> Result<usize, Cut>
    requires look_pre { LookPre stream.now work.now c }
    requires in_tag_le_mode { in_tag ≤ c.mode }
    ensures { LookPost (settings_from o) stream.now work.now c (looked_in result) }
{
    let site = grammar_match::site_in(c.mode, c.top);
    let count = mem_learned::count_at(work, site);
    let last = count + read_production::own_count(c.mode);
    let Ok(p) = read_production::read_part(o.aligned, stream, c.at, last + 1) else {
        return Err(Cut::unknown(c.at));
    };
    if p.value < count {
        return receiver_strings::string(stream, p.next, 2);
    }
    if p.value < last {
        return Err(Cut::unknown(c.at));
    }
    fixed(o, stream, p.next, c, work)
}

// An event's code outside of every element.
fn outer_code(o: Settings, stream: &[u8], c: Core, work: &[u32]) -> Result<ProductionRead, Refusal>
    requires look_pre { LookPre stream.now work.now c }
    requires mode_lt_in_tag { c.mode < in_tag }
    ensures { ProductionPost (settings_from o) stream.now c.at c.mode c.top
        c.learned work.now (production_in c.at result) }
{
    if c.mode == IN_FRAGMENT {
        return read_production::read_between(o, stream, c.at, c.learned, work);
    }
    read_production::read_fixed(o, stream, c.at, c.mode)
}

// An event outside of every element.
fn outside(o: Settings, stream: &[u8], c: Core, work: &[u32]) -> Result<usize, Cut>
    requires look_pre { LookPre stream.now work.now c }
    requires mode_lt_in_tag { c.mode < in_tag }
    ensures { LookPost (settings_from o) stream.now work.now c (looked_in result) }
{
    let Ok(p) = outer_code(o, stream, c, work) else {
        return Err(Cut::unknown(c.at));
    };
    content(o.aligned, stream, p.next, p.kind, p.learned, c.uris, work)
}

// Looks at the event after the core's position. The whole reader's `read_production` is not called,
// nor its `read_outer`: each has one caller, and is compiled into it.
pub fn look(o: Settings, stream: &[u8], c: Core, work: &[u32]) -> Result<usize, Cut>
    requires { LookPre stream.now work.now c }
    ensures { LookPost (settings_from o) stream.now work.now c (looked_in result) }
{
    if c.mode < IN_TAG {
        return outside(o, stream, c, work);
    }
    inside(o, stream, c, work)
}
