// Quick steps: an event by a production that is not learned, which it may teach (EXI 8.4.3). Here
// are those without a name: characters, and an end tag. What the functions ask and leave is in
// specs/First.antt.
#![tactic(auto)]

ghost use Rattle.std.specs.Prelude.{ℕ, List};
ghost use Rattle.settings.specs.Meant.{settings_from};
ghost use Rattle.event.specs.Cells.{meaning};
ghost use Rattle.event.specs.declared.Event.TheVariants.{EndElement, Characters};
ghost use Rattle.mem_state.specs.Joining.{no_strings};
ghost use Rattle.write_event.specs.Step.{StepPre, StepPost};
ghost use Rattle.write_values.specs.Values.{told_value};
ghost use Rattle.write_first.specs.First.{ValueAccepted};

use event::Part;
use event_code::{CH, EE};
use grammar_codes::Place;
use grammar_stepped::Stepped;
use mem_state::Core;
use refusal::{LIMIT, PLACE, SHAPE};
use settings::Settings;
use write_values::ValueJudged;

// ---- characters

// Writes characters whose value is judged.
fn add_characters(
    o: Settings,
    stream: &mut [u8],
    opening: &[u32],
    text: &[u32],
    value: Part,
    place: Place,
    v: ValueJudged,
    n: usize,
    c: Core,
    work: &mut [u32],
) -> Stepped
    requires step_pre { StepPre stream.old work.old c n }
    requires value_accepted { ValueAccepted (settings_from o) opening.now text.now
        (Characters value) work.old c place no_strings c.top value (told_value v) }
    ensures { StepPost (settings_from o) opening.now text.now
        (meaning (Characters value)) stream.old work.old c n
        stream.new work.new result }
{
    let none = mem_state::no_strings();
    let s = mem_state::with_value(none, c.top, v.joins, value.place, value.size, v.hash);
    let code = write_event::code_here(c, CH, 0, work);
    let g = grammar_update::growth(c, CH, code.learned, s, work);
    if !grammar_update::fits(c, g) {
        return grammar_stepped::answer(LIMIT, c);
    }
    let x = text::look_up(text, value.place, value.size);
    let next = write_production::put_code(o, stream, c.at, c.mode, place, code);
    let at = write_values::put_value(
        o.aligned, stream, next, v.form, c.top, c.values, c.capacity, x, work,
    );
    mem_state::join_value(
        work,
        c.values,
        c.top,
        v.joins,
        value.place,
        value.size,
        v.hash,
    );
    mem_state::grow(work, c, g);
    let core = grammar_update::after(o.fragment, c, at, v.stored, s, g, n);
    grammar_stepped::answer(0, core)
}

// Writes characters, which are a value of the innermost element.
pub fn first_characters(
    o: Settings,
    stream: &mut [u8],
    opening: &[u32],
    text: &[u32],
    value: Part,
    n: usize,
    c: Core,
    work: &mut [u32],
) -> Stepped
    requires { StepPre stream.old work.old c n }
    ensures { StepPost (settings_from o) opening.now text.now
        (meaning (Characters value)) stream.old work.old c n
        stream.new work.new result }
{
    let Some(place) = grammar_codes::place_of(c.mode, CH, o.comments, o.instructions) else {
        return grammar_stepped::answer(SHAPE, c);
    };
    if !write_event::is_inside(text, value) {
        return grammar_stepped::answer(PLACE, c);
    }
    let x = text::look_up(text, value.place, value.size);
    let judged = write_values::judge_value(
        text, x, c.top, c.values, c.longest, c.capacity, c.stored, work,
    );
    let v = match judged {
        Ok(v) => v,
        Err(k) => return grammar_stepped::answer(k.number(), c),
    };
    add_characters(o, stream, opening, text, value, place, v, n, c, work)
}

// ---- the end tag

// Writes an end tag.
pub fn first_end(o: Settings, stream: &mut [u8], n: usize, c: Core, work: &mut [u32]) -> Stepped
    requires { StepPre stream.old work.old c n }
    ensures { (opening text : List ℕ) → StepPost (settings_from o) opening text (meaning EndElement)
        stream.old work.old c n stream.new work.new result }
{
    let Some(place) = grammar_codes::place_of(c.mode, EE, o.comments, o.instructions) else {
        return grammar_stepped::answer(SHAPE, c);
    };
    let s = mem_state::no_strings();
    let code = write_event::code_here(c, EE, 0, work);
    let g = grammar_update::growth(c, EE, code.learned, s, work);
    if !grammar_update::fits(c, g) {
        return grammar_stepped::answer(LIMIT, c);
    }
    let at = write_production::put_code(o, stream, c.at, c.mode, place, code);
    mem_state::grow(work, c, g);
    let core = grammar_update::after(o.fragment, c, at, c.stored, s, g, n);
    grammar_stepped::answer(0, core)
}
