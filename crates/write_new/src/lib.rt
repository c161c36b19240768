// Quick steps: a start element or an attribute that no learned production fits, or that has its
// name judged whole (EXI 8.4.3). What is new of its name joins the tables. What the functions ask
// and leave is in specs of `write_first` and `write_event`.
#![tactic(auto)]

ghost use Rattle.settings.specs.Meant.{settings_from};
ghost use Rattle.event.specs.Cells.{meaning};
ghost use Rattle.event.specs.declared.Event.TheVariants.{StartElement, Attribute};
ghost use Rattle.write_content.specs.Contents.{plain_as};
ghost use Rattle.write_event.specs.Step.{StepPre, StepPost};
ghost use Rattle.write_values.specs.Values.{told_value};
ghost use Rattle.write_first.specs.First.{Accepted, ValueAccepted};

use event::Part;
use event_code::{AT, SE};
use grammar_codes::Place;
use grammar_stepped::Stepped;
use mem_state::{Core, Strings};
use refusal::{LIMIT, PLACE, SHAPE};
use settings::Settings;
use write_values::ValueJudged;

// ---- a start element

// Writes a start element whose strings are judged.
fn add_element(
    o: Settings,
    stream: &mut [u8],
    opening: &[u32],
    text: &[u32],
    uri: Part,
    local: Part,
    place: Place,
    stored: usize,
    s: Strings,
    n: usize,
    c: Core,
    work: &mut [u32],
) -> Stepped
    requires step_pre { StepPre stream.old work.old c n }
    requires accepted { Accepted (settings_from o) opening.now text.now
        (StartElement uri local) work.old c place (plain_as stored s) }
    ensures { StepPost (settings_from o) opening.now text.now
        (meaning (StartElement uri local)) stream.old work.old c n
        stream.new work.new result }
{
    let code = write_event::code_here(c, SE, s.name_row, work);
    let g = grammar_update::growth(c, SE, code.learned, s, work);
    if !grammar_update::fits(c, g) {
        return grammar_stepped::answer(LIMIT, c);
    }
    let carried = code.learned;
    let next = write_production::put_code(o, stream, c.at, c.mode, place, code);
    let at = write_content::put_name(
        o.aligned, stream, next, carried, uri, local, c, s, text, work,
    );
    mem_state::join_strings(work, c, s);
    mem_state::grow(work, c, g);
    let core = grammar_update::after(o.fragment, c, at, stored, s, g, n);
    grammar_stepped::answer(0, core)
}

// Writes a start element: a URI, then a local name.
pub fn new_element(
    o: Settings,
    stream: &mut [u8],
    opening: &[u32],
    text: &[u32],
    uri: Part,
    local: Part,
    n: usize,
    c: Core,
    work: &mut [u32],
) -> Stepped
    requires { StepPre stream.old work.old c n }
    ensures { StepPost (settings_from o) opening.now text.now
        (meaning (StartElement uri local)) stream.old work.old c n
        stream.new work.new result }
{
    let Some(place) = grammar_codes::place_of(c.mode, SE, o.comments, o.instructions) else {
        return grammar_stepped::answer(SHAPE, c);
    };
    if !(write_event::is_inside(text, uri) & write_event::is_inside(text, local)) {
        return grammar_stepped::answer(PLACE, c);
    }
    let q = match write_qname::judge_name(opening, text, false, uri, local, c, work) {
        Ok(q) => q,
        Err(k) => return grammar_stepped::answer(k.number(), c),
    };
    let s = q.strings;
    add_element(
        o, stream, opening, text, uri, local, place, q.stored, s, n, c, work,
    )
}

// ---- an attribute

// Writes an attribute whose strings are judged, where the start tag may have it.
fn add_attribute(
    o: Settings,
    stream: &mut [u8],
    opening: &[u32],
    text: &[u32],
    uri: Part,
    local: Part,
    value: Part,
    place: Place,
    s: Strings,
    v: ValueJudged,
    n: usize,
    c: Core,
    work: &mut [u32],
) -> Stepped
    requires step_pre { StepPre stream.old work.old c n }
    requires value_accepted { ValueAccepted (settings_from o) opening.now text.now
        (Attribute uri local value) work.old c place s s.name_row value (told_value v) }
    ensures { StepPost (settings_from o) opening.now text.now
        (meaning (Attribute uri local value)) stream.old work.old c n
        stream.new work.new result }
{
    let t = mem_state::with_value(s, s.name_row, v.joins, value.place, value.size, v.hash);
    let code = write_event::code_here(c, AT, s.name_row, work);
    let g = grammar_update::growth(c, AT, code.learned, t, work);
    if !grammar_update::allows(c.tag, AT, s.name_row, work) {
        return grammar_stepped::answer(SHAPE, c);
    }
    if !grammar_update::fits(c, g) {
        return grammar_stepped::answer(LIMIT, c);
    }
    let x = text::look_up(text, value.place, value.size);
    let carried = code.learned;
    let next = write_production::put_code(o, stream, c.at, c.mode, place, code);
    let mid = write_content::put_name(
        o.aligned, stream, next, carried, uri, local, c, t, text, work,
    );
    let at = write_values::put_value(
        o.aligned, stream, mid, v.form, s.name_row, c.values, c.capacity, x, work,
    );
    mem_state::join_strings(work, c, t);
    mem_state::grow(work, c, g);
    let core = grammar_update::after(o.fragment, c, at, v.stored, t, g, n);
    grammar_stepped::answer(0, core)
}

// Writes an attribute: a URI, a local name, then a value; the second of one name is SHAPE.
pub fn new_attribute(
    o: Settings,
    stream: &mut [u8],
    opening: &[u32],
    text: &[u32],
    uri: Part,
    local: Part,
    value: Part,
    n: usize,
    c: Core,
    work: &mut [u32],
) -> Stepped
    requires { StepPre stream.old work.old c n }
    ensures { StepPost (settings_from o) opening.now text.now
        (meaning (Attribute uri local value)) stream.old work.old c n
        stream.new work.new result }
{
    let Some(place) = grammar_codes::place_of(c.mode, AT, o.comments, o.instructions) else {
        return grammar_stepped::answer(SHAPE, c);
    };
    let name = write_event::is_inside(text, uri) & write_event::is_inside(text, local);
    if !(name & write_event::is_inside(text, value)) {
        return grammar_stepped::answer(PLACE, c);
    }
    let q = match write_qname::judge_name(opening, text, true, uri, local, c, work) {
        Ok(q) => q,
        Err(k) => return grammar_stepped::answer(k.number(), c),
    };
    let s = q.strings;
    let x = text::look_up(text, value.place, value.size);
    let judged = write_values::judge_value(
        text, x, s.name_row, c.values, c.longest, c.capacity, q.stored, work,
    );
    let v = match judged {
        Ok(v) => v,
        Err(k) => return grammar_stepped::answer(k.number(), c),
    };
    add_attribute(
        o, stream, opening, text, uri, local, value, place, s, v, n, c, work,
    )
}
