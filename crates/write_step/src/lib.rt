// One event of a list, written: by a quick step where one applies, else by the general path, as
// comments and instructions are. What a step asks and leaves is in specs of `write_event`.
#![tactic(auto)]

ghost use Rattle.std.specs.Prelude.{ℕ, List};
ghost use Rattle.settings.specs.Meant.{settings_from};
ghost use Rattle.event.specs.Cells.{meaning};
ghost use Rattle.event.specs.declared.Event.TheVariants.{StartDocument, EndDocument};
ghost use Rattle.event.specs.declared.Event.TheVariants.{StartElement, Attribute};
ghost use Rattle.event.specs.declared.Event.TheVariants.{EndElement, Characters};
ghost use Rattle.write_event.specs.Step.{StepPre, StepPost};

use event::{Event, Part};
use event_code::{AT, CH, ED, EE, IN_DOC_END, IN_DOCUMENT, IN_ELEMENT, IN_TAG, SD, SE};
use grammar_stepped::Stepped;
use mem_state::Core;
use settings::Settings;
use sizes::MAX_OPEN;

fn start_document(
    o: Settings,
    stream: &mut [u8],
    opening: &[u32],
    text: &[u32],
    n: usize,
    c: Core,
    work: &mut [u32],
) -> Stepped
    requires { StepPre stream.old work.old c n }
    ensures { StepPost (settings_from o) opening.now text.now (meaning StartDocument)
        stream.old work.old c n stream.new work.new result }
{
    let row = grammar_match::find_learned(c.mode, c.top, SD, 0, c.learned, work);
    if row.is_some() | (c.mode != IN_DOCUMENT) {
        let p = settings::copied(o);
        let d = mem_state::copied(c);
        let r = write_event::write_event(
            p,
            stream,
            opening,
            text,
            Event::StartDocument,
            n,
            d,
            work,
        );
        return grammar_stepped::copied(r);
    }
    write_tags::start_document(o, stream, n, c, work)
}

fn end_document(
    o: Settings,
    stream: &mut [u8],
    opening: &[u32],
    text: &[u32],
    n: usize,
    c: Core,
    work: &mut [u32],
) -> Stepped
    requires { StepPre stream.old work.old c n }
    ensures { StepPost (settings_from o) opening.now text.now (meaning EndDocument)
        stream.old work.old c n stream.new work.new result }
{
    let row = grammar_match::find_learned(c.mode, c.top, ED, 0, c.learned, work);
    if row.is_some() | (c.mode != IN_DOC_END) {
        let p = settings::copied(o);
        let d = mem_state::copied(c);
        let r = write_event::write_event(p, stream, opening, text, Event::EndDocument, n, d, work);
        return grammar_stepped::copied(r);
    }
    write_tags::end_document(o, stream, n, c, work)
}

fn start_element(
    o: Settings,
    stream: &mut [u8],
    opening: &[u32],
    text: &[u32],
    uri: Part,
    local: Part,
    n: usize,
    c: Core,
    work: &mut [u32],
) -> Stepped
    requires { StepPre stream.old work.old c n }
    ensures { StepPost (settings_from o) opening.now text.now
        (meaning (StartElement uri local)) stream.old work.old c n
        stream.new work.new result }
{
    let f = write_known::learned_name(opening, text, SE, uri, local, c, work);
    let has = mem_learned::has_grammar(work, f.name);
    match f.row {
        Some(row) if has & (c.depth < MAX_OPEN) & (IN_TAG <= c.mode) => {
            write_tags::known_element(o.aligned, stream, f.name, row, n, c, work)
        }
        _ => write_new::new_element(o, stream, opening, text, uri, local, n, c, work),
    }
}

fn attribute(
    o: Settings,
    stream: &mut [u8],
    opening: &[u32],
    text: &[u32],
    uri: Part,
    local: Part,
    value: Part,
    n: usize,
    c: Core,
    work: &mut [u32],
) -> Stepped
    requires { StepPre stream.old work.old c n }
    ensures { StepPost (settings_from o) opening.now text.now
        (meaning (Attribute uri local value)) stream.old work.old c n
        stream.new work.new result }
{
    let f = write_known::learned_name(opening, text, AT, uri, local, c, work);
    let marked = mem_marks::is_marked(work, f.name, c.tag);
    match f.row {
        Some(row) if !marked & (c.mode == IN_TAG) => {
            write_known::known_attribute(o.aligned, stream, text, value, f.name, row, c, work)
        }
        _ => write_new::new_attribute(o, stream, opening, text, uri, local, value, n, c, work),
    }
}

fn characters(
    o: Settings,
    stream: &mut [u8],
    opening: &[u32],
    text: &[u32],
    value: Part,
    n: usize,
    c: Core,
    work: &mut [u32],
) -> Stepped
    requires { StepPre stream.old work.old c n }
    ensures { StepPost (settings_from o) opening.now text.now
        (meaning (Characters value)) stream.old work.old c n
        stream.new work.new result }
{
    match grammar_match::find_learned(c.mode, c.top, CH, 0, c.learned, work) {
        Some(row) if IN_TAG <= c.mode => {
            write_known::known_characters(o.aligned, stream, text, value, row, n, c, work)
        }
        _ => write_first::first_characters(o, stream, opening, text, value, n, c, work),
    }
}

fn end_element(o: Settings, stream: &mut [u8], n: usize, c: Core, work: &mut [u32]) -> Stepped
    requires { StepPre stream.old work.old c n }
    ensures { (opening text : List ℕ) → StepPost (settings_from o) opening text (meaning EndElement)
        stream.old work.old c n stream.new work.new result }
{
    match grammar_match::find_learned(c.mode, c.top, EE, 0, c.learned, work) {
        Some(row) if IN_TAG <= c.mode => {
            write_tags::known_end(o.aligned, o.fragment, stream, row, n, c, work)
        }
        None if c.mode == IN_ELEMENT => {
            write_tags::end_tag(o.aligned, o.fragment, stream, n, c, work)
        }
        _ => write_first::first_end(o, stream, n, c, work),
    }
}

// Writes one event, before which n have come, after the core's position.
pub fn step(
    o: Settings,
    stream: &mut [u8],
    opening: &[u32],
    text: &[u32],
    e: Event,
    n: usize,
    c: Core,
    work: &mut [u32],
) -> Stepped
    requires { StepPre stream.old work.old c n }
    ensures { StepPost (settings_from o) opening.now text.now (meaning e)
        stream.old work.old c n stream.new work.new result }
{
    match e {
        Event::StartDocument => start_document(o, stream, opening, text, n, c, work),
        Event::EndDocument => end_document(o, stream, opening, text, n, c, work),
        Event::StartElement(uri, local) => {
            start_element(o, stream, opening, text, uri, local, n, c, work)
        }
        Event::Attribute(uri, local, value) => {
            attribute(o, stream, opening, text, uri, local, value, n, c, work)
        }
        Event::EndElement => end_element(o, stream, n, c, work),
        Event::Characters(value) => characters(o, stream, opening, text, value, n, c, work),
        _ => {
            let p = settings::copied(o);
            let d = mem_state::copied(c);
            let r = write_event::write_event(p, stream, opening, text, e, n, d, work);
            grammar_stepped::copied(r)
        }
    }
}
