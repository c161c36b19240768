// One event of a stream, read: its code, then the rest by its production, and the one place where
// its rows join memory. What the functions ask and leave is in specs of `read_event`.
#![tactic(auto)]

ghost use Rattle.std.specs.Prelude.{true, false};
ghost use Rattle.settings.specs.Meant.{settings_from};
ghost use Rattle.read_production.specs.View.{seen_of};
ghost use Rattle.read_event.specs.Step.{StepPre, StepPost};
ghost use Rattle.read_step.specs.Codes.{ByCodePre};

use event_code::{AT, CH, ED, EE, IN_ELEMENT, SD, SE};
use grammar_stepped::Stepped;
use mem_state::Core;
use read_production::ProductionRead;
use settings::Settings;

// Reads an event after its code, by a production that is not learned.
fn general(
    o: Settings,
    stream: &[u8],
    p: ProductionRead,
    c: Core,
    cell: usize,
    n: usize,
    events: &mut [u32],
    text: &mut [u32],
    work: &mut [u32],
) -> Stepped
    requires step_pre { StepPre stream.now events.old text.old work.old c cell n }
    requires by_code_pre { ByCodePre false (settings_from o) stream.now work.old c (seen_of p) }
    ensures { StepPost (settings_from o) stream.now events.old text.old
        work.old c cell n events.new text.new work.new
        result }
{
    let r = match read_event::read_event(o, stream, p, c, text, work) {
        Ok(r) => r,
        Err(refusal) => {
            return grammar_stepped::answer(refusal.number(), c);
        }
    };
    mem_state::join_strings(work, c, r.strings);
    mem_state::grow(work, c, r.growth);
    let event = r.event;
    event::store(event, events, cell);
    let d = grammar_update::after(o.fragment, c, r.next, r.stored, r.strings, r.growth, n);
    grammar_stepped::answer(0, d)
}

// Reads an event after its code, by a learned production.
fn learned(
    o: Settings,
    stream: &[u8],
    p: ProductionRead,
    c: Core,
    cell: usize,
    n: usize,
    events: &mut [u32],
    text: &mut [u32],
    work: &mut [u32],
) -> Stepped
    requires step_pre { StepPre stream.now events.old text.old work.old c cell n }
    requires by_code_pre { ByCodePre true (settings_from o) stream.now work.old c (seen_of p) }
    ensures { StepPost (settings_from o) stream.now events.old text.old
        work.old c cell n events.new text.new work.new
        result }
{
    let kind = p.kind;
    match kind {
        SE => read_tags::known_element(p, c, cell, n, events, work),
        AT => read_known::known_attribute(o.aligned, stream, p, c, cell, events, text, work),
        CH => read_known::known_characters(o.aligned, stream, p, c, cell, n, events, text, work),
        _ => read_tags::known_end(o.fragment, p, c, cell, n, events),
    }
}

// Reads an event after its code, by a production that is not learned: quickly where it can.
fn fixed(
    o: Settings,
    stream: &[u8],
    p: ProductionRead,
    c: Core,
    cell: usize,
    n: usize,
    events: &mut [u32],
    text: &mut [u32],
    work: &mut [u32],
) -> Stepped
    requires step_pre { StepPre stream.now events.old text.old work.old c cell n }
    requires by_code_pre { ByCodePre false (settings_from o) stream.now work.old c (seen_of p) }
    ensures { StepPost (settings_from o) stream.now events.old text.old
        work.old c cell n events.new text.new work.new
        result }
{
    if (p.kind == EE) & (c.mode == IN_ELEMENT) {
        return read_tags::end_tag(o.fragment, p, c, cell, n, events, work);
    }
    let kind = p.kind;
    match kind {
        SD => read_tags::start_document(o.fragment, p, c, cell, n, events),
        ED => read_tags::end_document(p, c, cell, n, events),
        SE => read_new::new_element(o, stream, p, c, cell, n, events, text, work),
        AT => read_new::new_attribute(o, stream, p, c, cell, events, text, work),
        EE => read_first::first_end(o.fragment, p, c, cell, n, events, work),
        CH => read_first::first_characters(o, stream, p, c, cell, n, events, text, work),
        _ => general(o, stream, p, c, cell, n, events, text, work),
    }
}

// Reads one event after the core's position, before which n have come, and stores it in the nine
// cells from one on.
pub fn step(
    o: Settings,
    stream: &[u8],
    c: Core,
    cell: usize,
    n: usize,
    events: &mut [u32],
    text: &mut [u32],
    work: &mut [u32],
) -> Stepped
    requires { StepPre stream.now events.old text.old work.old c cell n }
    ensures { StepPost (settings_from o) stream.now events.old text.old
        work.old c cell n events.new text.new work.new
        result }
{
    let code = read_production::read_production(o, stream, c.at, c.mode, c.top, c.learned, work);
    let p = match code {
        Ok(p) => p,
        Err(refusal) => return grammar_stepped::answer(refusal.number(), c),
    };
    if p.learned {
        return learned(o, stream, p, c, cell, n, events, text, work);
    }
    fixed(o, stream, p, c, cell, n, events, text, work)
}
