// One event of a stream after its code, read: its content, and what is tested after this. What the
// functions ask and leave is in specs/, and what any step leaves.
#![tactic(auto)]

ghost use Rattle.std.specs.Prelude.{◌≡◌, false};
ghost use Rattle.settings.specs.Meant.{settings_from};
ghost use Rattle.grammar_update.specs.Growth.{GrowthPre, growth_of};
ghost use Rattle.read_production.specs.View.{seen_of};
ghost use Rattle.read_event.specs.View.{judged_in, event_in};
ghost use Rattle.read_event.specs.Judge.{LooseHere, JudgePost, EventPre, CodeRead};
ghost use Rattle.read_event.specs.Judge.{EventPost};

use event::Event;
use mem_state::{Core, Growth, Strings};
use read_production::ProductionRead;
use refusal::Refusal;
use settings::Settings;

// The position after an event; the code points in the store; the event; and what it adds to memory.
#[derive(Drop)]
pub struct EventRead {
    pub next: usize,
    pub stored: usize,
    pub event: Event,
    pub strings: Strings,
    pub growth: Growth,
}

// ---- the tests after the content

// Whether a learned production fits the event, and its code is not that one's.
fn loose(c: Core, p: ProductionRead, s: Strings, work: &[u32]) -> bool
    requires growth_pre { GrowthPre work.now c s }
    requires learned_value { p.learned ≡ false }
    ensures { LooseHere work.now c (seen_of p) s result }
{
    grammar_match::find_learned(c.mode, c.top, p.kind, s.name_row, c.learned, work).is_some()
}

// What an event leaves in the grammars, judged after its content: a second attribute of one name is
// refused, then what is LOOSE, then what passes a size.
fn judge(c: Core, p: ProductionRead, s: Strings, work: &[u32]) -> Result<Growth, Refusal>
    requires growth_pre { GrowthPre work.now c s }
    requires learned_value { p.learned ≡ false }
    ensures { JudgePost work.now c (seen_of p) s
        (judged_in (growth_of work.now c p.kind p.learned s) result) }
{
    let growth = grammar_update::growth(c, p.kind, p.learned, s, work);
    if !grammar_update::allows(c.tag, p.kind, s.name_row, work) {
        return Err(Refusal::Shape);
    }
    if loose(c, p, s, work) {
        return Err(Refusal::Loose);
    }
    if !grammar_update::fits(c, growth) {
        return Err(Refusal::Limit);
    }
    Ok(growth)
}

// ---- an event

// Reads one event after its code, by a production that is not learned, and judges it; work memory
// is not written. A refusal clears the text that it laid.
pub fn read_event(
    o: Settings,
    stream: &[u8],
    p: ProductionRead,
    c: Core,
    text: &mut [u32],
    work: &[u32],
) -> Result<EventRead, Refusal>
    requires event_pre { EventPre stream.now text.old work.now c }
    requires code_read { CodeRead (settings_from o) stream.now work.now c (seen_of p) }
    requires learned_value { p.learned ≡ false }
    ensures { EventPost (settings_from o) stream.now text.old work.now c
        text.new (event_in c result) }
{
    let x = match read_content::read_content(o.aligned, stream, p.next, p, c, text, work) {
        Ok(x) => x,
        Err(y) => {
            let laid = y.stored - c.stored;
            read_literal::clear_cells(text, c.stored, laid);
            return Err(y.refusal);
        }
    };
    let strings = x.strings;
    let judged = judge(c, p, strings, work);
    let growth = match judged {
        Ok(growth) => growth,
        Err(refusal) => {
            let laid = x.stored - c.stored;
            read_literal::clear_cells(text, c.stored, laid);
            return Err(refusal);
        }
    };
    Ok(EventRead {
        next: x.next,
        stored: x.stored,
        event: x.event,
        strings,
        growth,
    })
}
