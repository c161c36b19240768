// The events of a list, the body of a stream (EXI 4), written one after the other, with the open
// elements in place. What the functions ask and leave is in specs/Run.antt.
#![tactic(auto)]

ghost use Rattle.std.specs.Prelude.{◌≡◌};
ghost use Rattle.settings.specs.Meant.{settings_from};
ghost use Rattle.event.specs.Cells.{events_of};
ghost use Rattle.write_run.specs.Run.{stopped_as, RunPre, RunPost};

use event_code::IS_OVER;
use grammar_open::State;
use mem_state::Core;
use refusal::{LIMIT, SHAPE};
use settings::Settings;
use sizes::{CELLS_PER_EVENT, MAX_EVENTS};

// The number of the refusal or 0, the index of the event concerned, and the position after the bits
// of the events before it.
#[derive(Drop)]
pub struct Run {
    pub number: u32,
    pub index: usize,
    pub at: usize,
}

fn stopped(number: u32, index: usize, at: usize) -> Run
    ensures { result ≡ stopped_as number index at }
{
    Run { number, index, at }
}

// Writes the events from the state on.
pub fn put_events(
    o: Settings,
    stream: &mut [u8],
    st: State,
    opening: &[u32],
    events: &[u32],
    text: &[u32],
    work: &mut [u32],
) -> Run
    requires { RunPre stream.old work.old st }
    ensures { RunPost (settings_from o) opening.now (events_of events.now)
        text.now stream.old work.old st stream.new
        work.new result }
{
    let mut c = st.core;
    let mut opened = st.opened;
    let count = (events.len() + CELLS_PER_EVENT - 1) / CELLS_PER_EVENT;
    for n in 0..count {
        if n == MAX_EVENTS {
            return stopped(LIMIT, n, c.at);
        }
        let cell = CELLS_PER_EVENT * n;
        if events.len() - cell < CELLS_PER_EVENT {
            return stopped(SHAPE, n, c.at);
        }
        let Some(e) = event::load(events, cell) else {
            return stopped(SHAPE, n, c.at);
        };
        let r = write_step::step(o, stream, opening, text, e, n, c, work);
        if r.number != 0 {
            return stopped(r.number, n, c.at);
        }
        let before = c.depth;
        let longest = c.longest;
        let capacity = c.capacity;
        let after = r.depth;
        if before < after {
            opened[before] = r.top as u16;
        }
        let top = grammar_open::innermost(&opened, after);
        c = Core {
            at: r.at,
            stored: r.stored,
            uris: r.uris,
            names: r.names,
            values: r.values,
            learned: r.learned,
            grammars: r.grammars,
            mode: r.mode,
            top,
            depth: after,
            tag: r.tag,
            longest,
            capacity,
        };
    }
    if c.mode != IS_OVER {
        return stopped(SHAPE, count, c.at);
    }
    stopped(0, 0, c.at)
}
