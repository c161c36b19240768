// The events of a stream, read one behind the other, with the open elements in place. What the
// function asks and leaves is in specs/Run.antt.
#![tactic(auto)]

ghost use Rattle.std.specs.Prelude.{◌≡◌};
ghost use Rattle.settings.specs.Meant.{settings_from};
ghost use Rattle.read_run.specs.Run.{AdvancePre, AdvancePost};

use event_code::IS_OVER;
use grammar_open::State;
use mem_state::Core;
use refusal::LIMIT;
use settings::Settings;
use sizes::{CELLS_PER_EVENT, MAX_EVENTS, MAX_OPEN};

// The number of the refusal or 0, how many events are read, and the state after them.
#[derive(Clone, Copy)]
pub struct Advanced {
    pub number: u32,
    pub index: usize,
    pub state: State,
}

fn stopped(number: u32, index: usize, core: Core, opened: [u16; MAX_OPEN]) -> Advanced
    ensures { result
        ≡ record {
          number = number;
          index = index;
          state = record { core = core; opened = opened };
        } }
{
    let state = State { core, opened };
    Advanced {
        number,
        index,
        state,
    }
}

// Reads events from a state on, where so many were read before, until one is refused, there are too
// many, or the end document has come. A state after the end document is answered as it is.
pub fn advance(
    o: Settings,
    stream: &[u8],
    st: State,
    first: usize,
    events: &mut [u32],
    text: &mut [u32],
    work: &mut [u32],
) -> Advanced
    requires { AdvancePre stream.now events.old text.old work.old st first }
    ensures { AdvancePost (settings_from o) stream.now events.old
        text.old work.old st first events.new text.new
        work.new result }
{
    let mut c = st.core;
    let mut opened = st.opened;
    let mut n = first;
    while c.mode != IS_OVER {
        if MAX_EVENTS <= n {
            return stopped(LIMIT, n, c, opened);
        }
        let cell = CELLS_PER_EVENT * n;
        let before = c.depth;
        let r = read_step::step(o, stream, c, cell, n, events, text, work);
        c = Core {
            at: r.at,
            stored: r.stored,
            uris: r.uris,
            names: r.names,
            values: r.values,
            learned: r.learned,
            grammars: r.grammars,
            mode: r.mode,
            top: r.top,
            depth: r.depth,
            tag: r.tag,
            longest: r.longest,
            capacity: r.capacity,
        };
        if r.number != 0 {
            return stopped(r.number, n, c, opened);
        }
        if before < c.depth {
            opened[before] = c.top as u16;
        }
        c.top = grammar_open::innermost(&opened, c.depth);
        n += 1;
    }
    stopped(0, n, c, opened)
}
