// The octets of a stream so far, read on from where they had ended (02, P8). What the functions ask
// and leave is in specs/On.antt.
#![tactic(auto)]

ghost use Rattle.std.specs.Prelude.{◌≡◌, ◌≤◌, length, take};
ghost use Rattle.spec_exi.specs.Sizes.{max_stream};
ghost use Rattle.settings.specs.Meant.{settings_from};
ghost use Rattle.read_header.specs.Header.{view};
ghost use Rattle.reader.specs.read_run.Run.{AdvancePre};
ghost use Rattle.receiver_read.specs.On.{BeginPre, BeginPost, OutermostPost, HeaderPost};
ghost use Rattle.receiver_read.specs.On.{OnPost};

use grammar_open::State;
pub use reader::the_read_run as the_read_run;
use reader::the_read_run::Advanced;
use refusal::{Refusal, TAIL};
use settings::Settings;

// Lays what memory holds before the first event: no event cell, the initial entries in text store
// and tables.
pub fn begin(events: &mut [u32], text: &mut [u32], work: &mut [u32])
    requires { BeginPre events.old text.old work.old }
    ensures { BeginPost events.old text.old work.old
        events.new text.new work.new }
{
    mem_clear::cells(events);
    mem_clear::cells(text);
    mem_initial::clear_counts(work);
    mem_initial::lay_rows(work, 0);
    mem_initial::lay_text(text, 0);
}

// The outermost open element's row, or what stands there. (Read for what it tells: all places of
// the array are there.)
pub fn outermost(st: State) -> u16
    ensures { OutermostPost st result }
{
    st.opened[0]
}

// Reads the header, if it is not read yet: the position is 0.
fn pass_header(o: Settings, stream: &[u8], at: usize) -> Result<usize, Refusal>
    requires { length stream.now ≤ max_stream }
    ensures { HeaderPost (settings_from o) stream.now at (view result) }
{
    if at == 0 {
        return read_header::read_header(o, stream);
    }
    Ok(at)
}

// Reads on from a state, before which so many events were read: the header, the events, and the
// padding. ENDED is no refusal yet: the state is that after the complete events.
pub fn read_on(
    o: Settings,
    stream: &[u8],
    st: State,
    first: usize,
    events: &mut [u32],
    text: &mut [u32],
    work: &mut [u32],
) -> Advanced
    requires { AdvancePre stream.now events.old text.old work.old st first }
    ensures { OnPost (settings_from o) stream.now events.old text.old
        work.old st first events.new text.new work.new
        result }
{
    let at = match pass_header(o, stream, st.core.at) {
        Ok(at) => at,
        Err(refusal) => {
            return Advanced {
                number: refusal.number(),
                index: first,
                state: st,
            };
        }
    };
    let mut t = st;
    t.core.at = at;
    let r = reader::the_read_run::advance(o, stream, t, first, events, text, work);
    if r.number != 0 {
        return r;
    }
    if reader::the_read_body::is_padding(stream, r.state.core.at) {
        return r;
    }
    let mut y = r;
    y.number = TAIL;
    y
}

// Reads on over the first n octets that are held.
pub fn read_held(
    o: Settings,
    held: &[u8],
    n: usize,
    st: State,
    first: usize,
    events: &mut [u32],
    text: &mut [u32],
    work: &mut [u32],
) -> Advanced
    requires n_in_bounds { n ≤ length held.now }
    requires advance_pre { AdvancePre (take n held.now) events.old text.old work.old st first }
    ensures { OnPost (settings_from o) (take n held.now) events.old
        text.old work.old st first events.new text.new
        work.new result }
{
    read_on(o, &held[0..n], st, first, events, text, work)
}
