// The events of a stream and the pad bits behind them, read. What the functions ask and leave is in
// specs/Body.antt, the reply in specs/Reply.antt.
#![tactic(auto)]

ghost use Rattle.std.specs.Prelude.{◌≡◌, ◌≤◌, ◌<◌, drop, IfErr};
ghost use Rattle.spec_fields.specs.Bits.{unpack, is_padding};
ghost use Rattle.settings.specs.Meant.{settings_from};
ghost use Rattle.read_run.specs.Run.{AdvancePre};
ghost use Rattle.spec_exi.specs.Sizes.{max_events};
ghost use Rattle.read_body.specs.Reply.{refused_as, body_in};
ghost use Rattle.read_body.specs.Body.{PaddingPre, RunPost, BodyPost};

use grammar_open::State;
pub use read_run as the_read_run;
use refusal::TAIL;
use settings::Settings;

// The counts of events and code points of a stream that is accepted.
#[derive(Clone, Copy)]
pub struct Counts {
    pub events: u32,
    pub code_points: u32,
}

// The number of a refusal, and the index of the event concerned.
#[derive(Clone, Copy)]
pub struct Stop {
    pub number: u32,
    pub index: u32,
}

pub fn refused(number: u32, index: usize) -> Stop
    requires { index ≤ max_events }
    ensures { result ≡ refused_as number index }
{
    Stop {
        number,
        index: index as u32,
    }
}

// Whether pad bits are left behind a position: fewer than an octet has, and all zero.
pub fn is_padding(stream: &[u8], at: usize) -> bool
    requires { PaddingPre stream.now at }
    ensures { result ≡ is_padding (drop at (unpack stream.now)) }
{
    let left = 8 * stream.len() - at;
    if 7 < left {
        return false;
    }
    match read_field::bits(stream, at, left as u32) {
        Ok(bits) => bits.value == 0,
        Err(_) => false,
    }
}

// The events and the padding. After a refusal the cells of the events before it are left.
fn run(
    o: Settings,
    stream: &[u8],
    st: State,
    events: &mut [u32],
    text: &mut [u32],
    work: &mut [u32],
) -> Result<Counts, Stop>
    requires { AdvancePre stream.now events.old text.old work.old st 0 }
    ensures read { RunPost (settings_from o) stream.now events.old
        text.old work.old st events.new text.new (body_in result) }
    ensures some { IfErr result (λ x. 0 < x.number) }
{
    let r = read_run::advance(o, stream, st, 0, events, text, work);
    if r.number != 0 {
        return Err(refused(r.number, r.index));
    }
    if is_padding(stream, r.state.core.at) {
        return Ok(Counts {
            events: r.index as u32,
            code_points: r.state.core.stored as u32,
        });
    }
    Err(refused(TAIL, r.index))
}

// Reads the events and the padding: their cells and the text store, and zeros behind them; after a
// refusal zeros alone.
pub fn read_events(
    o: Settings,
    stream: &[u8],
    st: State,
    events: &mut [u32],
    text: &mut [u32],
    work: &mut [u32],
) -> Result<Counts, Stop>
    requires { AdvancePre stream.now events.old text.old work.old st 0 }
    ensures { BodyPost (settings_from o) stream.now events.old
        text.old work.old st events.new text.new (body_in result) }
{
    let reply = run(o, stream, st, events, text, work);
    if reply.is_err() {
        mem_clear::cells(events);
        mem_clear::cells(text);
        return reply;
    }
    reply
}
