// The reader: octets to the event list whose strict form they are, or a refusal with its number
// and index. The definitions that the contracts cite are in specs/Read.antt and
// crates/read_body/specs/Reply.antt and, for the answer, in crates/spec_exi/specs/Reader.antt.
#![tactic(auto)]

ghost use Rattle.std.specs.Prelude.{◌+◌, ◌≤◌};
ghost use Rattle.spec_exi.specs.Sizes.{sizes, max_values};
ghost use Rattle.spec_exi.specs.Reader.{read_stream};
ghost use Rattle.settings.specs.Meant.{settings_from};
ghost use Rattle.read_body.specs.Reply.{Filled, body_in};
ghost use Rattle.reader.specs.Read.{ReadPost, lent, answer_of, Cleared, ReadStreamPre};

pub use read_body as the_read_body;
pub use read_body::the_read_run as the_read_run;
use read_body::{Counts, Stop};
use refusal::{LONG, ROOM, SETTINGS};
use settings::{SettingNumbers, Settings};
use sizes::{EVENT_CELLS, MAX_STORE, MAX_STREAM, READER_WORK};

// The number of the refusal or 0, the index of the event concerned, and the counts of events and
// code points.
#[repr(C)]
#[derive(Clone, Copy)]
pub struct ReadReply {
    pub number: u32,
    pub index: u32,
    pub events: u32,
    pub code_points: u32,
}

// The header and the events, with the initial entries in tables and store.
fn read_stream(
    o: Settings,
    stream: &[u8],
    events: &mut [u32],
    text: &mut [u32],
    work: &mut [u32],
) -> Result<Counts, Stop>
    requires read_stream_pre { ReadStreamPre stream.now events.old text.old work.old }
    requires capacity_bound { o.capacity ≤ max_values + 1 }
    ensures { Filled (read_stream sizes (settings_from o) stream.now)
        events.old text.old events.new text.new (body_in result) }
{
    let at = match read_header::read_header(o, stream) {
        Ok(at) => at,
        Err(refusal) => return Err(read_body::refused(refusal.number(), 0)),
    };
    mem_initial::clear_counts(work);
    mem_initial::lay_rows(work, 0);
    mem_initial::lay_text(text, 0);
    let st = grammar_open::none_open(mem_initial::start(at, o.longest, o.capacity));
    read_body::read_events(o, stream, st, events, text, work)
}

// The tests of what is lent, of the settings' numbers and of the stream's length; then the stream.
fn read_cleared(
    s: SettingNumbers,
    stream: &[u8],
    events: &mut [u32],
    text: &mut [u32],
    work: &mut [u32],
) -> Result<Counts, Stop>
    requires { Cleared events.old text.old }
    ensures { Filled (answer_of s stream.now
        (lent events.old text.old work.old))
        events.old text.old events.new text.new (body_in result) }
{
    if (events.len() < EVENT_CELLS) | (text.len() < MAX_STORE) | (work.len() < READER_WORK) {
        return Err(read_body::refused(ROOM, 0));
    }
    if !settings::are_meaningful(s) {
        return Err(read_body::refused(SETTINGS, 0));
    }
    if MAX_STREAM < stream.len() {
        return Err(read_body::refused(LONG, 0));
    }
    read_stream(settings::settings_of(s), stream, events, text, work)
}

// Reads the stream: the cells of its events and its text store, and zeros behind them; after a
// refusal zeros alone. Work memory is left zero.
pub fn read(
    s: SettingNumbers,
    stream: &[u8],
    events: &mut [u32],
    text: &mut [u32],
    work: &mut [u32],
) -> ReadReply
    ensures { ReadPost s stream.now
        (lent events.old text.old work.old)
        (lent events.new text.new work.new) result }
{
    mem_clear::cells(events);
    mem_clear::cells(text);
    let r = read_cleared(s, stream, events, text, work);
    mem_clear::cells(work);
    match r {
        Ok(counts) => ReadReply {
            number: 0,
            index: 0,
            events: counts.events,
            code_points: counts.code_points,
        },
        Err(x) => ReadReply {
            number: x.number,
            index: x.index,
            events: 0,
            code_points: 0,
        },
    }
}
