// The writer: an event list to the octets of its strict form, or a refusal with its number and
// index. The definitions that the contracts cite are in specs/Write.antt and, for the answer, in
// crates/spec_exi/specs/Writer.antt.
#![tactic(auto)]

ghost use Rattle.std.specs.Prelude.{◌≡◌};
ghost use Rattle.settings.specs.Meant.{settings_from};
ghost use Rattle.event.specs.Cells.{events_of};
ghost use Rattle.writer.specs.Write.{BodyPre, BodyPost, PutListPre, ListPut, Attempted};
ghost use Rattle.writer.specs.Write.{answer_of, WritePost, lent, refused_as};

use refusal::{LONG, ROOM, SETTINGS};
use settings::{SettingNumbers, Settings};
use sizes::{MAX_STREAM, WRITER_WORK};
use write_run::Run;

// The number of the refusal or 0, the index of the event concerned, and the count of octets.
#[repr(C)]
#[derive(Clone, Copy)]
pub struct WriteReply {
    pub number: u32,
    pub index: u32,
    pub octets: u32,
}

// The events, with the initial entries in tables and opening text.
fn put_body(
    o: Settings,
    stream: &mut [u8],
    at: usize,
    events: &[u32],
    text: &[u32],
    work: &mut [u32],
) -> Run
    requires { BodyPre o.capacity stream.old at work.old }
    ensures { BodyPost (settings_from o) (events_of events.now)
        text.now stream.old at stream.new result }
{
    let opening = mem_initial::opening_text();
    mem_initial::clear_counts(work);
    mem_initial::lay_rows(work, 0);
    let st = grammar_open::none_open(mem_initial::start(at, o.longest, o.capacity));
    write_run::put_events(o, stream, st, &opening, events, text, work)
}

fn refused(number: u32, index: u32) -> WriteReply
    ensures { result ≡ refused_as number index }
{
    WriteReply {
        number,
        index,
        octets: 0,
    }
}

// The header and the events. LONG comes last.
fn put_list(
    o: Settings,
    stream: &mut [u8],
    events: &[u32],
    text: &[u32],
    work: &mut [u32],
) -> WriteReply
    requires { PutListPre o.capacity stream.old work.old }
    ensures { ListPut (settings_from o) (events_of events.now) text.now
        stream.old stream.new result }
{
    let at = write_header::put_header(o, stream);
    let run = put_body(o, stream, at, events, text, work);
    if run.number != 0 {
        return refused(run.number, run.index as u32);
    }
    let octets = (run.at + 7) / 8;
    if MAX_STREAM < octets {
        return refused(LONG, 0);
    }
    WriteReply {
        number: 0,
        index: 0,
        octets: octets as u32,
    }
}

// First tests the lent lengths and the settings.
fn attempt(
    s: SettingNumbers,
    stream: &mut [u8],
    events: &[u32],
    text: &[u32],
    work: &mut [u32],
) -> WriteReply
    ensures { Attempted (answer_of s events.now text.now
        (lent stream.old work.old))
        stream.old stream.new result }
{
    if (stream.len() < MAX_STREAM) | (work.len() < WRITER_WORK) {
        return refused(ROOM, 0);
    }
    if !settings::are_meaningful(s) {
        return refused(SETTINGS, 0);
    }
    mem_clear::octets(stream);
    put_list(settings::settings_of(s), stream, events, text, work)
}

// Writes the strict form of the list that the event cells and the text store hold: the octets, and
// zeros behind them; after a refusal zeros alone. Work memory is left zero.
pub fn write(
    s: SettingNumbers,
    stream: &mut [u8],
    events: &[u32],
    text: &[u32],
    work: &mut [u32],
) -> WriteReply
    ensures { WritePost s events.now text.now
        (lent stream.old work.old)
        (lent stream.new work.new) result }
{
    let answer = attempt(s, stream, events, text, work);
    mem_clear::cells(work);
    if answer.number != 0 {
        mem_clear::octets(stream);
        return answer;
    }
    answer
}
