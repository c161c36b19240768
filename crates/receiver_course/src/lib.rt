// Which way a call of a receiver goes (02, P8), judged by numbers alone: the record, the piece's
// length, and the lengths of what is lent. What the contracts cite is in specs/Course.antt.
#![tactic(auto)]

ghost use Rattle.std.specs.Prelude.{◌≡◌, ◌≢◌, ◌≤◌};
ghost use Rattle.spec_exi.specs.Sizes.{max_stream};
ghost use Rattle.receiver_record.specs.Record.{is_closed, is_refused, refusal_at};
ghost use Rattle.receiver_course.specs.Course.{has_room, values_in, tables_in, elements_in};
ghost use Rattle.receiver_course.specs.Course.{numbers_in, is_sound};
ghost use Rattle.receiver_course.specs.Course.{course_by, course_of, counted, refused_after};

use event_code::{IN_ELEMENT, IN_TAG};
use mem_layout::NAME_ROWS;
use mem_state::Core;
pub use receiver_record as the_receiver_record;
pub use receiver_record::the_reader as the_reader;
use receiver_record::the_reader::ReadReply;
use receiver_record::{CLOSED, GOING_ON, REFUSED, Receiver, STARTED};
use refusal::{LONG, ROOM, Refusal, SETTINGS};
use sizes::{
    EVENT_CELLS, MAX_EVENTS, MAX_GRAMMARS, MAX_LEARNED, MAX_NAMES, MAX_OPEN, MAX_STORE, MAX_STREAM,
    MAX_STRING, MAX_URIS, MAX_VALUES, READER_WORK,
};

// A closed receiver repeats its answer; a refused one keeps its reply, as does one that is refused
// now; the octets of any other are read.
#[derive(Clone, Copy)]
pub enum Course {
    Repeats,
    Refused(ReadReply),
    Reads,
}

// A refusal's reply.
pub fn refusal_at(number: u32, index: u32) -> ReadReply
    ensures { result ≡ refusal_at number index }
{
    ReadReply {
        number,
        index,
        events: 0,
        code_points: 0,
    }
}

// ---- the tests

// Whether no lent part is too short.
pub fn has_room(held: usize, events: usize, text: usize, work: usize) -> bool
    ensures { result ≡ has_room held events text work }
{
    (MAX_STREAM <= held) & (EVENT_CELLS <= events) & (MAX_STORE <= text) & (READER_WORK <= work)
}

// Whether each value that joined has a code point in the store, and the capacity is within its
// size.
fn values_in(c: Core) -> bool
    ensures { result ≡ values_in c }
{
    (c.values as usize <= c.stored) & (c.capacity as usize <= MAX_VALUES + 1)
}

// Whether the counts are within their sizes.
fn tables_in(c: Core) -> bool
    ensures { result ≡ tables_in c }
{
    let values = values_in(c);
    values
        & (c.stored <= MAX_STORE)
        & (c.uris as usize <= MAX_URIS)
        & (c.names as usize <= MAX_NAMES)
        & (c.learned as usize <= MAX_LEARNED)
        & (c.grammars as usize <= MAX_GRAMMARS)
}

// Whether the mark is one that an event can have left, not too many elements are open, and one is
// just in the states of its grammar.
fn elements_in(c: Core) -> bool
    ensures { result ≡ elements_in c }
{
    (c.tag as usize <= MAX_EVENTS + 1)
        & (c.depth <= MAX_OPEN)
        & (c.top < NAME_ROWS)
        & (c.mode <= IN_ELEMENT)
        & ((IN_TAG <= c.mode) | (c.depth == 0))
        & ((c.mode < IN_TAG) | (0 < c.depth))
}

// Whether the numbers of a record that goes on are within their bounds, positions within the octets.
fn numbers_in(r: Receiver) -> bool
    requires { r.octets ≤ max_stream }
    ensures { result ≡ numbers_in r }
{
    let end = 8 * r.octets;
    let core = r.state.core;
    let tables = tables_in(core);
    let elements = elements_in(core);
    tables
        & elements
        & (core.at <= end)
        & (r.reply.events as usize <= MAX_EVENTS)
        & (r.wait.at <= end)
        & (r.wait.left <= MAX_STRING)
}

// Whether a call can go on from the record: it is started, or its numbers are within their bounds.
pub fn is_sound(r: Receiver) -> bool
    ensures { result ≡ is_sound r }
{
    match r.phase {
        STARTED => r.octets == 0,
        GOING_ON => r.octets <= MAX_STREAM && numbers_in(r),
        _ => false,
    }
}

// In order: ROOM; SETTINGS, of the record's own numbers too; LONG.
fn admit(r: Receiver, k: usize, roomy: bool) -> Result<(), Refusal>
    ensures { r.phase ≢ is_closed → r.phase ≢ is_refused
        → course_by result ≡ course_of r k roomy }
{
    if !roomy {
        return Err(Refusal::Room);
    }
    let meant = settings::are_meaningful(r.settings);
    if !meant {
        return Err(Refusal::Settings);
    }
    let sound = is_sound(r);
    if !sound {
        return Err(Refusal::Settings);
    }
    if MAX_STREAM - r.octets < k {
        return Err(Refusal::Long);
    }
    Ok(())
}

// A closed receiver repeats its answer, and a refused one stays so, before anything is judged.
pub fn course_of(r: Receiver, k: usize, roomy: bool) -> Course
    ensures { result ≡ course_of r k roomy }
{
    match r.phase {
        CLOSED => Course::Repeats,
        REFUSED => Course::Refused(r.reply),
        _ => match admit(r, k, roomy) {
            Ok(()) => Course::Reads,
            Err(e) => Course::Refused(refusal_at(e.number(), 0)),
        },
    }
}

// ---- octets are counted after a refusal, too

// The octets so far, or one more than a stream may have.
pub fn count(n: usize, k: usize) -> usize
    ensures { result ≡ counted n k }
{
    n.saturating_add(k).min(MAX_STREAM + 1)
}

// The refusal after n octets: past the longest stream it is LONG, if not ROOM or SETTINGS.
pub fn refused_after(n: usize, y: ReadReply) -> ReadReply
    ensures { result ≡ refused_after n y }
{
    if n <= MAX_STREAM {
        return y;
    }
    if (y.number == ROOM) | (y.number == SETTINGS) {
        return y;
    }
    refusal_at(LONG, 0)
}
