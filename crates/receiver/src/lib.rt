// A stream that comes in pieces (02, P8), by value: the record goes in and comes back beside the
// reply. Any record and any memory are safe. The definitions that the contracts cite are in
// specs/Calls.antt and, for the answer, in crates/spec_exi/specs/Packets.antt.
#![tactic(auto)]

ghost use Rattle.std.specs.Prelude.{◌≡◌};
ghost use Rattle.receiver_piece.specs.receiver_record.Record.{lent, lent_in, SameParts, handed};
ghost use Rattle.receiver.specs.Calls.{closed_now, Fed, Closed};

use event_code::IS_OVER;
use receiver_piece::the_receiver_course::{Course, course_of, has_room, refusal_at};
use receiver_piece::the_receiver_phases::{close_refused, close_whole, refuse, repeat};
use receiver_piece::the_receiver_record::{Handed, Memory, Receiver, STARTED};
pub use receiver_piece::{the_reader as the_reader, the_receiver_record as the_receiver_record};
use refusal::ENDED;

// Takes a piece: reply and memory are those of the octets so far, read whole, but ENDED is no
// refusal yet. From a refusal on all that is lent is cleared.
pub fn fed(
    before: Receiver,
    piece: &[u8],
    held: &mut [u8],
    events: &mut [u32],
    text: &mut [u32],
    work: &mut [u32],
) -> Handed
    ensures { Fed before piece.now
        (lent held.old events.old text.old work.old)
        result.receiver
        (lent held.new events.new text.new work.new)
        result.reply }
{
    let k = piece.len();
    let roomy = has_room(held.len(), events.len(), text.len(), work.len());
    let way = course_of(before, k, roomy);
    match way {
        Course::Reads => receiver_piece::read_piece(before, piece, held, events, text, work),
        Course::Repeats => repeat(
            before,
            &mut Memory {
                held,
                events,
                text,
                work,
            },
        ),
        Course::Refused(y) => refuse(
            before,
            y,
            k,
            &mut Memory {
                held,
                events,
                text,
                work,
            },
        ),
    }
}

// Closes a receiver that could read on: the octets are whole, or ENDED.
fn close_now(r: Receiver, m: &mut Memory<'_>) -> Handed
    ensures same { SameParts m.old m.new }
    ensures value { handed result (lent_in m.new) ≡ closed_now r (lent_in m.old) }
{
    if r.phase == STARTED {
        close_refused(r, refusal_at(ENDED, 0), m)
    } else if r.state.core.mode == IS_OVER {
        close_whole(r, m)
    } else {
        let y = refusal_at(ENDED, r.reply.events);
        close_refused(r, y, m)
    }
}

// Closes: reply and memory are the whole reader's. The octets that were held and work memory are
// left zero. A close after that repeats it.
pub fn closed(
    before: Receiver,
    held: &mut [u8],
    events: &mut [u32],
    text: &mut [u32],
    work: &mut [u32],
) -> Handed
    ensures { Closed before
        (lent held.old events.old text.old work.old)
        result.receiver
        (lent held.new events.new text.new work.new)
        result.reply }
{
    let roomy = has_room(held.len(), events.len(), text.len(), work.len());
    let way = course_of(before, 0, roomy);
    let mut m = Memory {
        held,
        events,
        text,
        work,
    };
    match way {
        Course::Repeats => repeat(before, &mut m),
        Course::Refused(y) => close_refused(before, y, &mut m),
        Course::Reads => close_now(before, &mut m),
    }
}
