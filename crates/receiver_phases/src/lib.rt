// What a receiver's call leaves where it reads no octets: closed, refused, or closing (02, P8). The
// contracts are equations for every record and all memory; specs/Phases.antt has them.
#![tactic(auto)]

ghost use Rattle.std.specs.Prelude.{◌≡◌, ◌+◌, ◌≤◌, length};
ghost use Rattle.receiver_course.specs.receiver_record.Record.{lent_in, SameParts, cleared, handed};
ghost use Rattle.receiver_phases.specs.Phases.{kept, repeated, refused, closed_by};
ghost use Rattle.receiver_phases.specs.Phases.{closed_whole};

pub use receiver_course as the_receiver_course;
use receiver_course::the_reader::ReadReply;
use receiver_course::the_receiver_record::{CLOSED, Handed, Memory, REFUSED, Receiver};
pub use receiver_course::{the_reader as the_reader, the_receiver_record as the_receiver_record};

// Clears all that is lent.
fn clear_all(m: &mut Memory<'_>)
    ensures same { SameParts m.old m.new }
    ensures value { lent_in m.new ≡ cleared (lent_in m.old) }
{
    mem_clear::octets(m.held);
    mem_clear::cells(m.events);
    mem_clear::cells(m.text);
    mem_clear::cells(m.work);
}

// Repeats the answer of a receiver that is closed: memory stays as it is, or after a refusal is
// cleared.
pub fn repeat(r: Receiver, m: &mut Memory<'_>) -> Handed
    ensures same { SameParts m.old m.new }
    ensures value { handed result (lent_in m.new) ≡ repeated r (lent_in m.old) }
{
    let reply = r.reply;
    if reply.number != 0 {
        clear_all(m);
    }
    Handed { receiver: r, reply }
}

// Refuses, or stays refused: the piece is counted, and all that is lent is cleared.
pub fn refuse(r: Receiver, y: ReadReply, k: usize, m: &mut Memory<'_>) -> Handed
    ensures same { SameParts m.old m.new }
    ensures value { handed result (lent_in m.new) ≡ refused r y k (lent_in m.old) }
{
    clear_all(m);
    let n = receiver_course::count(r.octets, k);
    let reply = receiver_course::refused_after(n, y);
    let mut receiver = r;
    receiver.phase = REFUSED;
    receiver.octets = n;
    receiver.reply = reply;
    Handed { receiver, reply }
}

// Closes with a refusal: all that is lent is cleared.
pub fn close_refused(r: Receiver, y: ReadReply, m: &mut Memory<'_>) -> Handed
    ensures same { SameParts m.old m.new }
    ensures value { handed result (lent_in m.new) ≡ closed_by r y (lent_in m.old) }
{
    clear_all(m);
    let mut receiver = r;
    receiver.phase = CLOSED;
    receiver.reply = y;
    Handed { receiver, reply: y }
}

// Closes a stream that is whole: the octets that were held and work memory are cleared.
pub fn close_whole(r: Receiver, m: &mut Memory<'_>) -> Handed
    ensures same { SameParts m.old m.new }
    ensures value { handed result (lent_in m.new) ≡ closed_whole r (lent_in m.old) }
{
    mem_clear::octets(m.held);
    mem_clear::cells(m.work);
    let reply = r.reply;
    let mut receiver = r;
    receiver.phase = CLOSED;
    Handed { receiver, reply }
}

// Keeps a piece after the first n octets. (A loop, since `copy_from_slice` moves, and the archive
// asks for `memcpy` and `memset` alone.)
pub fn keep(held: &mut [u8], n: usize, piece: &[u8])
    requires { n + length piece.now ≤ length held.old }
    ensures { held.new ≡ kept held.old n piece.now }
{
    for i in 0..piece.len() {
        held[n + i] = piece[i];
    }
}
