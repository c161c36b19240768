// A piece of a stream, read after the octets so far (02, P8). What the functions ask and leave is
// in specs/Piece.antt.
#![tactic(auto)]

ghost use Rattle.std.specs.Prelude.{◌≡◌, take};
ghost use Rattle.settings.specs.Meant.{settings_meant, settings_from};
ghost use Rattle.receiver_phases.specs.receiver_record.Record.{lent, handed};
ghost use Rattle.receiver_wait.specs.receiver_read.On.{BeginPre, OnPost};
ghost use Rattle.receiver_wait.specs.Wait.{CutPre, CutPost};
ghost use Rattle.receiver_piece.specs.Piece.{went_on, concluded, ConcludePre, AdvancedPre};
ghost use Rattle.receiver_piece.specs.Piece.{stopped_as, stayed, awaited};
ghost use Rattle.receiver_piece.specs.Piece.{GoOnPre, GoOnPost, BegunPost};
ghost use Rattle.receiver_piece.specs.Piece.{PiecePre, PiecePost};

pub use receiver_phases as the_receiver_phases;
use receiver_phases::the_reader::ReadReply;
use receiver_phases::the_receiver_record::{GOING_ON, Handed, Memory, Receiver, STARTED, Wait};
pub use receiver_phases::{
    the_reader as the_reader, the_receiver_course as the_receiver_course,
    the_receiver_record as the_receiver_record,
};
use receiver_strings::Stopped;
use receiver_wait::the_read_run::Advanced;
use refusal::ENDED;

// ---- the answer

// Goes on: the reply counts the complete events and the code points that are shown.
fn went_on(r: Receiver, k: usize, a: Advanced, w: Wait) -> Handed
    requires { ConcludePre r k a }
    ensures { result ≡ went_on r k a w }
{
    let state = a.state;
    let reply = ReadReply {
        number: 0,
        index: 0,
        events: a.index as u32,
        code_points: state.core.stored as u32,
    };
    let mut receiver = r;
    receiver.phase = GOING_ON;
    receiver.octets = r.octets + k;
    receiver.reply = reply;
    receiver.state = state;
    receiver.wait = w;
    Handed { receiver, reply }
}

// Goes on where the octets ended or are whole; else refuses.
fn conclude(
    r: Receiver,
    k: usize,
    a: Advanced,
    w: Wait,
    held: &mut [u8],
    events: &mut [u32],
    text: &mut [u32],
    work: &mut [u32],
) -> Handed
    requires { ConcludePre r k a }
    ensures { handed result
        (lent held.new events.new text.new work.new)
        ≡ concluded r k a w (lent held.old events.old text.old
        work.old) }
{
    if (a.number == 0) | (a.number == ENDED) {
        return went_on(r, k, a, w);
    }
    let y = receiver_phases::the_receiver_course::refusal_at(a.number, a.index as u32);
    let mut m = Memory {
        held,
        events,
        text,
        work,
    };
    receiver_phases::refuse(r, y, k, &mut m)
}

// Answers where code points are awaited, and one is refused: ENDED is no refusal yet.
fn stay(
    r: Receiver,
    k: usize,
    s: Stopped,
    held: &mut [u8],
    events: &mut [u32],
    text: &mut [u32],
    work: &mut [u32],
) -> Handed
    requires { ConcludePre r k (stayed r (stopped_as s)) }
    ensures { handed result
        (lent held.new events.new text.new work.new)
        ≡ concluded r k (stayed r (stopped_as s)) (awaited (stopped_as s)) (lent held.old events.old
        text.old work.old) }
{
    let state = r.state;
    let index = r.reply.events as usize;
    let a = Advanced {
        number: s.refusal.number(),
        index,
        state,
    };
    let w = Wait {
        at: s.at,
        left: s.left,
    };
    conclude(r, k, a, w, held, events, text, work)
}

// ---- the octets

// Reads on over the first n octets that are held.
fn advanced(
    r: Receiver,
    held: &[u8],
    n: usize,
    events: &mut [u32],
    text: &mut [u32],
    work: &mut [u32],
) -> Advanced
    requires { AdvancedPre r held.now n events.old text.old work.old }
    ensures { OnPost (settings_from (settings_meant r.settings)) (take n held.now)
        events.old text.old work.old r.state
        r.reply.events events.new text.new work.new result }
{
    let st = r.state;
    let o = settings::settings_of(r.settings);
    let first = r.reply.events as usize;
    receiver_wait::the_receiver_read::read_held(o, held, n, st, first, events, text, work)
}

// Where a literal is cut, if the octets end in one.
fn cut(r: Receiver, a: Advanced, held: &[u8], n: usize, work: &[u32]) -> Wait
    requires { CutPre held.now n work.now a.state.core }
    ensures { CutPost (settings_from (settings_meant r.settings)) (take n held.now)
        work.now a.number a.state.core result }
{
    let o = settings::settings_of(r.settings);
    receiver_wait::cut_at(o, held, n, a.number, a.state.core, work)
}

// Keeps the piece, and reads on: code points that are awaited before anything else.
fn go_on(
    r: Receiver,
    piece: &[u8],
    held: &mut [u8],
    events: &mut [u32],
    text: &mut [u32],
    work: &mut [u32],
) -> Handed
    requires { GoOnPre r piece.now
        (lent held.old events.old text.old work.old) }
    ensures { GoOnPost r piece.now
        (lent held.old events.old text.old work.old)
        (lent held.new events.new text.new work.new) result }
{
    let n = r.octets;
    let k = piece.len();
    receiver_phases::keep(held, n, piece);
    let row = receiver_wait::the_receiver_read::outermost(r.state);
    if let Err(s) = receiver_wait::still(held, n + k, r.wait.at, r.wait.left) {
        return stay(r, k, s, held, events, text, work);
    }
    let a = advanced(r, held, n + k, events, text, work);
    let w = cut(r, a, held, n + k, work);
    conclude(r, k, a, w, held, events, text, work)
}

// ---- the first piece

// Lays what memory holds before the first event, at the start.
fn begun(r: Receiver, events: &mut [u32], text: &mut [u32], work: &mut [u32]) -> Receiver
    requires { BeginPre events.old text.old work.old }
    ensures { BegunPost r events.old text.old work.old
        events.new text.new work.new result }
{
    if r.phase != STARTED {
        return r;
    }
    receiver_wait::the_receiver_read::begin(events, text, work);
    let mut b = receiver_phases::the_receiver_record::started(r.settings);
    b.phase = GOING_ON;
    b
}

// Reads a piece after the octets so far.
pub fn read_piece(
    r: Receiver,
    piece: &[u8],
    held: &mut [u8],
    events: &mut [u32],
    text: &mut [u32],
    work: &mut [u32],
) -> Handed
    requires { PiecePre r piece.now
        (lent held.old events.old text.old work.old) }
    ensures { PiecePost r piece.now
        (lent held.old events.old text.old work.old)
        (lent held.new events.new text.new work.new) result }
{
    let b = begun(r, events, text, work);
    go_on(b, piece, held, events, text, work)
}
