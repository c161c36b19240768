// A receiver's record (02, P8): what goes from one piece of a stream to the next beside lent
// memory. What a call finds and leaves is in specs/Record.antt.
#![tactic(auto)]

ghost use Rattle.std.specs.Prelude.{◌≡◌};
ghost use Rattle.receiver_record.specs.Record.{started_with};

use grammar_open::State;
pub use reader as the_reader;
use reader::ReadReply;
use settings::SettingNumbers;

// The phases by their numbers: C lends the record, which may hold any.
pub const STARTED: u32 = 0;

pub const GOING_ON: u32 = 1;

pub const REFUSED: u32 = 2;

pub const CLOSED: u32 = 3;

// A literal that is cut: the position of its next code point, and how many are to come; none where
// no literal is.
#[repr(C)]
#[derive(Clone, Copy)]
pub struct Wait {
    pub at: usize,
    pub left: usize,
}

// The settings; the phase; how many octets were handed over, or one more than a stream may have;
// the newest reply; the state after the complete events, at position 0 before the header is read.
#[repr(C)]
#[derive(Clone, Copy)]
pub struct Receiver {
    pub settings: SettingNumbers,
    pub phase: u32,
    pub octets: usize,
    pub reply: ReadReply,
    pub state: State,
    pub wait: Wait,
}

// What is lent beside a record: the octets that are held, event cells, text store, work memory.
#[derive(Drop)]
pub struct Memory<'a> {
    pub held: &'a mut [u8],
    pub events: &'a mut [u32],
    pub text: &'a mut [u32],
    pub work: &'a mut [u32],
}

// What a call answers: the record for the next one, and the reply.
#[repr(C)]
#[derive(Clone, Copy)]
pub struct Handed {
    pub receiver: Receiver,
    pub reply: ReadReply,
}

// Nothing is handed over yet.
pub fn started(s: SettingNumbers) -> Receiver
    ensures { result ≡ started_with s }
{
    let core = mem_initial::start(0, s.value_length, s.value_capacity);
    Receiver {
        settings: s,
        phase: STARTED,
        octets: 0,
        reply: ReadReply {
            number: 0,
            index: 0,
            events: 0,
            code_points: 0,
        },
        state: grammar_open::none_open(core),
        wait: Wait { at: 0, left: 0 },
    }
}
