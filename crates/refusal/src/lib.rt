// The refusals, their numbers and names. What the contracts cite is in specs/.
#![tactic(auto)]

ghost use Rattle.std.specs.Prelude.{◌≡◌};
ghost use Rattle.refusal.specs.Names.{name_at};
ghost use Rattle.refusal.specs.Numbers.{number_in};

// Why a stream, a list or readings are refused, in the order of the numbers.
#[derive(Clone, Copy, PartialEq, Eq)]
pub enum Refusal {
    Room,
    Settings,
    Long,
    Header,
    Ended,
    Code,
    Number,
    Character,
    Reference,
    Loose,
    Name,
    Limit,
    Tail,
    Shape,
    Place,
    // those of readings
    Structure,
    BadStamp,
    BadMovement,
    NotLater,
}

impl Refusal {
    // The number by which a reply tells it (crates/spec_fields/specs/Refusal.antt).
    pub fn number(self) -> u32
        ensures { result ≡ number_in self }
    {
        match self {
            Refusal::Room => ROOM,
            Refusal::Settings => SETTINGS,
            Refusal::Long => LONG,
            Refusal::Header => HEADER,
            Refusal::Ended => ENDED,
            Refusal::Code => CODE,
            Refusal::Number => NUMBER,
            Refusal::Character => CHARACTER,
            Refusal::Reference => REFERENCE,
            Refusal::Loose => LOOSE,
            Refusal::Name => NAME,
            Refusal::Limit => LIMIT,
            Refusal::Tail => TAIL,
            Refusal::Shape => SHAPE,
            Refusal::Place => PLACE,
            Refusal::Structure => STRUCTURE,
            Refusal::BadStamp => BAD_STAMP,
            Refusal::BadMovement => BAD_MOVEMENT,
            Refusal::NotLater => NOT_LATER,
        }
    }
}

// The numbers.
pub const ROOM: u32 = 1;

pub const SETTINGS: u32 = 2;

pub const LONG: u32 = 3;

pub const HEADER: u32 = 4;

pub const ENDED: u32 = 5;

pub const CODE: u32 = 6;

pub const NUMBER: u32 = 7;

pub const CHARACTER: u32 = 8;

pub const REFERENCE: u32 = 9;

pub const LOOSE: u32 = 10;

pub const NAME: u32 = 11;

pub const LIMIT: u32 = 12;

pub const TAIL: u32 = 13;

pub const SHAPE: u32 = 14;

pub const PLACE: u32 = 15;

// Those of readings (crates/spec_readings/specs/Readings.antt).
pub const STRUCTURE: u32 = 16;

pub const BAD_STAMP: u32 = 17;

pub const BAD_MOVEMENT: u32 = 18;

pub const NOT_LATER: u32 = 19;

// A name in ASCII, and zeros after it.
#[repr(C)]
#[derive(Drop)]
pub struct Name {
    pub text: [u8; 16],
}

// The names in the order of their numbers, from 0 on.
const NAMES: [[u8; 16]; 20] = [
    *b"\0\0\0\0\0\0\0\0\0\0\0\0\0\0\0\0",
    *b"ROOM\0\0\0\0\0\0\0\0\0\0\0\0",
    *b"SETTINGS\0\0\0\0\0\0\0\0",
    *b"LONG\0\0\0\0\0\0\0\0\0\0\0\0",
    *b"HEADER\0\0\0\0\0\0\0\0\0\0",
    *b"ENDED\0\0\0\0\0\0\0\0\0\0\0",
    *b"CODE\0\0\0\0\0\0\0\0\0\0\0\0",
    *b"NUMBER\0\0\0\0\0\0\0\0\0\0",
    *b"CHARACTER\0\0\0\0\0\0\0",
    *b"REFERENCE\0\0\0\0\0\0\0",
    *b"LOOSE\0\0\0\0\0\0\0\0\0\0\0",
    *b"NAME\0\0\0\0\0\0\0\0\0\0\0\0",
    *b"LIMIT\0\0\0\0\0\0\0\0\0\0\0",
    *b"TAIL\0\0\0\0\0\0\0\0\0\0\0\0",
    *b"SHAPE\0\0\0\0\0\0\0\0\0\0\0",
    *b"PLACE\0\0\0\0\0\0\0\0\0\0\0",
    *b"STRUCTURE\0\0\0\0\0\0\0",
    *b"BAD_STAMP\0\0\0\0\0\0\0",
    *b"BAD_MOVEMENT\0\0\0\0",
    *b"NOT_LATER\0\0\0\0\0\0\0",
];

// The name of the refusal with this number; zeros where there is none.
pub fn name_of(number: u32) -> Name
    ensures { result.text ≡ name_at number }
{
    if number < 20 {
        let i = number as usize;
        let text = NAMES[i];
        return Name { text };
    }
    Name { text: [0; 16] }
}
