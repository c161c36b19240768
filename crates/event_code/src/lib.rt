// The kinds of event and the grammar's states as numbers, and which event teaches a production
// (EXI 8.4.2, 8.4.3). What the contract cites is in specs/Numbers.antt.
#![tactic(auto)]

ghost use Rattle.std.specs.Prelude.{◌≡◌};
ghost use Rattle.event_code.specs.Numbers.{teaches_in};

// Kinds and states are numbers, since they lie in lent memory: a kind in the key of a learned
// production, the state in a receiver's record (docs/MEMORY.md).

// The kinds of event.
pub const SD: u32 = 0;

pub const ED: u32 = 1;

pub const SE: u32 = 2;

pub const AT: u32 = 3;

pub const EE: u32 = 4;

pub const CH: u32 = 5;

pub const CM: u32 = 6;

pub const PI: u32 = 7;

// The grammar's states: from a fragment's content on something is learned, from a start tag on an
// element is open.
pub const IN_DOCUMENT: u32 = 0;

pub const IN_DOC_CONTENT: u32 = 1;

pub const IN_DOC_END: u32 = 2;

pub const IS_OVER: u32 = 3;

pub const IN_FRAGMENT: u32 = 4;

pub const IN_TAG: u32 = 5;

pub const IN_ELEMENT: u32 = 6;

// Whether an event of this kind, with a code that is not learned, teaches a production.
#[tactic(auto, unfolding(crate::specs::Numbers::teaches_in))]
pub fn teaches(mode: u32, kind: u32) -> bool
    ensures { result ≡ teaches_in mode kind }
{
    match mode {
        IN_TAG => (SE <= kind) & (kind <= CH),
        IN_ELEMENT => (kind == SE) | (kind == CH),
        IN_FRAGMENT => kind == SE,
        _ => false,
    }
}
