// The sizes, one constant each: crates/spec_exi/specs/Sizes.antt has them by the same names, and
// the contracts of the functions that use them hold each to its definition.
#![tactic(auto)]

// Octets of a stream.
pub const MAX_STREAM: usize = 16384;

pub const MAX_EVENTS: usize = 4096;
// Elements open at once.
pub const MAX_OPEN: usize = 100;

pub const MAX_URIS: usize = 16;
// Local names over all URIs.
pub const MAX_NAMES: usize = 128;
// Distinct non-empty values.
pub const MAX_VALUES: usize = 2048;
// Element grammars.
pub const MAX_GRAMMARS: usize = 64;
// Learned productions in all.
pub const MAX_LEARNED: usize = 512;
// Code points of one string.
pub const MAX_STRING: usize = 4096;
// Code points of the text store.
pub const MAX_STORE: usize = 16384;

// ---- what is lent, in cells of 32 bits (docs/MEMORY.md)

pub const CELLS_PER_EVENT: usize = 9;

pub const EVENT_CELLS: usize = CELLS_PER_EVENT * MAX_EVENTS;

// Of a list of readings: the events before its first child; a child, and in it the attribute with
// the movement and the end (the one with the stamp is the second event); the events after the last.
pub const OPENING_CELLS: usize = 2 * CELLS_PER_EVENT;

pub const READING_CELLS: usize = 4 * CELLS_PER_EVENT;

pub const MOVEMENT_EVENT: usize = 2 * CELLS_PER_EVENT;

pub const LAST_EVENT: usize = 3 * CELLS_PER_EVENT;

pub const ENDING_CELLS: usize = 2 * CELLS_PER_EVENT;

// Work memory of the reader, and of the writer.
pub const READER_WORK: usize = 18432;

pub const WRITER_WORK: usize = READER_WORK;
