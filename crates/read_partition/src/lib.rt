// What a function that reads a string answers: what it read, and what is to join its table once the
// whole event is accepted. The records that its contract is made of are in specs/Strings.antt.
#![tactic(auto)]

ghost use Rattle.std.specs.Prelude.{◌≡◌, ◌+◌, ◌≤◌, length, Err};
ghost use Rattle.refusal.specs.Numbers.{number_in};
ghost use Rattle.spec_exi.specs.Sizes.{max_store};
ghost use Rattle.read_partition.specs.View.{string_in, stopped_at, found_at, laid_after};
ghost use Rattle.read_partition.specs.Strings.{Dropped};

use read_literal::Stopped;
use refusal::Refusal;

// The position after the string; where it lies; its row in its table, or the row that it is to
// have; the code points in the store; and the hash of its text, where it is to join.
#[derive(Clone, Copy)]
pub struct StringRead {
    pub next: usize,
    pub place: u32,
    pub size: u32,
    pub row: u32,
    pub stored: usize,
    pub joins: Option<u32>,
}

// A refusal that waits for no code points.
pub fn refused(refusal: Refusal, next: usize, stored: usize) -> Stopped
    ensures { result ≡ stopped_at refusal next stored }
{
    Stopped {
        refusal,
        next,
        left: 0,
        stored,
    }
}

// A string that joins no table.
pub fn found(next: usize, place: u32, size: u32, row: u32, stored: usize) -> StringRead
    ensures { result ≡ found_at next place size row stored }
{
    StringRead {
        next,
        place,
        size,
        row,
        stored,
        joins: None,
    }
}

// A literal of n code points after the store, and the hash of its text, where it is to join.
pub fn laid(next: usize, stored: usize, n: u32, row: u32, joins: Option<u32>) -> StringRead
    requires { stored + n ≤ max_store }
    ensures { result ≡ laid_after next stored n row joins }
{
    StringRead {
        next,
        place: stored as u32,
        size: n,
        row,
        stored: stored + n as usize,
        joins,
    }
}

// A refusal of the n code points after the store: they are cleared.
pub fn dropped(refusal: Refusal, next: usize, n: u32, stored: usize, text: &mut [u32]) -> Stopped
    requires { stored + n ≤ length text.old }
    ensures stopped { result ≡ stopped_at refusal next stored }
    ensures cleared { Dropped (number_in refusal) next n stored text.old text.new
        (string_in (Err result)) }
{
    read_literal::clear_cells(text, stored, n as usize);
    refused(refusal, next, stored)
}
