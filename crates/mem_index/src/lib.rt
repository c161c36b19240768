// Rows of work memory by a code, and by a key and a number: row i has the code key * 16384 and its
// number, which is how many rows of the key are before it, and the key's count stands beside. A row
// that a function answers is its insertion number. Every function is safe and ends on any memory.
// What the contracts cite is in specs/Index.antt.
#![tactic(auto)]

ghost use Rattle.std.specs.Prelude.{◌≡◌, ◌<◌};
ghost use Rattle.mem_chain.specs.Chain.{link_of};
ghost use Rattle.mem_index.specs.Index.{spot_of, entered, joined};
ghost use Rattle.mem_index.specs.Index.{SpotRowPre, Spot, SeekPre, Found, EnterRowPre};
ghost use Rattle.mem_index.specs.Index.{CountAtPre, Counted, NthPre, NthFound, Joining};

// One more than the greatest number.
pub const NUMBERS: u32 = 16384;

// So many buckets from the first row of a key to that of the next: an odd number, so that keys
// share as few as can be.
pub const STRIDE: u32 = 37;

// Where an index lies: heads, a cell for each of so many buckets; codes and links, a cell for each
// row of the ring.
#[derive(Clone, Copy)]
pub struct Index {
    pub heads: usize,
    pub size: u32,
    pub codes: usize,
    pub nexts: usize,
    pub ring: u32,
}

// The bucket of a code.
fn spot(code: u32, size: u32) -> u32
    requires { SpotRowPre code size }
    ensures { Spot code size result }
{
    (code + code / NUMBERS * STRIDE) % size
}

// The newest row with this code among those from low on.
pub fn find(work: &[u32], x: Index, n: u32, low: u32, code: u32) -> Option<u32>
    requires { SeekPre work.now x n code }
    ensures { Found work.now x n low code (link_of result) }
{
    let head = x.heads + spot(code, x.size) as usize;
    mem_chain::newest(work, head, x.codes, x.nexts, x.ring, n, low, code)
}

// Row n gets this code.
pub fn enter(work: &mut [u32], x: Index, n: u32, code: u32)
    requires { EnterRowPre work.old x n code }
    ensures { work.new ≡ entered work.old x n code }
{
    let head = x.heads + spot(code, x.size) as usize;
    let row = (n % x.ring) as usize;
    work[x.codes + row] = code;
    mem_chain::link(work, head, x.nexts, x.ring, n);
}

// How many rows of a key there are.
pub fn count(work: &[u32], counts: usize, key: u32) -> u32
    requires { CountAtPre work.now counts key }
    ensures { Counted work.now counts key result }
{
    mem_chain::falling(work, counts + key as usize, NUMBERS + 1)
}

// The row of a key with this number, if it is one of those from low on.
pub fn nth(work: &[u32], x: Index, key: u32, number: u32, n: u32, low: u32) -> Option<u32>
    requires { NthPre work.now x key n }
    ensures { NthFound work.now x key number n low (link_of result) }
{
    if number >= NUMBERS {
        return None;
    }
    find(work, x, n, low, key * NUMBERS + number)
}

// Row n joins as the newest of its key.
pub fn join(work: &mut [u32], x: Index, counts: usize, n: u32, key: u32)
    requires { Joining work.old x counts n key }
    ensures { work.new ≡ joined work.old x counts n key }
{
    let number = count(work, counts, key);
    enter(work, x, n, key * NUMBERS + number);
    work[counts + key as usize] = number + 1;
}
