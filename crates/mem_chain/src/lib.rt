// Chains in work memory: rows in order of insertion, those of one bucket linked from the newest
// down. A link is an insertion number and 1, or 0: memory is lent, so any number may stand in its
// cell. Row i lies at i modulo the ring, so a link may lead to a row that was written over: a walk
// ends before it, at the lowest row that still counts.
// What the contracts cite is in
// specs/Chain.antt.
#![tactic(auto)]

ghost use Rattle.std.specs.Prelude.{◌≡◌, ◌<◌, ℕ, Bool, length, get_or};
ghost use Rattle.mem_chain.specs.Chain.{below, walked_from, NewestPre, Newest, link_of};
ghost use Rattle.mem_chain.specs.Chain.{LinkPre, linked};

// A number below the top, or 0.
pub fn less(c: u32, top: u32) -> u32
    ensures { result ≡ below top c }
{
    if c < top {
        return c;
    }
    0
}

// The link in a cell, or none where it does not fall: so a walk ends on any memory.
pub fn falling(work: &[u32], cell: usize, top: u32) -> u32
    requires { cell < length work.now }
    ensures { result ≡ below top (get_or work.now cell 0) }
{
    less(work[cell], top)
}

// The first row of a chain of n rows, from its head down, whose place in the ring passes the test,
// if one of those from low on does.
pub fn seek<F: Fn(usize) -> bool>(
    work: &[u32],
    head: usize,
    nexts: usize,
    ring: u32,
    n: u32,
    low: u32,
    has: F,
) -> Option<u32>
    requires cells { LinkPre work.now head nexts ring n }
    requires calls { (row : ℕ) → row < ring → F.pre has row }
    ensures { (test : ℕ → Bool)
        → ((row : ℕ) (b : Bool) → row < ring → F.post has row b → b ≡ test row)
        → link_of result ≡ walked_from work.now head nexts ring n low test }
{
    let mut c = falling(work, head, n + 1);
    while low < c {
        let row = ((c - 1) % ring) as usize;
        if has(row) {
            return Some(c - 1);
        }
        c = falling(work, nexts + row, c);
    }
    None
}

// The newest row of a bucket that has the code, by its insertion number, if one of those from low
// on has it.
pub fn newest(
    work: &[u32],
    head: usize,
    codes: usize,
    nexts: usize,
    ring: u32,
    n: u32,
    low: u32,
    code: u32,
) -> Option<u32>
    requires { NewestPre work.now head codes nexts ring n }
    ensures { Newest work.now head codes nexts ring n low code (link_of result) }
{
    seek(
        work,
        head,
        nexts,
        ring,
        n,
        low,
        |row| work[codes + row] == code,
    )
}

// Row n joins the chain that begins at the head.
pub fn link(work: &mut [u32], head: usize, nexts: usize, ring: u32, n: u32)
    requires { LinkPre work.old head nexts ring n }
    ensures { work.new ≡ linked work.old head nexts ring n }
{
    let row = (n % ring) as usize;
    let older = work[head];
    work[nexts + row] = older;
    work[head] = n + 1;
}
