// Learned productions in work memory, in the order in which they were learned, on chains by site
// and number and by site, kind and name; and which names have an element grammar. A site is 2 * the
// element's name + 1 in its start tag, 2 * the name in its content; names are first rows. Every
// function is safe and ends on any memory. What the contracts cite is in specs/Learned.antt.
#![tactic(auto)]

ghost use Rattle.std.specs.Prelude.{◌≡◌};
ghost use Rattle.mem_chain.specs.Chain.{link_of};
ghost use Rattle.mem_learned.specs.Learned.{SitedPre, CountedAt};
ghost use Rattle.mem_learned.specs.Learned.{NthLearned};
ghost use Rattle.mem_learned.specs.Learned.{FindRowPre, FoundLearned};
ghost use Rattle.mem_learned.specs.Learned.{LearnedRowPre, ProductionAt};
ghost use Rattle.mem_learned.specs.Learned.{part_in, with_rows, AddRowPre, with_learned};
ghost use Rattle.mem_learned.specs.Grammars.{AddGrammarPre, flag_in, with_grammar_of};

use mem_index::{Index, NUMBERS};
use mem_layout::{
    GRAMMAR_FLAGS, LEARNED_BUCKETS, LEARNED_CODE_HEADS, LEARNED_CODE_NEXTS, LEARNED_CODES,
    LEARNED_COUNTS, LEARNED_NAME_CODES, LEARNED_NAME_HEADS, LEARNED_NAME_NEXTS, LEARNED_NAME_ROWS,
    LEARNED_ROWS, LEARNED_URI_ROWS, NAME_ROWS, URI_ROWS,
};

// The number of a kind; the name and its number among its site's; the rows that named it.
#[derive(Clone, Copy)]
pub struct Production {
    pub kind: u32,
    pub name: u32,
    pub number: u32,
    pub uri: u32,
    pub local: u32,
}

// By site and number.
const BY_SITE: Index = Index {
    heads: LEARNED_CODE_HEADS,
    size: LEARNED_BUCKETS,
    codes: LEARNED_CODES,
    nexts: LEARNED_CODE_NEXTS,
    ring: LEARNED_ROWS,
};

// By site, kind and name.
const BY_NAME: Index = Index {
    heads: LEARNED_NAME_HEADS,
    size: LEARNED_BUCKETS,
    codes: LEARNED_NAME_CODES,
    nexts: LEARNED_NAME_NEXTS,
    ring: LEARNED_ROWS,
};

// How many productions a site has.
pub fn count_at(work: &[u32], site: u32) -> u32
    requires { SitedPre work.now site 0 }
    ensures { CountedAt work.now site result }
{
    mem_index::count(work, LEARNED_COUNTS, site)
}

// The production of a site that has v newer ones, of count in all.
pub fn nth_newest(work: &[u32], site: u32, count: u32, v: u32, n: u32) -> Option<u32>
    requires { SitedPre work.now site n }
    ensures { NthLearned work.now site count v n (link_of result) }
{
    if v >= count {
        return None;
    }
    mem_index::nth(work, BY_SITE, site, count - 1 - v, n, 0)
}

// The newest production of a site with this kind and name.
pub fn find(work: &[u32], site: u32, kind: u32, name: u32, n: u32) -> Option<u32>
    requires { FindRowPre work.now site kind name n }
    ensures { FoundLearned work.now site kind name n (link_of result) }
{
    mem_index::find(
        work,
        BY_NAME,
        n,
        0,
        site * NUMBERS + kind * NAME_ROWS + name,
    )
}

// The production in a row.
pub fn production_at(work: &[u32], row: u32) -> Production
    requires { LearnedRowPre work.now row }
    ensures { ProductionAt work.now row result }
{
    let i = row as usize;
    let code = work[LEARNED_NAME_CODES + i];
    Production {
        kind: code % NUMBERS / NAME_ROWS,
        name: code % NAME_ROWS,
        number: work[LEARNED_CODES + i] % NUMBERS,
        uri: mem_chain::falling(work, LEARNED_URI_ROWS + i, URI_ROWS),
        local: mem_chain::falling(work, LEARNED_NAME_ROWS + i, NAME_ROWS),
    }
}

// How many productions of its site, count in all, are newer than the one with this number.
pub fn part_of(count: u32, number: u32) -> u32
    ensures { result ≡ part_in count number }
{
    if number < count {
        return count - 1 - number;
    }
    0
}

fn put_rows(work: &mut [u32], n: u32, uri: u32, local: u32)
    requires { LearnedRowPre work.old n }
    ensures { work.new ≡ with_rows work.old n uri local }
{
    let row = n as usize;
    work[LEARNED_URI_ROWS + row] = uri;
    work[LEARNED_NAME_ROWS + row] = local;
}

// Production n is learned at a site.
pub fn add(work: &mut [u32], n: u32, site: u32, kind: u32, name: u32, uri: u32, local: u32)
    requires { AddRowPre work.old n site kind name }
    ensures { work.new ≡ with_learned work.old n site kind name uri local }
{
    put_rows(work, n, uri, local);
    mem_index::enter(work, BY_NAME, n, site * NUMBERS + kind * NAME_ROWS + name);
    mem_index::join(work, BY_SITE, LEARNED_COUNTS, n, site);
}

// ---- element grammars

// Whether a name has an element grammar.
pub fn has_grammar(work: &[u32], name: u32) -> bool
    requires { AddGrammarPre work.now name }
    ensures { result ≡ flag_in work.now name }
{
    work[GRAMMAR_FLAGS + name as usize] == 1
}

pub fn add_grammar(work: &mut [u32], name: u32)
    requires { AddGrammarPre work.old name }
    ensures { work.new ≡ with_grammar_of work.old name }
{
    work[GRAMMAR_FLAGS + name as usize] = 1;
}
