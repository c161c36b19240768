// The learned productions of the grammar's state (EXI 8.4.2, 8.4.3): how many, and which one fits
// an event. Memory is not written, and every function is safe and ends on any memory. What the
// functions ask and leave is in specs/.
#![tactic(auto)]

ghost use Rattle.std.specs.Prelude.{◌≡◌, ◌<◌, suc};
ghost use Rattle.mem_layout.specs.Layout.{name_rows};
ghost use Rattle.mem_chain.specs.Chain.{link_of};
ghost use Rattle.grammar_match.specs.Here.{site_in, SitePre, CountedHere};
ghost use Rattle.grammar_match.specs.Found.{FindPre, FoundHere, PartPre, PartHere};

use event_code::{CH, IN_FRAGMENT, IN_TAG, SE};
use mem_layout::FRAGMENT_SITE;

// The site of the innermost element's grammar, in its start tag or its content; else the
// fragment's.
pub fn site_in(mode: u32, top: u32) -> u32
    requires { top < name_rows }
    ensures { result ≡ site_in mode top }
{
    if mode == IN_TAG {
        return 2 * top + 1;
    }
    if mode < IN_TAG {
        return FRAGMENT_SITE;
    }
    2 * top
}

// How many productions are learned there; in the document's own states, none.
pub fn count_here(mode: u32, top: u32, work: &[u32]) -> u32
    requires { SitePre work.now top }
    ensures { CountedHere work.now mode top result }
{
    if mode < IN_FRAGMENT {
        return 0;
    }
    mem_learned::count_at(work, site_in(mode, top))
}

// The row of the one that fits an event of this kind whose name has this row, 0 where it has none.
pub fn find_learned(
    mode: u32,
    top: u32,
    kind: u32,
    name: u32,
    learned: u32,
    work: &[u32],
) -> Option<u32>
    requires { FindPre work.now top name learned }
    ensures { FoundHere work.now mode top kind name learned (link_of result) }
{
    if mode < IN_FRAGMENT {
        return None;
    }
    if kind < SE {
        return None;
    }
    if CH < kind {
        return None;
    }
    mem_learned::find(work, site_in(mode, top), kind, name, learned)
}

// The part of its code: how many of the state's, count in all, are newer.
pub fn part_here(row: u32, count: u32, work: &[u32]) -> u32
    requires { PartPre work.now (suc row) }
    ensures { PartHere work.now (suc row) count result }
{
    let p = mem_learned::production_at(work, row);
    mem_learned::part_of(count, p.number)
}
