// What an event leaves in the grammars and in the numbers that go from event to event (EXI 8.4.2,
// 8.4.3), and whether the start tag and the sizes have room for it. Memory is not written. What the
// functions ask and leave is in specs/.
#![tactic(auto)]

ghost use Rattle.std.specs.Prelude.{◌≡◌};
ghost use Rattle.mem_marks.specs.Marks.{MarkPre};
ghost use Rattle.grammar_update.specs.Growth.{growth_of, allowed_in, fits_in, GrowthPre};
ghost use Rattle.grammar_update.specs.After.{core_after, AfterPre};

use event_code::{AT, SE};
use mem_state::{Core, Growth, Strings};
use sizes::{MAX_GRAMMARS, MAX_LEARNED, MAX_OPEN};

// What an event of this kind, by a code that is learned or not, leaves in the grammars.
pub fn growth(c: Core, kind: u32, learned: bool, s: Strings, work: &[u32]) -> Growth
    requires { GrowthPre work.now c s }
    ensures { result ≡ growth_of work.now c kind learned s }
{
    let name = s.name_row;
    let has = mem_learned::has_grammar(work, name);
    let teaches = event_code::teaches(c.mode, kind);
    let site = grammar_match::site_in(c.mode, c.top);
    Growth {
        enters: (kind == SE) & !has,
        teaches: !learned & teaches,
        site,
        kind,
        name,
        uri: s.uri_row,
    }
}

// Whether the start tag, which has this mark, may have an event of this kind whose name has this
// row: no second attribute of one name.
pub fn allows(tag: u32, kind: u32, name: u32, work: &[u32]) -> bool
    requires { MarkPre work.now name }
    ensures { result ≡ allowed_in work.now tag kind name }
{
    let marked = mem_marks::is_marked(work, name, tag);
    !((kind == AT) & marked)
}

// Whether open elements, element grammars and learned productions have room for it.
pub fn fits(c: Core, g: Growth) -> bool
    ensures { result ≡ fits_in c g }
{
    if (g.kind == SE) & (MAX_OPEN <= c.depth) {
        return false;
    }
    if g.enters & (MAX_GRAMMARS <= c.grammars as usize) {
        return false;
    }
    if g.teaches & (MAX_LEARNED <= c.learned as usize) {
        return false;
    }
    true
}

// The numbers after an event, in a fragment or not, before which n have come, at this position and
// with so many code points in the store.
pub fn after(
    fragment: bool,
    c: Core,
    at: usize,
    stored: usize,
    s: Strings,
    g: Growth,
    n: usize,
) -> Core
    requires { AfterPre c g n }
    ensures { result ≡ core_after fragment c at stored s g n }
{
    let mut d = c;
    d.at = at;
    d.stored = stored;
    mem_state::turn(fragment, mem_state::count(d, s, g), g.kind, g.name, n)
}
