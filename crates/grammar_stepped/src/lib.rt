// The answer of a step, the reader's or the writer's: the numbers after an event, one by one.
// What the functions leave is in specs/Stepped.antt.
#![tactic(auto)]

ghost use Rattle.std.specs.Prelude.{◌+◌, ◌<◌, ◌≡◌};
ghost use Rattle.spec_exi.specs.Sizes.{max_events};
ghost use Rattle.mem_state.specs.Holds.{Bounded};
ghost use Rattle.grammar_stepped.specs.Stepped.{stepped_as, moved_on};

use mem_state::Core;

// The number of the event's refusal or 0, and the numbers after the event, those of a core one by
// one: a core inside would be copied more often.
#[derive(Drop)]
pub struct Stepped {
    pub number: u32,
    pub at: usize,
    pub stored: usize,
    pub uris: u32,
    pub names: u32,
    pub values: u32,
    pub learned: u32,
    pub grammars: u32,
    pub mode: u32,
    pub top: u32,
    pub longest: u32,
    pub depth: usize,
    pub tag: u32,
    pub capacity: u32,
}

// The answer of a step: a number, and the numbers after it.
pub fn answer(number: u32, c: Core) -> Stepped
    ensures { result ≡ stepped_as number c }
{
    Stepped {
        number,
        at: c.at,
        stored: c.stored,
        uris: c.uris,
        names: c.names,
        values: c.values,
        learned: c.learned,
        grammars: c.grammars,
        mode: c.mode,
        top: c.top,
        depth: c.depth,
        tag: c.tag,
        longest: c.longest,
        capacity: c.capacity,
    }
}

// The mark after an event that is no attribute, before which so many have come.
pub fn next_tag(n: usize) -> u32
    requires { n < max_events }
    ensures { result ≡ n + 2 }
{
    n as u32 + 2
}

// The answer after an event that teaches no production: whether its value joins, and whether its
// name gets a grammar.
pub fn moved_on(
    c: Core,
    at: usize,
    stored: usize,
    joins: bool,
    enters: bool,
    mode: u32,
    top: u32,
    depth: usize,
    tag: u32,
) -> Stepped
    requires { Bounded c }
    ensures { result ≡ stepped_as 0 (moved_on c at stored joins enters mode top depth tag) }
{
    Stepped {
        number: 0,
        at,
        stored,
        uris: c.uris,
        names: c.names,
        values: c.values + u32::from(joins),
        learned: c.learned,
        grammars: c.grammars + u32::from(enters),
        mode,
        top,
        depth,
        tag,
        longest: c.longest,
        capacity: c.capacity,
    }
}

// The same, field by field, so that it need not lie in memory after the call that answered it.
pub fn copied(s: Stepped) -> Stepped
    ensures { result ≡ s }
{
    Stepped {
        number: s.number,
        at: s.at,
        stored: s.stored,
        uris: s.uris,
        names: s.names,
        values: s.values,
        learned: s.learned,
        grammars: s.grammars,
        mode: s.mode,
        top: s.top,
        longest: s.longest,
        depth: s.depth,
        tag: s.tag,
        capacity: s.capacity,
    }
}
