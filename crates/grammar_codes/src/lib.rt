// The productions of each state that are not learned (EXI 8.4), level by level of their
// event codes, in one table. States and kinds are numbers; comments and
// instructions stand where they are kept. The table is in specs/Table.antt.
#![tactic(auto)]

ghost use Rattle.std.specs.Prelude.{◌≡◌, [], ◌∷◌, ◌<◌, length, get_or, drop};
ghost use Rattle.std.specs.Option.{IfSome};
ghost use Rattle.spec_exi.specs.Event.{Kind, SD as kind_sd};
ghost use Rattle.spec_exi.specs.Grammar.{kind_number};
ghost use Rattle.event_code.specs.Numbers.{in_fragment, in_tag, in_element};
ghost use Rattle.grammar_codes.specs.Table.{max_levels, kept_kinds, CountAt, values_at, PlaceAt};
ghost use Rattle.grammar_codes.specs.Table.{leads_on, fixed_levels, fixed_kinds};
ghost use Rattle.grammar_codes.specs.Table.{table_of, number_in, kept_place, place_in, place_as, place_view};

use event_code::{
    AT, CH, CM, ED, EE, IN_DOC_CONTENT, IN_DOC_END, IN_DOCUMENT, IN_ELEMENT, IN_FRAGMENT, IN_TAG,
    PI, SD, SE,
};

// A level, and the number of a production there.
#[derive(Clone, Copy)]
pub struct Place {
    pub level: u32,
    pub value: u32,
}

// The one of four with this number, or 0.
fn nth(i: u32, a: u32, b: u32, c: u32, d: u32) -> u32
    ensures { result ≡ get_or (a ∷ b ∷ c ∷ d ∷ []) i 0 }
{
    match i {
        0 => a,
        1 => b,
        2 => c,
        3 => d,
        _ => 0,
    }
}

// How many kinds are kept of comments and instructions.
pub fn kept_count(comments: bool, instructions: bool) -> u32
    ensures { result ≡ length (kept_kinds comments instructions) }
{
    if comments {
        if instructions {
            return 2;
        }
        return 1;
    }
    if instructions {
        return 1;
    }
    0
}

// The kind with number v there.
pub fn kept_at(v: u32, comments: bool, instructions: bool) -> u32
    ensures { result ≡ kind_number (get_or (kept_kinds comments instructions) v kind_sd) }
{
    if comments {
        if instructions {
            return nth(v, CM, PI, 0, 0);
        }
        return nth(v, CM, 0, 0, 0);
    }
    if instructions {
        return nth(v, PI, 0, 0, 0);
    }
    0
}

// How many productions a level has.
pub fn count_at(mode: u32, level: u32, comments: bool, instructions: bool) -> u32
    ensures { CountAt comments instructions mode level result }
{
    let kept = kept_count(comments, instructions);
    match mode {
        IN_DOCUMENT => nth(level, 1, 0, 0, 0),
        IN_DOC_CONTENT => nth(level, 1, kept, 0, 0),
        IN_DOC_END => nth(level, 1, kept, 0, 0),
        IN_TAG => nth(level, 0, 4, kept, 0),
        IN_ELEMENT => nth(level, 1, 2, kept, 0),
        IN_FRAGMENT => nth(level, 2, kept, 0, 0),
        _ => 0,
    }
}

// How many productions the main level has: outside an element the first, in an element the second.
pub fn fixed_count(mode: u32) -> u32
    ensures { result ≡ length (fixed_kinds mode) }
{
    match mode {
        IN_DOCUMENT => 1,
        IN_DOC_CONTENT => 1,
        IN_DOC_END => 1,
        IN_TAG => 4,
        IN_ELEMENT => 2,
        IN_FRAGMENT => 2,
        _ => 0,
    }
}

// The kind of the production with number v there.
pub fn fixed_kind(mode: u32, v: u32) -> u32
    ensures { result ≡ kind_number (get_or (fixed_kinds mode) v kind_sd) }
{
    match mode {
        IN_DOC_CONTENT => nth(v, SE, 0, 0, 0),
        IN_DOC_END => nth(v, ED, 0, 0, 0),
        IN_TAG => nth(v, EE, AT, SE, CH),
        IN_ELEMENT => nth(v, SE, CH, 0, 0),
        IN_FRAGMENT => nth(v, SE, ED, 0, 0),
        _ => SD,
    }
}

// 1 where that level leads on to those that are kept, else 0.
pub fn leads_on(mode: u32, comments: bool, instructions: bool) -> u32
    ensures { result ≡ leads_on (drop 1 (fixed_levels comments instructions mode)) }
{
    if !(comments | instructions) {
        return 0;
    }
    match mode {
        IN_DOC_CONTENT => 1,
        IN_DOC_END => 1,
        IN_TAG => 1,
        IN_ELEMENT => 1,
        IN_FRAGMENT => 1,
        _ => 0,
    }
}

// How many values a part has at a level, the learned productions not counted: one leads to the
// next level, where one has productions.
pub fn values_at(mode: u32, level: u32, comments: bool, instructions: bool) -> u32
    requires { level < max_levels }
    ensures { result ≡ values_at comments instructions mode level }
{
    // most parts are an element's first
    if (mode == IN_ELEMENT) & (level == 0) {
        return 2;
    }
    if (mode == IN_TAG) & (level == 0) {
        return 1;
    }
    let here = count_at(mode, level, comments, instructions);
    let next = count_at(mode, level + 1, comments, instructions);
    let last = count_at(mode, level + 2, comments, instructions);
    if next + last == 0 {
        return here;
    }
    here + 1
}

// A comment or an instruction, in the level that has those that are kept.
fn kept_place(kind: u32, level: u32, comments: bool, instructions: bool) -> Option<Place>
    requires { level < max_levels }
    ensures is { place_view result ≡ kept_place level (number_in (kept_kinds comments instructions) kind) }
    ensures low { IfSome result (λ p. p.level < max_levels) }
{
    if kind == CM {
        if comments {
            return Some(Place { level, value: 0 });
        }
        return None;
    }
    if kind == PI {
        if !instructions {
            return None;
        }
        if comments {
            return Some(Place { level, value: 1 });
        }
        return Some(Place { level, value: 0 });
    }
    None
}

fn tag_place(kind: u32, comments: bool, instructions: bool) -> Option<Place>
    ensures is { place_view result ≡ place_as (place_in (table_of comments instructions in_tag) kind) }
    ensures low { IfSome result (λ p. p.level < max_levels) }
{
    match kind {
        EE => Some(Place { level: 1, value: 0 }),
        AT => Some(Place { level: 1, value: 1 }),
        SE => Some(Place { level: 1, value: 2 }),
        CH => Some(Place { level: 1, value: 3 }),
        _ => kept_place(kind, 2, comments, instructions),
    }
}

fn element_place(kind: u32, comments: bool, instructions: bool) -> Option<Place>
    ensures is { place_view result ≡ place_as (place_in (table_of comments instructions in_element) kind) }
    ensures low { IfSome result (λ p. p.level < max_levels) }
{
    match kind {
        EE => Some(Place { level: 0, value: 0 }),
        SE => Some(Place { level: 1, value: 0 }),
        CH => Some(Place { level: 1, value: 1 }),
        _ => kept_place(kind, 2, comments, instructions),
    }
}

fn fragment_place(kind: u32, comments: bool, instructions: bool) -> Option<Place>
    ensures is { place_view result ≡ place_as (place_in (table_of comments instructions in_fragment) kind) }
    ensures low { IfSome result (λ p. p.level < max_levels) }
{
    match kind {
        SE => Some(Place { level: 0, value: 0 }),
        ED => Some(Place { level: 0, value: 1 }),
        _ => kept_place(kind, 1, comments, instructions),
    }
}

// Outside the root element: one kind stands in the first level.
fn outer_place(first: u32, kind: u32, comments: bool, instructions: bool) -> Option<Place>
    ensures is { (k : Kind) → kind_number k ≡ first
        → place_view result ≡ place_as (place_in ((k ∷ []) ∷ kept_kinds comments instructions ∷ []) kind) }
    ensures low { IfSome result (λ p. p.level < max_levels) }
{
    if kind == first {
        return Some(Place { level: 0, value: 0 });
    }
    kept_place(kind, 1, comments, instructions)
}

// Where a kind stands in the table of a state.
pub fn place_of(mode: u32, kind: u32, comments: bool, instructions: bool) -> Option<Place>
    ensures is { PlaceAt comments instructions mode kind (place_view result) }
    ensures low { IfSome result (λ p. p.level < max_levels) }
{
    match mode {
        IN_DOCUMENT => {
            if kind == SD {
                return Some(Place { level: 0, value: 0 });
            }
            None
        }
        IN_DOC_CONTENT => outer_place(SE, kind, comments, instructions),
        IN_DOC_END => outer_place(ED, kind, comments, instructions),
        IN_TAG => tag_place(kind, comments, instructions),
        IN_ELEMENT => element_place(kind, comments, instructions),
        IN_FRAGMENT => fragment_place(kind, comments, instructions),
        _ => None,
    }
}
