// What goes from event to event beside lent memory, and the one place where an accepted event's
// rows are added to it. What memory holds is in specs/Holds.antt, what is added in
// specs/Commit.antt.
#![tactic(auto)]

ghost use Rattle.std.specs.Prelude.{◌≡◌, ◌<◌};
ghost use Rattle.mem_rows.specs.Rows.{content_after, mode_after};
ghost use Rattle.mem_state.specs.Joining.{joining, no_strings, valued_strings};
ghost use Rattle.mem_state.specs.Commit.{joined_uri, joined_name, joined_value, joined_strings};
ghost use Rattle.mem_state.specs.Commit.{entered, learnt, marked, grown, counted, turned};
ghost use Rattle.mem_state.specs.Commit.{UriPre, NamePre, ValuePre, StringsPre, EnterPre};
ghost use Rattle.mem_state.specs.Commit.{LearnPre, GrowPre, CountPre, TurnPre, One};

use event_code::{
    AT, ED, EE, IN_DOC_CONTENT, IN_DOC_END, IN_ELEMENT, IN_FRAGMENT, IN_TAG, IS_OVER, SD, SE,
};

// The position in the stream; the code points in the store; the rows of each table; the grammar's
// state, by its number; the row of the innermost open element's name, or 0; how many are open; and
// the mark of the start tag's attributes: one more than how many events had come up to the newest
// that is no attribute, that one counted. The settings for values, the longest that joins and the
// capacity, as their numbers have them, never change; they stand where they take no more room.
#[repr(C)]
#[derive(Clone, Copy)]
pub struct Core {
    pub at: usize,
    pub stored: usize,
    pub uris: u32,
    pub names: u32,
    pub values: u32,
    pub learned: u32,
    pub grammars: u32,
    pub mode: u32,
    pub top: u32,
    pub longest: u32,
    pub depth: usize,
    pub tag: u32,
    pub capacity: u32,
}

// The strings of an event: where each lies, and the hash of a name's or a value's text; the rows of
// its URI and its name, and that of the name whose value it has; and which join their tables.
#[derive(Clone, Copy)]
pub struct Strings {
    pub uri_place: u32,
    pub uri_size: u32,
    pub name_place: u32,
    pub name_size: u32,
    pub name_hash: u32,
    pub value_place: u32,
    pub value_size: u32,
    pub value_hash: u32,
    pub uri_row: u32,
    pub name_row: u32,
    pub owner: u32,
    pub new_uri: bool,
    pub new_name: bool,
    pub new_value: bool,
}

// What an event leaves in the grammars: whether its name gets an element grammar, and whether a
// production of its kind and name is learned at a site.
#[derive(Clone, Copy)]
pub struct Growth {
    pub enters: bool,
    pub teaches: bool,
    pub site: u32,
    pub kind: u32,
    pub name: u32,
    pub uri: u32,
}

// ---- strings

// An event without strings.
pub fn no_strings() -> Strings
    ensures { result ≡ no_strings }
{
    Strings {
        uri_place: 0,
        uri_size: 0,
        name_place: 0,
        name_size: 0,
        name_hash: 0,
        value_place: 0,
        value_size: 0,
        value_hash: 0,
        uri_row: 0,
        name_row: 0,
        owner: 0,
        new_uri: false,
        new_name: false,
        new_value: false,
    }
}

// With a value of the name in a row.
pub fn with_value(s: Strings, owner: u32, joins: bool, place: u32, size: u32, hash: u32) -> Strings
    ensures { result ≡ valued_strings s owner (joining joins place size hash) }
{
    let mut strings = s;
    strings.value_place = place;
    strings.value_size = size;
    strings.value_hash = hash;
    strings.owner = owner;
    strings.new_value = joins;
    strings
}

// ---- rows

// Adds a URI that joins.
pub fn join_uri(work: &mut [u32], n: u32, joins: bool, place: u32, size: u32)
    requires { UriPre work.old n (joining joins place size 0) }
    ensures { work.new ≡ joined_uri n (joining joins place size 0) work.old }
{
    if !joins {
        return;
    }
    mem_names::add_uri(work, n, place, size, n);
}

// Adds a local name that joins.
pub fn join_name(work: &mut [u32], n: u32, uri: u32, joins: bool, place: u32, size: u32, hash: u32)
    requires { NamePre work.old n uri (joining joins place size hash) }
    ensures { work.new ≡ joined_name n uri (joining joins place size hash) work.old }
{
    if !joins {
        return;
    }
    mem_names::add_name(work, n, uri, place, size, hash);
}

// Adds a value that joins.
pub fn join_value(
    work: &mut [u32],
    n: u32,
    owner: u32,
    joins: bool,
    place: u32,
    size: u32,
    hash: u32,
)
    requires { ValuePre work.old n owner (joining joins place size hash) }
    ensures { work.new
        ≡ joined_value n owner (joining joins place size hash) work.old }
{
    if !joins {
        return;
    }
    mem_values::add(work, n, owner, place, size, hash);
}

// Adds the strings of an event to their tables.
pub fn join_strings(work: &mut [u32], c: Core, s: Strings)
    requires { StringsPre work.old c s }
    ensures { work.new ≡ joined_strings c s work.old }
{
    join_uri(work, c.uris, s.new_uri, s.uri_place, s.uri_size);
    join_name(
        work,
        c.names,
        s.uri_row,
        s.new_name,
        s.name_place,
        s.name_size,
        s.name_hash,
    );
    join_value(
        work,
        c.values,
        s.owner,
        s.new_value,
        s.value_place,
        s.value_size,
        s.value_hash,
    );
}

// Gives a name an element grammar.
pub fn enter(work: &mut [u32], enters: bool, name: u32)
    requires { EnterPre work.old name }
    ensures { work.new ≡ entered enters name work.old }
{
    if !enters {
        return;
    }
    mem_learned::add_grammar(work, name);
}

fn learn(work: &mut [u32], n: u32, g: Growth)
    requires { LearnPre work.old n g }
    ensures { work.new ≡ learnt n g work.old }
{
    if !g.teaches {
        return;
    }
    mem_learned::add(work, n, g.site, g.kind, g.name, g.uri, g.name);
}

// Marks an attribute's name.
fn mark(work: &mut [u32], tag: u32, kind: u32, name: u32)
    requires { EnterPre work.old name }
    ensures { work.new ≡ marked tag kind name work.old }
{
    if kind != AT {
        return;
    }
    mem_marks::mark(work, name, tag);
}

// Adds what an event leaves in the grammars and in the start tag.
pub fn grow(work: &mut [u32], c: Core, g: Growth)
    requires { GrowPre work.old c g }
    ensures { work.new ≡ grown c g work.old }
{
    enter(work, g.enters, g.name);
    learn(work, c.learned, g);
    mark(work, c.tag, g.kind, g.name);
}

// ---- numbers

// 1 for yes.
pub fn one(b: bool) -> u32
    ensures { One b result }
{
    u32::from(b)
}

// The counts with what an event adds.
pub fn count(c: Core, s: Strings, g: Growth) -> Core
    requires { CountPre c }
    ensures { result ≡ counted c s g }
{
    let mut d = c;
    d.uris = c.uris + u32::from(s.new_uri);
    d.names = c.names + u32::from(s.new_name);
    d.values = c.values + u32::from(s.new_value);
    d.learned = c.learned + u32::from(g.teaches);
    d.grammars = c.grammars + u32::from(g.enters);
    d
}

// The grammar's state after characters, a comment or an instruction.
pub fn content_after(mode: u32) -> u32
    ensures { result ≡ content_after mode }
{
    if mode == IN_TAG {
        return IN_ELEMENT;
    }
    mode
}

// The grammar's state after an event of this kind, in a fragment or not.
pub fn mode_after(fragment: bool, kind: u32, mode: u32, depth: usize) -> u32
    ensures { result ≡ mode_after fragment kind mode depth }
{
    match kind {
        SD => {
            if fragment {
                return IN_FRAGMENT;
            }
            IN_DOC_CONTENT
        }
        ED => IS_OVER,
        SE => IN_TAG,
        AT => mode,
        EE => {
            if depth != 1 {
                return IN_ELEMENT;
            }
            if fragment {
                return IN_FRAGMENT;
            }
            IN_DOC_END
        }
        _ => content_after(mode),
    }
}

// State, open elements and mark after an event of this kind, whose name has this row and before
// which so many events have come. After an end tag the top stays the ended element's.
pub fn turn(fragment: bool, c: Core, kind: u32, name: u32, n: usize) -> Core
    requires { TurnPre c kind n }
    ensures { result ≡ turned fragment c kind name n }
{
    let mut d = c;
    d.mode = mode_after(fragment, kind, c.mode, c.depth);
    if kind == AT {
        return d;
    }
    d.tag = n as u32 + 2;
    if kind == SE {
        d.top = name;
        d.depth = c.depth + 1;
        return d;
    }
    if kind == EE {
        d.depth = c.depth - 1;
        return d;
    }
    d
}

// The same, field by field. A core that is lent to a call lies in memory from its first use on;
// with a copy lent in its place it stays in registers up to there.
pub fn copied(c: Core) -> Core
    ensures { result ≡ c }
{
    Core {
        at: c.at,
        stored: c.stored,
        uris: c.uris,
        names: c.names,
        values: c.values,
        learned: c.learned,
        grammars: c.grammars,
        mode: c.mode,
        top: c.top,
        longest: c.longest,
        depth: c.depth,
        tag: c.tag,
        capacity: c.capacity,
    }
}
