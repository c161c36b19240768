// An event, and how it lies in cells that are lent (docs/MEMORY.md).
#![tactic(auto)]

ghost use Rattle.std.specs.Prelude.{◌≡◌, ◌++◌, ◌+◌, ◌≤◌, length, take, drop};
ghost use Rattle.spec_exi.specs.Sizes.{cells_per_event};
ghost use Rattle.event.specs.Cells.{as_span, meaning, judged, judged_as, cells_of, row_cells};
ghost use Rattle.event.specs.Cells.{is_zeros, if_zeros, loaded_from};

// A string: a place and a length in a text store.
#[derive(Clone, Copy)]
pub struct Part {
    pub place: u32,
    pub size: u32,
}

#[derive(Clone, Copy)]
pub enum Event {
    StartDocument,
    EndDocument,
    // URI, local name
    StartElement(Part, Part),
    // URI, local name, value
    Attribute(Part, Part, Part),
    EndElement,
    Characters(Part),
    Comment(Part),
    // target, text
    Instruction(Part, Part),
}

// The kinds, in an event's first cell (docs/MEMORY.md).
pub const START_DOCUMENT: u32 = 1;

pub const END_DOCUMENT: u32 = 2;

pub const START_ELEMENT: u32 = 3;

pub const ATTRIBUTE: u32 = 4;

pub const END_ELEMENT: u32 = 5;

pub const CHARACTERS: u32 = 6;

pub const COMMENT: u32 = 7;

pub const INSTRUCTION: u32 = 8;

// A row of the table: the kind, and four strings. They have no names, since the first is a URI, a
// value or a text by the kind.
#[derive(Drop)]
struct Row(u32, Part, Part, Part, Part);

#[tactic(auto, unfolding(crate::proofs::Definitions::row_definitions))]
fn row_of(e: Event) -> Row
    ensures { row_cells result ≡ cells_of (meaning e) }
{
    let none = Part { place: 0, size: 0 };
    match e {
        Event::StartDocument => Row(START_DOCUMENT, none, none, none, none),
        Event::EndDocument => Row(END_DOCUMENT, none, none, none, none),
        Event::StartElement(uri, local) => Row(START_ELEMENT, uri, local, none, none),
        Event::Attribute(uri, local, value) => Row(ATTRIBUTE, uri, local, none, value),
        Event::EndElement => Row(END_ELEMENT, none, none, none, none),
        Event::Characters(text) => Row(CHARACTERS, text, none, none, none),
        Event::Comment(text) => Row(COMMENT, text, none, none, none),
        Event::Instruction(target, text) => Row(INSTRUCTION, target, text, none, none),
    }
}

fn put(row: Row, cells: &mut [u32], at: usize)
    requires { at + cells_per_event ≤ length cells.old }
    ensures { cells.new
        ≡ take at cells.old ++ row_cells row
        ++ drop (at + cells_per_event) cells.old }
{
    let x = row.1;
    let y = row.2;
    let p = row.3;
    let v = row.4;
    cells[at] = row.0;
    cells[at + 1] = x.place;
    cells[at + 2] = x.size;
    cells[at + 3] = y.place;
    cells[at + 4] = y.size;
    cells[at + 5] = p.place;
    cells[at + 6] = p.size;
    cells[at + 7] = v.place;
    cells[at + 8] = v.size;
}

// Stores the event in the 9 cells from `at` on.
pub fn store(e: Event, cells: &mut [u32], at: usize)
    requires { at + cells_per_event ≤ length cells.old }
    ensures { cells.new
        ≡ take at cells.old ++ cells_of (meaning e)
        ++ drop (at + cells_per_event) cells.old }
{
    put(row_of(e), cells, at);
}

fn row_at(cells: &[u32], at: usize) -> Row
    requires { at + cells_per_event ≤ length cells.now }
    ensures { row_cells result ≡ take cells_per_event (drop at cells.now) }
{
    let x = Part {
        place: cells[at + 1],
        size: cells[at + 2],
    };
    let y = Part {
        place: cells[at + 3],
        size: cells[at + 4],
    };
    let p = Part {
        place: cells[at + 5],
        size: cells[at + 6],
    };
    let v = Part {
        place: cells[at + 7],
        size: cells[at + 8],
    };
    Row(cells[at], x, y, p, v)
}

#[tactic(auto, unfolding(crate::proofs::Definitions::row_definitions))]
fn unused(p: Part) -> bool
    ensures { result ≡ is_zeros (as_span p) }
{
    (p.place == 0) & (p.size == 0)
}

// The event, where the cells that its kind does not use are zero.
fn given(e: Event, x: Part, y: Part, p: Part, v: Part) -> Option<Event>
    ensures { judged result
        ≡ judged_as (if_zeros (as_span x) (as_span y) (as_span p) (as_span v) (meaning e)) }
{
    if unused(x) & unused(y) & unused(p) & unused(v) {
        Some(e)
    } else {
        None
    }
}

#[tactic(auto, unfolding(crate::proofs::Definitions::row_definitions))]
fn read_row(row: Row) -> Option<Event>
    ensures { judged result ≡ judged_as (loaded_from (row_cells row)) }
{
    let kind = row.0;
    let x = row.1;
    let y = row.2;
    let p = row.3;
    let v = row.4;
    let none = Part { place: 0, size: 0 };
    match kind {
        START_DOCUMENT => given(Event::StartDocument, x, y, p, v),
        END_DOCUMENT => given(Event::EndDocument, x, y, p, v),
        START_ELEMENT => given(Event::StartElement(x, y), none, none, p, v),
        ATTRIBUTE => given(Event::Attribute(x, y, v), none, none, p, none),
        END_ELEMENT => given(Event::EndElement, x, y, p, v),
        CHARACTERS => given(Event::Characters(x), none, y, p, v),
        COMMENT => given(Event::Comment(x), none, y, p, v),
        INSTRUCTION => given(Event::Instruction(x, y), none, none, p, v),
        _ => None,
    }
}

// What the 9 cells from `at` on mean; none where they are SHAPE by themselves.
pub fn load(cells: &[u32], at: usize) -> Option<Event>
    requires { at + cells_per_event ≤ length cells.now }
    ensures { judged result ≡ judged_as (loaded_from (take cells_per_event (drop at cells.now))) }
{
    read_row(row_at(cells, at))
}
