// Lays the initial entries (EXI, appendix D.1 and D.3) into lent memory: the beginning of the text
// store, and the rows of the three URIs and the six local names. What the contracts cite is in
// specs/.
#![tactic(auto)]

ghost use Rattle.std.specs.Prelude.{◌≡◌, ◌+◌, ◌≤◌, length};
ghost use Rattle.mem_layout.specs.Layout.{work_cells};
ghost use Rattle.mem_initial.specs.Initial.{zeroed, initial_text};
ghost use Rattle.mem_initial.specs.Initial.{with_text, uris_laid, names_laid, with_rows};
ghost use Rattle.mem_initial.specs.Initial.{initial_size, start_at, LayRowsPre};

use event_code::IN_DOCUMENT;
use mem_layout::{OPENING_NAMES, OPENING_URIS, ZERO_FROM, ZERO_TO};
use mem_state::Core;

// code points of the initial entries
pub const INITIAL_TEXT: usize = 99;

const INITIAL_URIS: u32 = OPENING_URIS as u32;

const INITIAL_NAMES: u32 = OPENING_NAMES as u32;

// The texts of the initial entries, one behind the other.
const TEXT: [u8; INITIAL_TEXT] = *b"http://www.w3.org/XML/1998/namespace\
      http://www.w3.org/2001/XMLSchema-instance\
      baseidlangspaceniltype";

// The rows of the two URIs that have names.
const XML: u32 = 1;

const XSI: u32 = 2;

// The code points of their texts.
const XML_SIZE: u32 = 36;

const XSI_SIZE: u32 = 41;

// Where the texts of the local names begin, counted from the origin.
const BASE_PLACE: u32 = XML_SIZE + XSI_SIZE;

const ID_PLACE: u32 = BASE_PLACE + 4;

const LANG_PLACE: u32 = ID_PLACE + 2;

const SPACE_PLACE: u32 = LANG_PLACE + 4;

const NIL_PLACE: u32 = SPACE_PLACE + 5;

const TYPE_PLACE: u32 = NIL_PLACE + 3;

// The hashes of the local names (`mem_entries::hash`).
const BASE: u32 = 3997284845;

const ID: u32 = 1761650095;

const LANG: u32 = 1581560574;

const SPACE: u32 = 1388299130;

const NIL: u32 = 3188801237;

const TYPE: u32 = 3887450706;

// Clears the counts: they have to be zero before the first row is added.
pub fn clear_counts(work: &mut [u32])
    requires { work_cells ≤ length work.old }
    ensures { work.new ≡ zeroed work.old }
{
    mem_clear::cells(&mut work[ZERO_FROM..ZERO_TO]);
}

// Writes the texts at the origin.
pub fn lay_text(cells: &mut [u32], origin: usize)
    requires { origin + initial_size ≤ length cells.old }
    ensures { cells.new ≡ with_text cells.old origin }
{
    let text = TEXT;
    for i in 0..INITIAL_TEXT {
        cells[origin + i] = u32::from(text[i]);
    }
}

// The texts in a store of their own.
pub fn opening_text() -> [u32; INITIAL_TEXT]
    ensures { result ≡ initial_text }
{
    let mut cells = [0u32; INITIAL_TEXT];
    lay_text(&mut cells, 0);
    cells
}

fn lay_uris(work: &mut [u32], origin: u32)
    requires { LayRowsPre work.old origin }
    ensures { work.new ≡ uris_laid work.old origin }
{
    mem_names::add_uri(work, 0, origin, 0, 0);
    mem_names::add_uri(work, XML, origin, XML_SIZE, XML);
    mem_names::add_uri(work, XSI, origin + XML_SIZE, XSI_SIZE, XSI);
}

fn lay_names(work: &mut [u32], origin: u32)
    requires { LayRowsPre work.old origin }
    ensures { work.new ≡ names_laid work.old origin }
{
    mem_names::add_name(work, 0, XML, origin + BASE_PLACE, 4, BASE);
    mem_names::add_name(work, 1, XML, origin + ID_PLACE, 2, ID);
    mem_names::add_name(work, 2, XML, origin + LANG_PLACE, 4, LANG);
    mem_names::add_name(work, 3, XML, origin + SPACE_PLACE, 5, SPACE);
    mem_names::add_name(work, 4, XSI, origin + NIL_PLACE, 3, NIL);
    mem_names::add_name(work, 5, XSI, origin + TYPE_PLACE, 4, TYPE);
}

// Adds the rows of the initial entries, whose texts are laid at the origin.
pub fn lay_rows(work: &mut [u32], origin: u32)
    requires { LayRowsPre work.old origin }
    ensures { work.new ≡ with_rows work.old origin }
{
    lay_uris(work, origin);
    lay_names(work, origin);
}

// The numbers that go with them, before the first event, and the settings for values.
pub fn start(at: usize, longest: u32, capacity: u32) -> Core
    ensures { result ≡ start_at at longest capacity }
{
    Core {
        at,
        stored: INITIAL_TEXT,
        uris: INITIAL_URIS,
        names: INITIAL_NAMES,
        values: 0,
        learned: 0,
        grammars: 0,
        mode: IN_DOCUMENT,
        top: 0,
        depth: 0,
        tag: 1,
        longest,
        capacity,
    }
}
