// The tables of URIs and of local names in work memory. Rows are in order of insertion; URIs are
// looked through, names are on chains by URI and text, and by URI and number. A row's key is the
// first row of its text, and a name's URI is one. Every function is safe and ends on any memory.
// What the contracts cite is in specs/.
#![tactic(auto)]

ghost use Rattle.std.specs.Prelude.{◌≡◌, ◌<◌};
ghost use Rattle.mem_layout.specs.Layout.{uri_rows};
ghost use Rattle.mem_chain.specs.Chain.{link_of};
ghost use Rattle.mem_names.specs.Uris.{uri_has_text, UriRowPre, FindUriPre, FoundUri, UriAt};
ghost use Rattle.mem_names.specs.Uris.{uri_store, with_uri};
ghost use Rattle.mem_names.specs.Names.{name_spot, NameSpot, row_is_name, NameRowPre};
ghost use Rattle.mem_names.specs.Names.{FindNamePre, FoundName, NthNamePre, CountedNames};
ghost use Rattle.mem_names.specs.Names.{NthName, NameAt, with_cells, with_name, AddNamePre};
ghost use Rattle.mem_names.specs.Names.{name_store};

use mem_index::{Index, NUMBERS, STRIDE};
use mem_layout::{
    NAME_BUCKETS, NAME_CODE_HEADS, NAME_CODE_NEXTS, NAME_CODES, NAME_COUNTS, NAME_FIRSTS,
    NAME_PLACES, NAME_ROWS, NAME_SIZES, NAME_TEXT_HEADS, NAME_TEXT_NEXTS, OPENING_NAMES,
    OPENING_URIS, URI_FIRSTS, URI_PLACES, URI_ROWS, URI_SIZES,
};

#[derive(Clone, Copy)]
pub struct Uri {
    pub place: u32,
    pub size: u32,
    pub first: u32,
}

#[derive(Clone, Copy)]
pub struct Name {
    pub uri: u32,
    pub number: u32,
    pub place: u32,
    pub size: u32,
    pub first: u32,
}

// ---- URIs

fn uri_has(work: &[u32], opening: &[u32], store: &[u32], row: usize, x: &[u32]) -> bool
    requires { UriRowPre work.now row }
    ensures { result ≡ uri_has_text work.now (uri_store opening.now store.now)
        x.now row }
{
    if row < OPENING_URIS {
        return mem_entries::has_text(work, opening, URI_PLACES + row, URI_SIZES + row, x);
    }
    mem_entries::has_text(work, store, URI_PLACES + row, URI_SIZES + row, x)
}

// The first row with this text among n.
pub fn find_uri(work: &[u32], opening: &[u32], store: &[u32], x: &[u32], n: u32) -> Option<u32>
    requires { FindUriPre work.now n }
    ensures { FoundUri work.now (uri_store opening.now store.now)
        x.now n (link_of result) }
{
    for i in 0..n {
        if uri_has(work, opening, store, i as usize, x) {
            return Some(i);
        }
    }
    None
}

// The URI in a row.
pub fn uri_at(work: &[u32], row: u32) -> Uri
    requires { UriRowPre work.now row }
    ensures { UriAt work.now row result }
{
    let i = row as usize;
    Uri {
        place: work[URI_PLACES + i],
        size: work[URI_SIZES + i],
        first: mem_chain::falling(work, URI_FIRSTS + i, URI_ROWS),
    }
}

// URI n joins the table; the first row with its text is known.
pub fn add_uri(work: &mut [u32], n: u32, place: u32, size: u32, first: u32)
    requires { UriRowPre work.old n }
    ensures { work.new ≡ with_uri work.old n place size first }
{
    let row = n as usize;
    mem_entries::put_text(work, URI_PLACES + row, URI_SIZES + row, place, size);
    work[URI_FIRSTS + row] = first;
}

// ---- local names

// Names by URI and number.
const BY_URI: Index = Index {
    heads: NAME_CODE_HEADS,
    size: NAME_BUCKETS,
    codes: NAME_CODES,
    nexts: NAME_CODE_NEXTS,
    ring: NAME_ROWS,
};

// The bucket of a URI and a text of this hash.
fn spot(h: u32, uri: u32) -> u32
    requires { uri < uri_rows }
    ensures { NameSpot h uri result }
{
    (h % NAME_BUCKETS + uri * STRIDE) % NAME_BUCKETS
}

fn name_has(work: &[u32], opening: &[u32], store: &[u32], row: usize, uri: u32, x: &[u32]) -> bool
    requires { NameRowPre work.now row }
    ensures { result ≡ row_is_name work.now (name_store opening.now store.now)
        uri x.now row }
{
    if work[NAME_CODES + row] / NUMBERS != uri {
        return false;
    }
    if row < OPENING_NAMES {
        return mem_entries::has_text(work, opening, NAME_PLACES + row, NAME_SIZES + row, x);
    }
    mem_entries::has_text(work, store, NAME_PLACES + row, NAME_SIZES + row, x)
}

// The first name of a URI with this text, whose hash is h.
pub fn find_name(
    work: &[u32],
    opening: &[u32],
    store: &[u32],
    uri: u32,
    x: &[u32],
    h: u32,
    n: u32,
) -> Option<u32>
    requires { FindNamePre work.now uri n }
    ensures { FoundName work.now (name_store opening.now store.now) uri
        x.now h n (link_of result) }
{
    let head = NAME_TEXT_HEADS + spot(h, uri) as usize;
    mem_chain::seek(work, head, NAME_TEXT_NEXTS, NAME_ROWS, n, 0, |row| {
        name_has(work, opening, store, row, uri, x)
    })
}

// How many names a URI has.
pub fn count_names(work: &[u32], uri: u32) -> u32
    requires { NthNamePre work.now uri 0 }
    ensures { CountedNames work.now uri result }
{
    mem_index::count(work, NAME_COUNTS, uri)
}

// The name of a URI with this number.
pub fn nth_name(work: &[u32], uri: u32, number: u32, n: u32) -> Option<u32>
    requires { NthNamePre work.now uri n }
    ensures { NthName work.now uri number n (link_of result) }
{
    mem_index::nth(work, BY_URI, uri, number, n, 0)
}

// The name in a row.
pub fn name_at(work: &[u32], row: u32) -> Name
    requires { NameRowPre work.now row }
    ensures { NameAt work.now row result }
{
    let i = row as usize;
    let code = work[NAME_CODES + i];
    Name {
        uri: mem_chain::less(code / NUMBERS, URI_ROWS),
        number: code % NUMBERS,
        place: work[NAME_PLACES + i],
        size: work[NAME_SIZES + i],
        first: mem_chain::falling(work, NAME_FIRSTS + i, NAME_ROWS),
    }
}

// The cells of row n that are in no chain: it is the first of its text.
fn put_name(work: &mut [u32], n: u32, place: u32, size: u32)
    requires { NameRowPre work.old n }
    ensures { work.new ≡ with_cells work.old n place size }
{
    let row = n as usize;
    mem_entries::put_text(work, NAME_PLACES + row, NAME_SIZES + row, place, size);
    work[NAME_FIRSTS + row] = n;
}

// Name n joins the table, the first of its URI and its text, whose hash is h.
pub fn add_name(work: &mut [u32], n: u32, uri: u32, place: u32, size: u32, h: u32)
    requires { AddNamePre work.old n uri }
    ensures { work.new ≡ with_name work.old n uri place size h }
{
    put_name(work, n, place, size);
    mem_index::join(work, BY_URI, NAME_COUNTS, n, uri);
    let head = NAME_TEXT_HEADS + spot(h, uri) as usize;
    mem_chain::link(work, head, NAME_TEXT_NEXTS, NAME_ROWS, n);
}
