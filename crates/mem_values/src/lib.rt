// The value table in work memory: every value that was added, in order, at its insertion number
// modulo the ring; chains by text, and by owner and local number. Every function is safe and ends on
// any memory. What the contracts cite is in specs/.
#![tactic(auto)]

ghost use Rattle.std.specs.Prelude.{◌≡◌};
ghost use Rattle.mem_chain.specs.Chain.{link_of};
ghost use Rattle.mem_values.specs.Values.{row_has_text, with_value};
ghost use Rattle.mem_values.specs.Hold.{ValueAtPre, FindRowPre, FoundText};
ghost use Rattle.mem_values.specs.Hold.{NthLocalPre, FoundLocal};
ghost use Rattle.mem_values.specs.Hold.{CountedLocal, ValueAt, AddRowPre};
ghost use Rattle.mem_values.specs.Forms.{Order, number_of, nth_of, FormOfPre, Formed};
ghost use Rattle.mem_values.specs.Window.{joins_by, Replaced, Newest};

use mem_index::{Index, NUMBERS};
use mem_layout::{
    VALUE_BUCKETS, VALUE_CODE_HEADS, VALUE_CODE_NEXTS, VALUE_CODES, VALUE_COUNTS, VALUE_PLACES,
    VALUE_RING, VALUE_SIZES, VALUE_TEXT_HEADS, VALUE_TEXT_NEXTS,
};

#[derive(Clone, Copy)]
pub struct Value {
    pub owner: u32,
    pub number: u32,
    pub place: u32,
    pub size: u32,
}

// Values by owner and number.
const BY_OWNER: Index = Index {
    heads: VALUE_CODE_HEADS,
    size: VALUE_BUCKETS,
    codes: VALUE_CODES,
    nexts: VALUE_CODE_NEXTS,
    ring: VALUE_RING,
};

fn row_has(work: &[u32], store: &[u32], row: usize, x: &[u32]) -> bool
    requires { ValueAtPre work.now row }
    ensures { result ≡ row_has_text work.now store.now x.now row }
{
    mem_entries::has_text(work, store, VALUE_PLACES + row, VALUE_SIZES + row, x)
}

// The newest value with this text, whose hash is h, among those from insertion low on: its
// insertion number.
pub fn find(work: &[u32], store: &[u32], x: &[u32], h: u32, n: u32, low: u32) -> Option<u32>
    requires { FindRowPre work.now n }
    ensures { FoundText work.now store.now x.now h n low (link_of result) }
{
    let head = VALUE_TEXT_HEADS + (h % VALUE_BUCKETS) as usize;
    mem_chain::seek(work, head, VALUE_TEXT_NEXTS, VALUE_RING, n, low, |row| {
        row_has(work, store, row, x)
    })
}

// How many values a name was given.
pub fn count_local(work: &[u32], owner: u32) -> u32
    requires { NthLocalPre work.now owner 0 }
    ensures { CountedLocal work.now owner result }
{
    mem_index::count(work, VALUE_COUNTS, owner)
}

// The value of a name with this local number, if it is one of those from insertion low on.
pub fn nth_local(work: &[u32], owner: u32, number: u32, n: u32, low: u32) -> Option<u32>
    requires { NthLocalPre work.now owner n }
    ensures { FoundLocal work.now owner number n low (link_of result) }
{
    mem_index::nth(work, BY_OWNER, owner, number, n, low)
}

// The value at an insertion number.
pub fn value_at(work: &[u32], g: u32) -> Value
    requires { ValueAtPre work.now 0 }
    ensures { ValueAt work.now g result }
{
    let row = (g % VALUE_RING) as usize;
    let code = work[VALUE_CODES + row];
    Value {
        owner: code / NUMBERS,
        number: code % NUMBERS,
        place: work[VALUE_PLACES + row],
        size: work[VALUE_SIZES + row],
    }
}

// Value n joins the table: its text has the hash h.
pub fn add(work: &mut [u32], n: u32, owner: u32, place: u32, size: u32, h: u32)
    requires { AddRowPre work.old n owner }
    ensures { work.new ≡ with_value work.old n owner place size h }
{
    let row = (n % VALUE_RING) as usize;
    mem_entries::put_text(work, VALUE_PLACES + row, VALUE_SIZES + row, place, size);
    mem_index::join(work, BY_OWNER, VALUE_COUNTS, n, owner);
    let head = VALUE_TEXT_HEADS + (h % VALUE_BUCKETS) as usize;
    mem_chain::link(work, head, VALUE_TEXT_NEXTS, VALUE_RING, n);
}

// ---- settings for values, as their numbers have them: 0 is unbounded, and n + 1 a bound n

// Whether a value of so many code points joins the table.
pub fn joins(size: usize, longest: u32, capacity: u32) -> bool
    ensures { result ≡ joins_by size longest capacity }
{
    if size == 0 {
        return false;
    }
    if capacity == 1 {
        return false;
    }
    if longest == 0 {
        return true;
    }
    size < longest as usize
}

// How many of n values are replaced.
pub fn replaced(n: u32, capacity: u32) -> u32
    ensures { Replaced n capacity result }
{
    if capacity == 0 {
        return 0;
    }
    if n < capacity {
        return 0;
    }
    n - (capacity - 1)
}

// How many of n values have the first global numbers, being the newest.
pub fn newest_numbers(n: u32, capacity: u32) -> u32
    ensures { Newest n capacity result }
{
    if capacity == 0 {
        return n;
    }
    if capacity == 1 {
        return 0;
    }
    n % (capacity - 1)
}

// ---- global numbers

// The global number of value g, where n values were added, the newest of them have the numbers
// below newer, and those before low are replaced.
pub fn global_number(n: u32, low: u32, newer: u32, g: u32) -> u32
    requires { Order n low newer g }
    ensures { result ≡ number_of n low newer g }
{
    let first = n - newer;
    if g < first {
        return newer + (g - low);
    }
    g - first
}

// The value with a global number.
pub fn nth_global(n: u32, low: u32, newer: u32, number: u32) -> Option<u32>
    requires { Order n low newer low }
    ensures { link_of result ≡ nth_of n low newer number }
{
    if number >= n - low {
        return None;
    }
    if number < newer {
        return Some(n - newer + number);
    }
    Some(low + (number - newer))
}

// How a value stands: by its name's numbers, by the global numbers, or not at all.
#[derive(Clone, Copy)]
pub enum Form {
    Local(u32),
    Global(u32),
    Absent,
}

pub fn form_of(
    work: &[u32],
    store: &[u32],
    x: &[u32],
    h: u32,
    n: u32,
    low: u32,
    newer: u32,
    owner: u32,
) -> Form
    requires { FormOfPre work.now n low newer }
    ensures { Formed work.now store.now x.now h n low newer owner result }
{
    let Some(g) = find(work, store, x, h, n, low) else {
        return Form::Absent;
    };
    let v = value_at(work, g);
    let mine = v.owner;
    if mine == owner {
        return Form::Local(v.number);
    }
    Form::Global(global_number(n, low, newer, g))
}
