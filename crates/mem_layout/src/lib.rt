// Where everything lies in the work memory of reader and writer: heads of chains, counts, which are
// zero at the start, then tables in columns, a cell for each row.
// specs/Layout.antt has the places by the same names.
// ---- heads of chains, a cell for each bucket
#![tactic(auto)]

// values by text
pub const VALUE_TEXT_HEADS: usize = 0;

// values by owner and number
pub const VALUE_CODE_HEADS: usize = 1024;

// learned productions by site, kind and name
pub const LEARNED_NAME_HEADS: usize = 2048;

// learned productions by site and number
pub const LEARNED_CODE_HEADS: usize = 2304;

// names by URI and text
pub const NAME_TEXT_HEADS: usize = 2560;

// names by URI and number
pub const NAME_CODE_HEADS: usize = 2624;

// ---- counts, a cell for each owner: zero at the start

// the first of them
pub const ZERO_FROM: usize = 2688;

// values ever added of a name
pub const VALUE_COUNTS: usize = 2688;

// learned productions of a site
pub const LEARNED_COUNTS: usize = 2816;

// whether a name has an element grammar
pub const GRAMMAR_FLAGS: usize = 3074;

// names of a URI
pub const NAME_COUNTS: usize = 3202;

// a mark of each name (equal attributes)
pub const NAME_MARKS: usize = 3218;

// prefixes of a URI
pub const PREFIX_COUNTS: usize = 3346;

// names that are counted (grammar cap)
pub const COUNTED_NAMES: usize = 3362;

// the end of what is zero at the start
pub const ZERO_TO: usize = 3490;

// ---- URIs: place, size, first row of the text

pub const URI_PLACES: usize = 3490;

pub const URI_SIZES: usize = 3506;

pub const URI_FIRSTS: usize = 3522;

// ---- names: place, size, code (URI * 16384 + number), next by text, next by code, first row of
// the text

pub const NAME_PLACES: usize = 3538;

pub const NAME_SIZES: usize = 3666;

pub const NAME_CODES: usize = 3794;

pub const NAME_TEXT_NEXTS: usize = 3922;

pub const NAME_CODE_NEXTS: usize = 4050;

pub const NAME_FIRSTS: usize = 4178;

// ---- learned productions: code (site * 16384 + kind * 128 + name), its next, code (site * 16384 +
// number), its next, the rows of the URI and the name that named it

pub const LEARNED_NAME_CODES: usize = 4306;

pub const LEARNED_NAME_NEXTS: usize = 4818;

pub const LEARNED_CODES: usize = 5330;

pub const LEARNED_CODE_NEXTS: usize = 5842;

pub const LEARNED_URI_ROWS: usize = 6354;

pub const LEARNED_NAME_ROWS: usize = 6866;

// ---- values: place, size, next by text, code (owner * 16384 + number), its next

pub const VALUE_PLACES: usize = 7378;

pub const VALUE_SIZES: usize = 9426;

pub const VALUE_TEXT_NEXTS: usize = 11474;

pub const VALUE_CODES: usize = 13522;

pub const VALUE_CODE_NEXTS: usize = 15570;

// ---- prefixes

pub const PREFIXES: usize = 17618;

// ---- in all

// the layout's end
pub const LAYOUT_CELLS: usize = 17746;

// ---- rows of the tables, buckets of the chains, owners of the counts

// values lie at their number modulo the ring
pub const VALUE_RING: u32 = 2048;

pub const VALUE_BUCKETS: u32 = 1024;

pub const LEARNED_ROWS: u32 = 512;

pub const LEARNED_BUCKETS: u32 = 256;

pub const NAME_ROWS: u32 = 128;

pub const NAME_BUCKETS: u32 = 64;

pub const URI_ROWS: u32 = 16;

// rows of the initial entries
pub const OPENING_URIS: usize = 3;

pub const OPENING_NAMES: usize = 6;

// sites at which productions are learned: two a name, a fragment's content, and one more
pub const SITES: u32 = 258;

// that of a fragment's content
pub const FRAGMENT_SITE: u32 = 256;
