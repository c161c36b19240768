// More on a refusal, where it can be told: lines on standard error that begin with two spaces.
#![tactic(auto)]

use exi_say::tell;
use mem_state::Core;
use sizes::{
    MAX_EVENTS, MAX_GRAMMARS, MAX_LEARNED, MAX_NAMES, MAX_OPEN, MAX_STORE, MAX_STRING, MAX_URIS,
    MAX_VALUES,
};
use std::io::Stderr;

// What the octet of a header says that is none of EXI 1.0 without options (EXI, 5).
fn octet_found(err: Stderr, x: u8) {
    if x / 64 != 2 {
        tell(
            err,
            "  found: no EXI header, which begins with the bits 10\n",
        );
    } else if x / 32 % 2 == 1 {
        tell(err, "  found: options in the header, which are not read\n");
    } else if x % 32 != 0 {
        tell(err, "  found: a version other than 1\n");
    }
}

// The octet behind the cookie, or the first one.
fn behind(err: Stderr, stream: &[u8], n: usize) {
    if let Some(x) = stream.get(n) {
        octet_found(err, *x);
    }
}

// What stands where the header should be.
pub fn header(err: Stderr, stream: &[u8], cookie: bool) {
    let has_cookie = stream.starts_with(b"$EXI");
    if stream.starts_with(b"<") {
        tell(err, "  found: XML text, not EXI\n");
    } else if stream.starts_with(b"\xEF\xBB\xBF") {
        tell(err, "  found: text with a byte order mark, not EXI\n");
    } else if has_cookie && !cookie {
        tell(err, "  found: the cookie $EXI, which --cookie asks for\n");
        behind(err, stream, 4);
    } else if cookie && !has_cookie {
        tell(err, "  found: no cookie $EXI\n");
        behind(err, stream, 0);
    } else if cookie {
        behind(err, stream, 4);
    } else {
        behind(err, stream, 0);
    }
}

// Says of a size that it is used up, and answers whether it is.
fn full(err: Stderr, n: usize, most: usize, of: &str) -> bool {
    if n < most {
        return false;
    }
    tell(err, format_args!("  full: {most} {of}\n"));
    true
}

// Under a capacity values are replaced, and their size is never used up.
fn full_values(err: Stderr, c: &Core) -> bool {
    c.capacity == 0 && full(err, c.values as usize, MAX_VALUES, "distinct values")
}

// Says which sizes are used up that an event may add to, and answers whether any is.
fn full_tables(err: Stderr, c: &Core) -> bool {
    let depth = full(err, c.depth, MAX_OPEN, "open elements");
    let uris = full(err, c.uris as usize, MAX_URIS, "URIs");
    let names = full(err, c.names as usize, MAX_NAMES, "names");
    let values = full_values(err, c);
    let grammars = full(err, c.grammars as usize, MAX_GRAMMARS, "element grammars");
    let learned = full(err, c.learned as usize, MAX_LEARNED, "learned productions");
    depth || uris || names || values || grammars || learned
}

// Whether a string of any length that it may have fits into the store behind so many code points
// and, of the event's own strings before it, one for each octet.
fn fits(stored: usize, octets: usize) -> bool {
    stored <= MAX_STORE - MAX_STRING && octets < MAX_STORE - MAX_STRING - stored
}

// A string that is too long, where no table is full; the fault shows at an octet.
fn too_long(err: Stderr, octet: usize, c: &Core) {
    tell(
        err,
        format_args!("  too long: a string of the event has over {MAX_STRING} code points"),
    );
    if !fits(c.stored, octet.wrapping_sub(c.at / 8)) {
        tell(err, format_args!(", or all have over {MAX_STORE} with it"));
    }
    tell(err, "\n");
}

// What of the sizes is used up before the event that would pass one; the fault shows at an octet.
// Events are counted before anything of the next one is read.
pub fn limits(err: Stderr, events: u32, octet: usize, c: &Core) {
    if full(err, events as usize, MAX_EVENTS, "events") {
        return;
    }
    let any = full_tables(err, c);
    let stored = c.stored;
    tell(
        err,
        format_args!(
            "  code points so far: {stored} of {MAX_STORE}; a string has at most {MAX_STRING}\n"
        ),
    );
    if !any {
        too_long(err, octet, c);
    }
}

// Where the event begins that is refused, by the bits before it.
pub fn event(err: Stderr, bits: usize) {
    let (octet, bit) = (bits / 8, bits % 8);
    tell(err, format_args!("  the event begins at octet {octet}"));
    if bit != 0 {
        tell(err, format_args!(", bit {bit}"));
    }
    tell(err, "\n");
}

// From which event on those before the fault are not known.
pub fn unknown(err: Stderr, from: u32) {
    tell(
        err,
        format_args!("  events from {from} on end in the octet of the fault, and are not known\n"),
    );
}

// At which octet the fault shows, of all; they are counted from 0.
pub fn octet(err: Stderr, at: usize, all: usize) {
    if at < all {
        tell(err, format_args!("  the fault shows at octet {at}\n"));
    } else {
        tell(err, format_args!("  octets in all: {all}\n"));
    }
}
