// Says which name is refused, and why: a line on standard error that begins with two spaces.
#![tactic(auto)]

use exi_say::tell;
use sizes::MAX_STRING;
use std::fmt;
use std::io::Stderr;

// Code points, each as it is where it is printable ASCII and no space.
#[derive(Clone, Copy)]
struct Shown<'a>(&'a [u32]);

impl fmt::Display for Shown<'_> {
    fn fmt<W: fmt::Write>(&self, f: &mut fmt::Formatter<W>) -> fmt::Result {
        for p in self.0 {
            let p = *p;
            match p {
                33..=126 => f.write_char(char::from(p as u8))?,
                _ => write!(f, "\\u{{{p:x}}}")?,
            }
        }
        Ok(())
    }
}

const COLON: u32 = 58;

// Why a text is no name.
fn cause(name: &[u32]) -> &'static str {
    if name_chars::is_xml(name) {
        "no target is xml, in any case"
    } else if name.contains(&COLON) {
        "it has a colon"
    } else {
        "it is no XML name"
    }
}

// Whether the event's octets up to that of the fault are too few for a new URI's text, which bit by
// bit a name is not sought behind.
fn is_known(aligned: bool, bit: usize, octet: usize) -> bool {
    aligned || octet.wrapping_sub(bit / 8) < 4
}

// Whether the octets up to this one, of a byte-aligned stream, are hits of the third URI and of its
// first or second name. (A text that ends so has no code point 0, and no event code of a target
// ends in 0.)
fn is_hit(stream: &[u8], octet: usize) -> bool {
    match stream.get(..=octet) {
        Some([.., 3, 0, last]) => *last < 2,
        _ => false,
    }
}

// A name that no literal with a code point is: empty, or one of the initial entries.
fn tell_other(err: Stderr, stream: &[u8], aligned: bool, bit: usize, octet: usize) {
    let hit = is_hit(stream, octet);
    tell(err, "  the name is ");
    if !(aligned && hit) {
        tell(err, "empty");
    }
    if !aligned {
        tell(err, ", or ");
    }
    if hit || !aligned {
        tell(
            err,
            "nil or type of XMLSchema-instance, which no attribute may have",
        );
    }
    if !is_known(aligned, bit, octet) {
        tell(err, ", or stands behind a new URI");
    }
    tell(err, "\n");
}

// Says it of an event that begins at a bit, where the fault shows at an octet.
pub fn name(err: Stderr, stream: &[u8], aligned: bool, bit: usize, octet: usize) {
    let mut room = [0u32; MAX_STRING];
    let found = exi_name::refused(stream, aligned, bit, octet, &mut room);
    match found.and_then(|n| room.get(..n)) {
        Some(name) => {
            let (shown, cause) = (Shown(name), cause(name));
            tell(
                err,
                format_args!("  the name, by its octets: {shown}; {cause}\n"),
            );
        }
        None => tell_other(err, stream, aligned, bit, octet),
    }
}
