// Code points, strings and names, as the program shows them.
#![tactic(auto)]

ghost use Rattle.std.specs.Prelude.{◌≡◌};
ghost use Rattle.exi_text.specs.Shown.{shown_as};

use event::Part;
use std::{fmt, str};

// How a code point is shown: as it is, as a letter behind a backslash, or as its number.
#[derive(Clone, Copy)]
pub enum Shown {
    Plain(u8),
    Letter(u8),
    Number,
}

fn shown_as(p: u32) -> Shown
    ensures { result ≡ shown_as p }
{
    match p {
        9 => Shown::Letter(b't'),
        10 => Shown::Letter(b'n'),
        13 => Shown::Letter(b'r'),
        34 => Shown::Letter(b'"'),
        92 => Shown::Letter(b'\\'),
        32..=126 => Shown::Plain(p as u8),
        _ => Shown::Number,
    }
}

// Octets that wait to be written in one piece, and the code points that fill them at most: a piece
// for each would take twice the time.
const ROOM: usize = 256;

const AT_ONCE: usize = 20;

// Puts octets at a place, as far as there is room, and answers the place after them.
fn put(octets: &mut [u8; ROOM], at: usize, x: &[u8]) -> usize {
    let mut next = at;
    for octet in x {
        if let Some(place) = octets.get_mut(next) {
            *place = *octet;
            next += 1;
        }
    }
    next
}

// A code point; in UTF-8 where that is asked for, but for control characters.
#[derive(Clone, Copy)]
struct CodePoint {
    p: u32,
    utf8: bool,
}

impl CodePoint {
    fn in_utf8(&self) -> Option<char> {
        if self.utf8 && 160 <= self.p {
            char::from_u32(self.p)
        } else {
            None
        }
    }

    fn put_number(&self, octets: &mut [u8; ROOM], at: usize) -> usize {
        if let Some(c) = self.in_utf8() {
            return put(octets, at, c.encode_utf8(&mut [0; 4]).as_bytes());
        }
        let mut digits = [0; 16];
        let n = io::hex(u64::from(self.p), 1, &mut digits);
        let next = put(octets, at, b"\\u{");
        let next = put(octets, next, &digits[..n]);
        put(octets, next, b"}")
    }

    // Puts it at a place, and answers the place after it.
    fn put(&self, octets: &mut [u8; ROOM], at: usize) -> usize {
        match shown_as(self.p) {
            Shown::Plain(x) => put(octets, at, &[x]),
            Shown::Letter(x) => put(octets, at, &[b'\\', x]),
            Shown::Number => self.put_number(octets, at),
        }
    }
}

// A text in quotes.
#[derive(Clone, Copy)]
pub struct Quoted<'a> {
    pub text: &'a [u32],
    pub utf8: bool,
}

impl fmt::Display for Quoted<'_> {
    fn fmt<W: fmt::Write>(&self, f: &mut fmt::Formatter<W>) -> fmt::Result {
        let mut octets = [0; ROOM];
        f.write_char('"')?;
        for part in self.text.chunks(AT_ONCE) {
            let mut n = 0;
            for p in part {
                let p = CodePoint {
                    p: *p,
                    utf8: self.utf8,
                };
                n = p.put(&mut octets, n);
            }
            let shown = octets.get(..n).unwrap_or(&[]);
            f.write_str(str::from_utf8(shown).unwrap_or(""))?;
        }
        f.write_char('"')
    }
}

// A text store, and how what lies in it is shown.
#[derive(Clone, Copy)]
pub struct Store<'a> {
    pub cells: &'a [u32],
    pub utf8: bool,
}

impl<'a> Store<'a> {
    pub fn text(self, part: Part) -> Quoted<'a> {
        Quoted {
            text: text::look_up(self.cells, part.place, part.size),
            utf8: self.utf8,
        }
    }

    // A name, and its URI where it has one.
    pub fn name(self, uri: Part, local: Part) -> Name<'a> {
        let uri = if uri.size == 0 {
            None
        } else {
            Some(self.text(uri))
        };
        Name {
            local: self.text(local),
            uri,
        }
    }
}

#[derive(Clone, Copy)]
pub struct Name<'a> {
    local: Quoted<'a>,
    uri: Option<Quoted<'a>>,
}

impl fmt::Display for Name<'_> {
    fn fmt<W: fmt::Write>(&self, f: &mut fmt::Formatter<W>) -> fmt::Result {
        let local = self.local;
        match self.uri {
            Some(uri) => write!(f, "{local} in {uri}"),
            None => write!(f, "{local}"),
        }
    }
}
