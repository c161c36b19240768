// Output that waits in a buffer, and goes out where the buffer is full.
#![tactic(auto)]

ghost use Rattle.std.specs.Prelude.{◌≡◌, ◌≤◌, ◌<◌, length, None};

use std::fmt;
use std::io::{Error, Print, Stdout};

const ROOM: usize = 65536;

// Where it goes, the octets that wait, and why a write failed, the last one that did.
#[derive(Clone, Copy)]
pub struct Out {
    pub to: Stdout,
    pub buffer: [u8; ROOM],
    pub at: usize,
    pub failed: Option<Error>,
    ghost fits: { at ≤ 65536 },
}

impl Out {
    ghost use Rattle.exi_out.specs.Waiting.{room, place_in, waiting_after, buffer_after};

    pub fn new(to: Stdout) -> Out
        ensures to { result.to ≡ to }
        ensures none_waits { result.at ≡ 0 }
        ensures none_failed { result.failed ≡ None }
    {
        Out {
            to,
            buffer: [0; ROOM],
            at: 0,
            failed: None,
        }
    }

    // Writes what waits.
    pub fn flush(&mut self)
        ensures place { self.new.at ≡ 0 }
        ensures buffer { self.new.buffer ≡ self.old.buffer }
    {
        if let Err(e) = self.to.write_all(&self.buffer[..self.at]) {
            self.failed = Some(e);
        }
        self.at = 0;
    }

    // Writes what waits where no octet more would fit.
    fn make_room(&mut self)
        ensures place { self.new.at ≡ place_in room self.old.at }
        ensures room { self.new.at < room }
        ensures buffer { self.new.buffer ≡ self.old.buffer }
    {
        if self.at < ROOM {
            return;
        }
        self.flush();
    }

    pub fn put_octet(&mut self, x: u8)
        ensures place { self.new.at ≡ waiting_after (length self.old.buffer) self.old.at }
        ensures buffer { self.new.buffer ≡ buffer_after self.old.buffer self.old.at x }
    {
        self.make_room();
        self.buffer[self.at] = x;
        self.at += 1;
    }

    // Puts a value's text. A failed write is told by `failed`.
    pub fn put<D: fmt::Display + Drop>(&mut self, value: D) {
        let _ = fmt::Write::write(self, value);
    }
}

impl fmt::Write for Out {
    fn write_str(&mut self, s: &str) -> fmt::Result {
        let octets = s.as_bytes();
        if octets.len() <= ROOM - self.at {
            self.buffer[self.at..self.at + octets.len()].copy_from_slice(octets);
            self.at += octets.len();
            return Ok(());
        }
        for x in octets {
            self.put_octet(*x);
        }
        Ok(())
    }
}

// A number of things, with an s unless it is 1.
#[derive(Clone, Copy)]
pub struct Count<'a>(pub u64, pub &'a str);

impl fmt::Display for Count<'_> {
    fn fmt<W: fmt::Write>(&self, f: &mut fmt::Formatter<W>) -> fmt::Result {
        let Count(n, of) = *self;
        if n == 1 {
            write!(f, "{n} {of}")
        } else {
            write!(f, "{n} {of}s")
        }
    }
}
