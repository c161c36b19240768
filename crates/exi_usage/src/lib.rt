// What the program says of its words, and of files that it cannot read or write: lines on standard
// error that begin with `exi:` and not with `exi: refused:`.
#![tactic(auto)]

use arrayvec::ArrayString;
use exi_asked::{Fault, Wrong};
use exi_say::tell;
use std::env::Env;
use std::fmt;
use std::fmt::Write;
use std::io::{Error, Print, Stderr, Stdout};

// The system's text for a reason, without the number that the library puts behind it.
#[derive(Drop)]
struct Reason(Error);

impl fmt::Display for Reason {
    fn fmt<W: fmt::Write>(&self, f: &mut fmt::Formatter<W>) -> fmt::Result {
        let reason = self.0;
        let mut text = ArrayString::<512>::new();
        write!(text, "{reason}")?;
        match text.as_str().split_once(" (os error ") {
            Some((before, _)) => f.write_str(before),
            None => f.write_str(text.as_str()),
        }
    }
}

// A name or a word as it is; it need not be text.
fn tell_octets(err: Stderr, octets: &[u8]) {
    let _ = err.write_all(octets);
}

pub fn unwritten(err: Stderr, what: &[u8], reason: Error) {
    tell(err, "exi: cannot write ");
    tell_octets(err, what);
    tell(err, format_args!(": {}\n", Reason(reason)));
}

pub fn unread(err: Stderr, what: &[u8], reason: Error) {
    tell(err, "exi: cannot read ");
    tell_octets(err, what);
    tell(err, format_args!(": {}\n", Reason(reason)));
}

// A complaint, and where help is.
pub fn complain(err: Stderr, what: &str) {
    tell(
        err,
        format_args!("exi: {what}; exi --help tells the words\n"),
    );
}

// The word with this number, the command being 1. One of more than 4096 octets is left out.
pub fn wrong_word<E: Env>(err: Stderr, env: &E, at: usize, fault: Fault) {
    let is = match fault {
        Fault::Unknown => "is not understood",
        Fault::NoNumber => "is no number of 1 to 9 digits",
        Fault::TooMany => "is one word too many",
    };
    tell(err, format_args!("exi: word {at} {is}: "));
    let mut word = io::buffer();
    if let Ok(n) = env.arg(at, &mut word) {
        tell_octets(err, &word[..n]);
    }
    tell(err, "; exi --help tells the words\n");
}

// Why words are not understood.
pub fn wrong<E: Env>(err: Stderr, env: &E, wrong: Wrong) {
    match wrong {
        Wrong::Word(at, fault) => wrong_word(err, env, at, fault),
        Wrong::Unfinished => complain(err, "no number follows the last flag"),
    }
}

// What a call without words gets.
pub fn hint(err: Stderr) {
    tell(
        err,
        "exi: no command: it is show, check, readings, write-readings or plot
  exi show FILE prints the events of a stream, exi check FILE whether it is accepted
  exi --help tells the rest
",
    );
}

// What help prints, on standard output.
pub fn usage(out: Stdout, err: Stderr) {
    let written = out.write_all(
        b"Reads EXI 1.0 streams without a schema, in strict form.

  exi show [FLAG..] FILE..  prints the events, one a line, and what the stream has;
                            of a stream that is refused, the events before the fault
  exi check [FLAG..] [--packets N] FILE..
                            says what the stream has, or why it is refused; with
                            --packets it is read in pieces of N octets
  exi readings [FLAG..] [--ms] FILE
                            prints the readings as CSV, t,um: stamps and movements
                            in micrometres; with --ms ms,um: milliseconds since
                            2000-01-01T00:00:00.000Z in place of the stamps
  exi write-readings [FLAG..] CSV OUT
                            writes the stream of the readings in CSV, either form
  exi help, --help, -h      prints this
  exi --version             prints the repository's commit and the kit
  exi --build               proves and builds this program again

FILE and CSV are - for standard input, OUT is - for standard output. Flags stand
before or after them, but not after --, and say how the stream is written:

  --bit-packed      fields follow each other bit by bit; the default
  --byte-aligned    each field is whole octets
  --cookie          the stream begins with $EXI
  --comments        comments are kept
  --instructions    processing instructions are kept
  --fragment        elements in any number stand in the place of one root
  --max-length N    values of more than N code points join no table
  --capacity N      at most N values, 0 to 2048, stay in the tables; the oldest go

and how it is shown:

  --utf8            code points in UTF-8, not as \\u{..}

Status 0: each stream is accepted, or written. 1: a stream or CSV is refused, and standard
error has number, name, event, reading or line, and reason, then lines that begin with two
spaces. 2: something was not read or written, or a word is not understood.
",
    );
    if let Err(e) = written {
        unwritten(err, b"standard output", e);
    }
}
