// The words of the command line: those that have a meaning, and numbers. The definitions that the
// contracts cite are in specs/Words.antt.
#![tactic(auto)]

ghost use Rattle.std.specs.Prelude.{◌≡◌, ◌≤◌, length};
ghost use Rattle.exi_words.specs.Words.{name_of, named, is_option, is_digit, number_in};

use std::env::{Env, FillError};

// A word that has a meaning: the flags, and then the commands.
#[derive(Clone, Copy, Debug, PartialEq, Eq)]
pub enum Word {
    BitPacked,
    ByteAligned,
    Cookie,
    Comments,
    Instructions,
    Fragment,
    MaxLength,
    Capacity,
    Packets,
    Ms,
    Utf8,
    Help,
    H,
    End,
    Show,
    Check,
    Readings,
    WriteReadings,
    HelpWord,
}

impl Word {
    const ALL: [Word; 19] = [
        Word::BitPacked,
        Word::ByteAligned,
        Word::Cookie,
        Word::Comments,
        Word::Instructions,
        Word::Fragment,
        Word::MaxLength,
        Word::Capacity,
        Word::Packets,
        Word::Ms,
        Word::Utf8,
        Word::Help,
        Word::H,
        Word::End,
        Word::Show,
        Word::Check,
        Word::Readings,
        Word::WriteReadings,
        Word::HelpWord,
    ];

    fn name(self) -> &'static [u8]
        ensures { result.now ≡ name_of self }
    {
        match self {
            Word::BitPacked => b"--bit-packed",
            Word::ByteAligned => b"--byte-aligned",
            Word::Cookie => b"--cookie",
            Word::Comments => b"--comments",
            Word::Instructions => b"--instructions",
            Word::Fragment => b"--fragment",
            Word::MaxLength => b"--max-length",
            Word::Capacity => b"--capacity",
            Word::Packets => b"--packets",
            Word::Ms => b"--ms",
            Word::Utf8 => b"--utf8",
            Word::Help => b"--help",
            Word::H => b"-h",
            Word::End => b"--",
            Word::Show => b"show",
            Word::Check => b"check",
            Word::Readings => b"readings",
            Word::WriteReadings => b"write-readings",
            Word::HelpWord => b"help",
        }
    }

    // The word with this name.
    pub fn named(name: &[u8]) -> Option<Word>
        ensures { result ≡ named name.now }
    {
        for word in Word::ALL {
            if word.name() == name {
                return Some(word);
            }
        }
        None
    }
}

// Whether a word asks for something that is no file: it begins with `-`, and more follows.
pub fn is_option(word: &[u8]) -> bool
    ensures { result ≡ is_option word.now }
{
    1 < word.len() && word[0] == b'-'
}

// How many words the command line has, the program's own name among them.
pub fn count<E: Env>(env: &E) -> usize {
    let mut first = [0u8; 1];
    for i in 0..usize::MAX {
        if let Err(FillError::NotPresent) = env.arg(i, &mut first) {
            return i;
        }
    }
    usize::MAX
}

// A word of the command line, as much of it as there is room for; none of it where it is not there.
pub fn word_at<'a, E: Env>(env: &E, i: usize, room: &'a mut [u8]) -> &'a [u8]
    ensures { length result.now ≤ length room.old }
{
    match env.arg(i, room) {
        Ok(n) => &room[..n],
        Err(FillError::TooLong) => room,
        Err(FillError::NotPresent) => &room[..0],
    }
}

fn is_digit(c: u8) -> bool
    ensures { result ≡ is_digit c }
{
    b'0' <= c && c <= b'9'
}

// The number that a word is: 1 to 9 digits.
pub fn number_of(word: &[u8]) -> Option<u32>
    ensures { result ≡ number_in word.now }
{
    if word.is_empty() || 9 < word.len() {
        return None;
    }
    let mut n: u32 = 0;
    for c in word {
        let digit = *c;
        if !is_digit(digit) || 99_999_999 < n {
            return None;
        }
        n = 10 * n + (digit - b'0') as u32;
    }
    Some(n)
}
