// What the words after the command ask for.
#![tactic(auto)]

ghost use Rattle.std.specs.Prelude.{◌≡◌};
ghost use Rattle.exi_asked.specs.Asked.{bound_of, numbers_of};

use arrayvec::ArrayVec;
use exi_words::Word;
use settings::SettingNumbers;
use std::env::Env;

// A file is the word with a number below this one.
const MOST_WORDS: usize = 65536;

// The numbers of the words that name files, in memory that is fixed, so that it cannot run out.
pub type FileWords = ArrayVec<u16, MOST_WORDS>;

// The flags that are given, with their numbers.
#[derive(Clone, Copy)]
pub struct Asked {
    pub bit_packed: bool,
    pub byte_aligned: bool,
    pub cookie: bool,
    pub comments: bool,
    pub instructions: bool,
    pub fragment: bool,
    pub max_length: Option<u32>,
    pub capacity: Option<u32>,
    pub packets: Option<u32>,
    pub ms: bool,
    pub utf8: bool,
    pub help: bool,
}

// What is wrong of a word.
#[derive(Clone, Copy, Debug, PartialEq, Eq)]
pub enum Fault {
    Unknown,
    NoNumber,
    TooMany,
}

// Why words are not understood.
#[derive(Clone, Copy, Debug, PartialEq, Eq)]
pub enum Wrong {
    // The word with this number; the command has 1.
    Word(usize, Fault),
    // A number has to follow the last flag.
    Unfinished,
}

// A flag that a number has to follow.
#[derive(Clone, Copy)]
enum Numbered {
    MaxLength,
    Capacity,
    Packets,
}

// What is asked for so far, and what the next word has to be.
#[derive(Drop)]
struct Reading<'a> {
    asked: Asked,
    files: &'a mut FileWords,
    waiting: Option<Numbered>,
    only_files: bool,
}

impl Reading<'_> {
    fn put_number(&mut self, flag: Numbered, n: u32) {
        self.waiting = None;
        match flag {
            Numbered::MaxLength => self.asked.max_length = Some(n),
            Numbered::Capacity => self.asked.capacity = Some(n),
            Numbered::Packets => self.asked.packets = Some(n),
        }
    }

    // Answers whether a word that has a meaning is a flag.
    fn put_flag(&mut self, flag: Word) -> bool {
        match flag {
            Word::BitPacked => self.asked.bit_packed = true,
            Word::ByteAligned => self.asked.byte_aligned = true,
            Word::Cookie => self.asked.cookie = true,
            Word::Comments => self.asked.comments = true,
            Word::Instructions => self.asked.instructions = true,
            Word::Fragment => self.asked.fragment = true,
            Word::MaxLength => self.waiting = Some(Numbered::MaxLength),
            Word::Capacity => self.waiting = Some(Numbered::Capacity),
            Word::Packets => self.waiting = Some(Numbered::Packets),
            Word::Ms => self.asked.ms = true,
            Word::Utf8 => self.asked.utf8 = true,
            Word::Help | Word::H => self.asked.help = true,
            Word::End => self.only_files = true,
            Word::Show | Word::Check | Word::Readings | Word::WriteReadings | Word::HelpWord => {
                return false;
            }
        }
        true
    }

    fn put_file(&mut self, at: usize) -> Result<(), Wrong> {
        let too_many = Wrong::Word(at, Fault::TooMany);
        let file = u16::try_from(at).map_err(|_| too_many)?;
        self.files.try_push(file).map_err(|_| too_many)
    }

    fn put_word(&mut self, word: &[u8], at: usize) -> Result<(), Wrong> {
        if let Some(flag) = self.waiting {
            let n = exi_words::number_of(word).ok_or(Wrong::Word(at, Fault::NoNumber))?;
            self.put_number(flag, n);
            return Ok(());
        }
        if self.only_files {
            return self.put_file(at);
        }
        if let Some(flag) = Word::named(word) {
            if self.put_flag(flag) {
                return Ok(());
            }
        }
        if exi_words::is_option(word) {
            return Err(Wrong::Word(at, Fault::Unknown));
        }
        self.put_file(at)
    }
}

fn nothing() -> Asked {
    Asked {
        bit_packed: false,
        byte_aligned: false,
        cookie: false,
        comments: false,
        instructions: false,
        fragment: false,
        max_length: None,
        capacity: None,
        packets: None,
        ms: false,
        utf8: false,
        help: false,
    }
}

// What the words from the second on ask for, up to the first that is wrong or asks for help. The
// files that they name are added.
pub fn read_words<E: Env>(env: &E, count: usize, files: &mut FileWords) -> Result<Asked, Wrong> {
    let mut reading = Reading {
        asked: nothing(),
        files,
        waiting: None,
        only_files: false,
    };
    let mut room = io::buffer();
    for at in 2..count {
        reading.put_word(exi_words::word_at(env, at, &mut room), at)?;
        if reading.asked.help {
            return Ok(reading.asked);
        }
    }
    match reading.waiting {
        Some(_) => Err(Wrong::Unfinished),
        None => Ok(reading.asked),
    }
}

// A bound as the settings have it: 0 for none, else one more than it.
fn bound(n: Option<u32>) -> u32
    ensures { result ≡ bound_of n }
{
    match n {
        None => 0,
        Some(n) => n.wrapping_add(1),
    }
}

// The settings that the flags mean. What has no flag is at its base.
pub fn settings_of(a: &Asked) -> SettingNumbers
    ensures { result ≡ numbers_of a.now }
{
    SettingNumbers {
        alignment: u32::from(a.byte_aligned),
        cookie: u32::from(a.cookie),
        comments: u32::from(a.comments),
        instructions: u32::from(a.instructions),
        fragment: u32::from(a.fragment),
        value_length: bound(a.max_length),
        value_capacity: bound(a.capacity),
        loose: 0,
        prefixes: 0,
        grammar_cap: 0,
    }
}

#[cfg(test)]
mod tests {
    use super::*;
    use std::env::FillError;
    use std::test::Fail;

    #[derive(Clone, Copy)]
    struct Line(&'static [&'static str]);

    impl Env for Line {
        fn arg(&self, i: usize, buf: &mut [u8]) -> Result<usize, FillError> {
            let word = self.0.get(i).ok_or(FillError::NotPresent)?.as_bytes();
            if buf.len() < word.len() {
                return Err(FillError::TooLong);
            }
            buf[..word.len()].copy_from_slice(word);
            Ok(word.len())
        }

        fn var(&self, _name: &str, _buf: &mut [u8]) -> Result<usize, FillError> {
            Err(FillError::NotPresent)
        }

        fn var_at(&self, _i: usize, _buf: &mut [u8]) -> Result<usize, FillError> {
            Err(FillError::NotPresent)
        }
    }

    #[test]
    fn words_after_a_command(rt: HostRuntime) -> Result<(), Fail> {
        let line = Line(&[
            "exi",
            "check",
            "a",
            "--capacity",
            "7",
            "--cookie",
            "--",
            "--utf8",
        ]);
        let mut files = FileWords::new();
        let Ok(asked) = read_words(&line, 8, &mut files) else {
            return Err(Fail::from("not understood"));
        };
        assert_eq!(rt; files.as_slice(), [2, 7].as_slice());
        let settings = settings_of(&asked);
        assert_eq!(rt; (settings.cookie, settings.value_capacity), (1, 8));
        assert_eq!(rt; (settings.alignment, settings.value_length), (0, 0));
        Ok(())
    }

    #[test]
    fn words_that_are_wrong(rt: HostRuntime) {
        for (line, wrong) in [
            (
                Line(&["exi", "check", "-x"]),
                Wrong::Word(2, Fault::Unknown),
            ),
            (
                Line(&["exi", "check", "--packets", "x"]),
                Wrong::Word(3, Fault::NoNumber),
            ),
            (Line(&["exi", "check", "a", "--packets"]), Wrong::Unfinished),
        ] {
            let count = exi_words::count(&line);
            let mut files = FileWords::new();
            assert_eq!(rt; read_words(&line, count, &mut files).err(), Some(wrong));
        }
    }
}
