// Words that do not fit each other: what is said of them.
#![tactic(auto)]

use exi_asked::Asked;
use exi_words::Word;

// What is wrong of flags that are understood one by one.
fn misfit(command: Word, a: &Asked) -> Result<(), &'static str> {
    if a.bit_packed && a.byte_aligned {
        return Err("--bit-packed and --byte-aligned exclude each other");
    }
    if a.ms && command != Word::Readings {
        return Err("--ms goes with exi readings alone");
    }
    if a.utf8 && command != Word::Show {
        return Err("--utf8 goes with exi show alone");
    }
    match a.packets {
        Some(_) if command != Word::Check => Err("--packets goes with exi check alone"),
        Some(0) => Err("a packet has at least 1 octet"),
        _ => Ok(()),
    }
}

// How many files are named, against how many there should be.
fn miscount(command: Word, files: usize) -> Result<(), &'static str> {
    match (command, files) {
        (Word::WriteReadings, 2) => Ok(()),
        (Word::WriteReadings, _) => Err("write-readings wants CSV and OUT"),
        (_, 0) => Err("no FILE is named"),
        (Word::Readings, 1) => Ok(()),
        (Word::Readings, _) => Err("readings wants one FILE"),
        _ => Ok(()),
    }
}

// An error says what is wrong of the words after a command.
pub fn check(command: Word, a: &Asked, files: usize) -> Result<(), &'static str> {
    misfit(command, a)?;
    miscount(command, files)
}
