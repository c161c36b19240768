// A command on what the words after it ask for.
use crate::stream::Judge;
use crate::write::Target;
use exi_asked::Asked;
use exi_verdict::Task;
use exi_words::Word;
use sizes::MAX_STREAM;
use std::env::{Env, FillError};
use std::fs::Files;
use std::io::{Error, Input, Stderr, Stdout};
use std::str;

// The system's numbers of a word that is not there, and of a name that is too long.
const EINVAL: i32 = 22;

const ENAMETOOLONG: i32 = 36;

// Why a word is not read.
fn reason(e: FillError) -> Error {
    match e {
        FillError::NotPresent => Error::from_raw_os_error(EINVAL),
        FillError::TooLong => Error::from_raw_os_error(ENAMETOOLONG),
    }
}

// A command that reads streams.
#[derive(Clone, Copy)]
struct Command {
    out: Stdout,
    err: Stderr,
    task: Task,
    // readings are printed, with milliseconds or stamps
    readings: Option<bool>,
    several: bool,
}

impl Command {
    fn answer_stream(&self, file: Option<&str>, stream: &[u8]) {
        let mut judge = Judge::new(self.out, self.err, self.task, file, stream);
        match self.readings {
            Some(in_ms) => judge.print_readings(in_ms),
            None => judge.print_verdict(),
        }
    }

    // Takes one octet more than a stream may have, so that the reader itself refuses a longer one.
    fn answer_file<R: Files + Input>(&self, rt: &R, name: &[u8]) {
        let mut octets = [0u8; MAX_STREAM + 1];
        match exi_files::read(rt, name, &mut octets) {
            Ok(n) => {
                let file = str::from_utf8(name).ok().filter(|_| self.several);
                self.answer_stream(file, &octets[..n]);
            }
            Err(e) => exi_usage::unread(self.err, name, e),
        }
    }

    // The command on the file that a word names.
    fn answer_word<R: Env + Files + Input>(&self, rt: &R, at: usize) {
        let mut name = io::buffer();
        match rt.arg(at, &mut name) {
            Ok(n) => self.answer_file(rt, &name[..n]),
            Err(e) => exi_usage::unread(self.err, b"the name of FILE", reason(e)),
        }
    }
}

// Whether a word stands for standard input.
fn is_input<E: Env>(env: &E, at: usize) -> bool {
    let mut room = [0u8; 2];
    exi_files::is_standard(exi_words::word_at(env, at, &mut room))
}

// Whether more than one of the files is standard input.
fn reads_input_twice<E: Env>(env: &E, files: &[u16]) -> bool {
    let mut seen = false;
    for at in files {
        if is_input(env, usize::from(*at)) {
            if seen {
                return true;
            }
            seen = true;
        }
    }
    false
}

fn write_readings<R: Env + Files + Input>(
    rt: &R,
    out: Stdout,
    err: Stderr,
    a: &Asked,
    files: &[u16],
) {
    let [first, second] = *files else {
        return;
    };
    let mut csv = io::buffer();
    let n = match rt.arg(usize::from(first), &mut csv) {
        Ok(n) => n,
        Err(e) => {
            exi_usage::unread(err, b"the name of CSV", reason(e));
            return;
        }
    };
    let mut name = io::buffer();
    let m = match rt.arg(usize::from(second), &mut name) {
        Ok(m) => m,
        Err(e) => {
            exi_usage::unread(err, b"the name of OUT", reason(e));
            return;
        }
    };
    let target = Target {
        out,
        err,
        settings: exi_asked::settings_of(a),
        name: &name[..m],
    };
    target.write_file(rt, &csv[..n]);
}

// The command, where its words fit.
pub(crate) fn ask<R: Env + Files + Input>(
    rt: &R,
    out: Stdout,
    err: Stderr,
    word: Word,
    a: &Asked,
    files: &[u16],
) {
    if let Err(what) = exi_fit::check(word, a, files.len()) {
        exi_usage::complain(err, what);
        return;
    }
    if word == Word::WriteReadings {
        write_readings(rt, out, err, a, files);
        return;
    }
    if reads_input_twice(rt, files) {
        exi_usage::complain(err, "FILE is - for standard input once alone");
        return;
    }
    let task = Task {
        settings: exi_asked::settings_of(a),
        shows: word == Word::Show,
        utf8: a.utf8,
        packet: a.packets.map(|n| n as usize),
    };
    let readings = if word == Word::Readings {
        Some(a.ms)
    } else {
        None
    };
    let command = Command {
        out,
        err,
        task,
        readings,
        several: files.len() != 1,
    };
    for at in files {
        command.answer_word(rt, usize::from(*at));
    }
}
