// The command line: `exi show FILE..` prints the events of streams, `exi check FILE..` says whether
// the reader accepts them, `exi readings FILE` prints a stream's readings as CSV, and `exi
// write-readings CSV OUT` writes the stream of such a table. Its exit status is 0 however it went,
// which standard error tells: it is empty where all is accepted or written; each line that begins
// with `exi: refused:` is a stream or a table that is refused, one with two spaces tells more of
// the line before, and any other one is of something that was not read or written. The script `exi`
// turns that into a status.
#![tactic(auto)]

mod pieces;
mod run;
mod stream;
mod tries;
mod write;

use exi_asked::{Fault, FileWords};
use exi_words::Word;
use std::io::{Stderr, Stdout};

// The command on the words after it, unless they ask for help.
fn answer(rt: &HostRuntime, out: Stdout, err: Stderr, command: Option<Word>, count: usize) {
    let mut files = FileWords::new();
    let asked = exi_asked::read_words(rt, count, &mut files);
    let asks_help = match &asked {
        Ok(asked) => asked.help,
        Err(_) => false,
    };
    match command {
        _ if asks_help => exi_usage::usage(out, err),
        Some(Word::Help | Word::H | Word::HelpWord) => exi_usage::usage(out, err),
        Some(word @ (Word::Show | Word::Check | Word::Readings | Word::WriteReadings)) =>
            match asked {
                Ok(asked) => run::ask(rt, out, err, word, &asked, files.as_slice()),
                Err(wrong) => exi_usage::wrong(err, rt, wrong),
            },
        _ => exi_usage::wrong_word(err, rt, 1, Fault::Unknown),
    }
}

fn main(rt: HostRuntime) {
    let out = rt.stdout();
    let err = rt.stderr();
    let count = exi_words::count(&rt);
    if count < 2 {
        exi_usage::hint(err);
        return;
    }
    let mut room = io::buffer();
    let command = Word::named(exi_words::word_at(&rt, 1, &mut room));
    answer(&rt, out, err, command, count);
}
