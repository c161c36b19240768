// Refusals in words, on standard error: a line for each, which begins with `exi: refused:`.
#![tactic(auto)]

ghost use Rattle.std.specs.Prelude.{◌≡◌, ◌<◌, IfSome, IsNone};
ghost use Rattle.refusal.specs.Numbers.{number_in};

use refusal::Refusal;
use std::io::{Print, Stderr};
use std::{fmt, str};

// What cannot be told is left out.
pub fn tell<D: fmt::Display + Drop>(err: Stderr, text: D) {
    let _ = err.print(text);
}

// The refusal with this number; 0 is that of none.
pub fn refusal_of(number: u32) -> Option<Refusal>
    ensures { IfSome result (λ r. number_in r ≡ number) }
{
    let refusal = match number {
        refusal::ROOM => Refusal::Room,
        refusal::SETTINGS => Refusal::Settings,
        refusal::LONG => Refusal::Long,
        refusal::HEADER => Refusal::Header,
        refusal::ENDED => Refusal::Ended,
        refusal::CODE => Refusal::Code,
        refusal::NUMBER => Refusal::Number,
        refusal::CHARACTER => Refusal::Character,
        refusal::REFERENCE => Refusal::Reference,
        refusal::LOOSE => Refusal::Loose,
        refusal::NAME => Refusal::Name,
        refusal::LIMIT => Refusal::Limit,
        refusal::TAIL => Refusal::Tail,
        refusal::SHAPE => Refusal::Shape,
        refusal::PLACE => Refusal::Place,
        refusal::STRUCTURE => Refusal::Structure,
        refusal::BAD_STAMP => Refusal::BadStamp,
        refusal::BAD_MOVEMENT => Refusal::BadMovement,
        refusal::NOT_LATER => Refusal::NotLater,
        _ => return None,
    };
    Some(refusal)
}

// What a refusal means, in a sentence.
fn meaning(refusal: Refusal) -> &'static str {
    match refusal {
        Refusal::Room => "a part of the memory that is lent is too short",
        Refusal::Settings => "a settings number has no meaning",
        Refusal::Long => "the stream has more than 16384 octets",
        Refusal::Header => "an octet differs from the header that the flags ask for",
        Refusal::Ended => "the stream ends inside the header or a field",
        Refusal::Code => "a part of an event code names no production",
        Refusal::Number => {
            "an Unsigned Integer is not in fewest octets, over 5 octets or above 2147483647"
        }
        Refusal::Character => {
            "no XML 1.0 Char, a comment with -- or a last -, or an instruction's text with ?>"
        }
        Refusal::Reference => "the number of a URI, a name or a value names no entry",
        Refusal::Loose => {
            "a literal, a hit or a production stands where the strict form has another"
        }
        Refusal::Name => {
            "no XML name without a colon, a target xml in any case, attribute xsi:nil or xsi:type"
        }
        Refusal::Limit => "a table, a string or a count would pass its fixed size",
        Refusal::Tail => "a pad bit is 1, or octets follow the end",
        Refusal::Shape => {
            "a start tag has two attributes of one name, or events break a list's rules"
        }
        Refusal::Place => "a string lies outside its store",
        Refusal::Structure => {
            "not the root readings, its children r, and their attributes t and um alone"
        }
        Refusal::BadStamp => "no stamp YYYY-MM-DDThh:mm:ss.mmmZ of the years 2000 to 2099",
        Refusal::BadMovement => {
            "no whole micrometres from -20000 to 20000, or with a plus, a leading zero or as -0"
        }
        Refusal::NotLater => "the stamp is not later than the one before",
    }
}

// What a line of CSV is refused for. Of the sizes readings can pass that of the text store alone.
fn meaning_of_line(refusal: Refusal) -> &'static str {
    match refusal {
        Refusal::Limit => "with this reading the text store would have over 16384 code points",
        Refusal::Structure => "not two fields with a comma between them",
        Refusal::BadStamp => {
            "no stamp YYYY-MM-DDThh:mm:ss.mmmZ of 2000 to 2099, nor 0 to 3155759999999 ms"
        }
        _ => meaning(refusal),
    }
}

// A refusal's number and name.
#[derive(Clone, Copy)]
struct Numbered(Refusal);

impl fmt::Display for Numbered {
    fn fmt<W: fmt::Write>(&self, f: &mut fmt::Formatter<W>) -> fmt::Result {
        let number = self.0.number();
        let name = refusal::name_of(number).text;
        match str::from_utf8(&name) {
            Ok(name) => write!(f, "{number} {}", name.trim_end_matches('\0')),
            Err(_) => write!(f, "{number} "),
        }
    }
}

// What is counted where a refusal is of one: of a stream events, of what is in it readings.
fn counted(refusal: Refusal) -> &'static str {
    match refusal {
        Refusal::Structure | Refusal::BadStamp | Refusal::BadMovement | Refusal::NotLater => {
            "reading"
        }
        _ => "event",
    }
}

// What a stream, of a file with this name, or its readings are refused for.
pub fn refused(err: Stderr, file: Option<&str>, refusal: Refusal, index: u32) {
    tell(err, "exi: refused: ");
    if let Some(file) = file {
        tell(err, format_args!("{file}: "));
    }
    let (counted, meaning) = (counted(refusal), meaning(refusal));
    let refusal = Numbered(refusal);
    tell(
        err,
        format_args!("{refusal}, {counted} {index}: {meaning}\n"),
    );
}

// What a whole stream is refused for.
pub fn refused_whole(err: Stderr, refusal: Refusal) {
    let meaning = meaning(refusal);
    let refusal = Numbered(refusal);
    tell(err, format_args!("exi: refused: {refusal}: {meaning}\n"));
}

// Lines are counted from 1.
fn line(err: Stderr, refusal: Refusal, at: usize, meaning: &str) {
    let refusal = Numbered(refusal);
    tell(
        err,
        format_args!("exi: refused: {refusal}, line {at}: {meaning}\n"),
    );
}

// A line of CSV, by the readings before it. The first line has the names.
pub fn refused_line(err: Stderr, refusal: Refusal, index: usize) {
    line(
        err,
        refusal,
        index.saturating_add(2),
        meaning_of_line(refusal),
    );
}

pub fn refused_names(err: Stderr) {
    line(err, Refusal::Structure, 1, "neither t,um nor ms,um");
}
