// A request, of the words of a line.
ghost use Rattle.std.specs.Prelude.{◌≤◌};

use crate::kind::Kind;
use arrayvec::ArrayVec;
use settings::SettingNumbers;
use sizes::CELLS_PER_EVENT;

// Room for the octets of a stream, the events of a list and the code points of a store.
pub(crate) const MAX_OCTETS: usize = 20000;

pub(crate) const MAX_EVENTS: usize = 5000;

pub(crate) const MAX_CODE_POINTS: usize = 20000;

// Words of a request at most: a letter, four numbers, six that are named, and two more.
const MAX_WORDS: usize = 13;

// A number that no kind of event has.
const NO_KIND: u32 = 9;

const END_ELEMENT: u32 = 5;

#[derive(Clone, Copy, Debug)]
pub(crate) struct NotUnderstood;

pub(crate) type Result<T> = std::result::Result<T, NotUnderstood>;

// A request: its numbers, and its operands as they are written.
#[derive(Clone, Copy)]
pub(crate) enum Request<'a> {
    Read {
        settings: SettingNumbers,
        octets: &'a str,
    },
    Write {
        settings: SettingNumbers,
        events: &'a str,
        store: &'a str,
    },
    LookUp {
        place: u32,
        length: u32,
        store: &'a str,
    },
}

impl<'a> Request<'a> {
    pub(crate) fn parse(line: &'a str) -> Result<Request<'a>> {
        let mut words = ArrayVec::<&'a str, MAX_WORDS>::new();
        for word in line.split(' ') {
            words.try_push(word).map_err(|_| NotUnderstood)?;
        }
        match words.as_slice() {
            ["r", a, k, c, p, named @ .., octets] => Ok(Request::Read {
                settings: settings([*a, *k, *c, *p], named)?,
                octets: *octets,
            }),
            ["w", a, k, c, p, named @ .., events, store] => Ok(Request::Write {
                settings: settings([*a, *k, *c, *p], named)?,
                events: *events,
                store: *store,
            }),
            ["l", place, length, store] => Ok(Request::LookUp {
                place: number(place, 10)?,
                length: number(length, 10)?,
                store: *store,
            }),
            _ => Err(NotUnderstood),
        }
    }
}

// A number of digits alone; 2^32 - 1 for any that is larger.
fn number(digits: &str, radix: u32) -> Result<u32>
    requires at_least { 2 ≤ radix }
    requires at_most { radix ≤ 36 }
{
    if digits.is_empty() {
        return Err(NotUnderstood);
    }
    let mut n: u32 = 0;
    for c in digits.chars() {
        let digit = c.to_digit(radix).ok_or(NotUnderstood)?;
        n = n.saturating_mul(radix).saturating_add(digit);
    }
    Ok(n)
}

// The settings by their numbers, and those that are named, each at most once and in their order. A
// bound is handed over as one more.
fn settings(numbers: [&str; 4], named: &[&str]) -> Result<SettingNumbers> {
    let mut s = SettingNumbers {
        alignment: number(numbers[0], 10)?,
        cookie: number(numbers[1], 10)?,
        comments: number(numbers[2], 10)?,
        instructions: number(numbers[3], 10)?,
        fragment: 0,
        value_length: 0,
        value_capacity: 0,
        loose: 0,
        prefixes: 0,
        grammar_cap: 0,
    };
    let mut names = ["fragment", "vmax", "vcap", "loose", "prefixes", "cap"].iter();
    for word in named {
        let (name, digits) = word.split_once('=').ok_or(NotUnderstood)?;
        if !names.any(|n| *n == name) {
            return Err(NotUnderstood);
        }
        let n = number(digits, 10)?;
        match name {
            "fragment" => s.fragment = n,
            "vmax" => s.value_length = n.saturating_add(1),
            "vcap" => s.value_capacity = n.saturating_add(1),
            "loose" => s.loose = n,
            "prefixes" => s.prefixes = n,
            _ => s.grammar_cap = n.saturating_add(1),
        }
    }
    Ok(s)
}

// The octets that pairs of digits mean; none where a dash stands for them.
pub(crate) fn octets<'a>(word: &str, room: &'a mut [u8]) -> Result<&'a [u8]> {
    if word == "-" {
        return Ok(&[]);
    }
    let room = room.get_mut(..word.len() / 2).ok_or(NotUnderstood)?;
    if room.is_empty() {
        return Err(NotUnderstood);
    }
    hex::decode_to_slice(word, room).map_err(|_| NotUnderstood)?;
    Ok(room)
}

// Items with commas between, as many as there is room for; none where a dash stands for them.
pub(crate) fn code_points<'a>(word: &str, room: &'a mut [u32]) -> Result<&'a [u32]> {
    if word == "-" {
        return Ok(&[]);
    }
    let room = room
        .get_mut(..word.split(',').count())
        .ok_or(NotUnderstood)?;
    for (code_point, item) in room.iter_mut().zip(word.split(',')) {
        *code_point = number(item, 16)?;
    }
    Ok(room)
}

// Events, as the cells that they are stored in.
pub(crate) fn cells<'a>(word: &str, room: &'a mut [u32]) -> Result<&'a [u32]> {
    if word == "-" {
        return Ok(&[]);
    }
    let count = word.split(',').count();
    if MAX_EVENTS < count {
        return Err(NotUnderstood);
    }
    let room = room
        .get_mut(..CELLS_PER_EVENT * count)
        .ok_or(NotUnderstood)?;
    let (rows, _) = room.as_chunks_mut::<CELLS_PER_EVENT>();
    for (row, item) in rows.iter_mut().zip(word.split(',')) {
        *row = event(item)?;
    }
    Ok(room)
}

// An event: its word, and two numbers for each string.
fn event(item: &str) -> Result<[u32; CELLS_PER_EVENT]> {
    let mut parts = item.split(':');
    let word = parts.next().unwrap_or("").trim_start_matches('0');
    let mut cells = [0; CELLS_PER_EVENT];
    if word.eq_ignore_ascii_case("BAD") {
        cells[0] = NO_KIND;
    } else if word.eq_ignore_ascii_case("BAD2") {
        cells[0] = END_ELEMENT;
        cells[CELLS_PER_EVENT - 1] = 1;
    } else {
        let kind = Kind::with_word(word).ok_or(NotUnderstood)?;
        cells[0] = kind.number;
        let (strings, _) = cells[1..].as_chunks_mut::<2>();
        for (string, is_there) in strings.iter_mut().zip(kind.strings) {
            if is_there {
                let place = parts.next().ok_or(NotUnderstood)?;
                let length = parts.next().ok_or(NotUnderstood)?;
                *string = [number(place, 10)?, number(length, 10)?];
            }
        }
    }
    match parts.next() {
        None => Ok(cells),
        Some(_) => Err(NotUnderstood),
    }
}
