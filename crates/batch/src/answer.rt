// The answers, and whether memory is as it has to be after the call.
use crate::kind::Kind;
use exi_out::Out;
use reader::ReadReply;
use settings::SettingNumbers;
use sizes::{CELLS_PER_EVENT, EVENT_CELLS, MAX_STORE, MAX_STREAM, READER_WORK, WRITER_WORK};
use std::fmt;
use writer::WriteReply;

// What memory that is lent is filled with.
const OCTET: u8 = 0xA5;

const CELL: u32 = 0xA5A5A5A5;

// Cells that are lent beyond those that have to be.
const MORE: usize = 3;

fn are_zero(cells: &[u32]) -> bool {
    cells.iter().all(|cell| *cell == 0)
}

// What stands before an item of a list.
fn mark(index: usize) -> char {
    if index == 0 { ' ' } else { ',' }
}

#[derive(Drop)]
struct CodePoints<'a>(&'a [u32]);

impl fmt::Display for CodePoints<'_> {
    fn fmt<W: fmt::Write>(&self, f: &mut fmt::Formatter<W>) -> fmt::Result {
        for (i, code_point) in self.0.iter().enumerate() {
            write!(f, "{}{code_point:x}", mark(i))?;
        }
        Ok(())
    }
}

// An event's cells: a kind, and the place and length of each string.
#[derive(Drop)]
struct Event<'a>(&'a [u32]);

impl Event<'_> {
    // Whether the kind is one, and the cells of strings that it has not are zero.
    fn is_clean(&self) -> bool {
        let Some((number, strings)) = self.0.split_first() else {
            return false;
        };
        let Some(kind) = Kind::with_number(*number) else {
            return false;
        };
        strings
            .chunks_exact(2)
            .zip(kind.strings)
            .all(|(string, is_there)| is_there || are_zero(string))
    }
}

impl fmt::Display for Event<'_> {
    fn fmt<W: fmt::Write>(&self, f: &mut fmt::Formatter<W>) -> fmt::Result {
        let Some((number, strings)) = self.0.split_first() else {
            return Ok(());
        };
        let Some(kind) = Kind::with_number(*number) else {
            return f.write_str("??");
        };
        f.write_str(kind.word)?;
        for (string, is_there) in strings.chunks_exact(2).zip(kind.strings) {
            if is_there {
                for number in string {
                    write!(f, ":{number}")?;
                }
            }
        }
        Ok(())
    }
}

#[derive(Drop)]
struct Events<'a>(&'a [u32]);

impl Events<'_> {
    fn are_clean(&self) -> bool {
        self.0
            .chunks_exact(CELLS_PER_EVENT)
            .all(|cells| Event(cells).is_clean())
    }
}

impl fmt::Display for Events<'_> {
    fn fmt<W: fmt::Write>(&self, f: &mut fmt::Formatter<W>) -> fmt::Result {
        for (i, cells) in self.0.chunks_exact(CELLS_PER_EVENT).enumerate() {
            write!(f, "{}{}", mark(i), Event(cells))?;
        }
        Ok(())
    }
}

// What the reader answered, and the memory that it left.
#[derive(Drop)]
struct ReadAnswer<'a> {
    reply: ReadReply,
    events: &'a [u32],
    text: &'a [u32],
    work: &'a [u32],
}

impl fmt::Display for ReadAnswer<'_> {
    fn fmt<W: fmt::Write>(&self, f: &mut fmt::Formatter<W>) -> fmt::Result {
        write!(f, "{} {}", self.reply.number, self.reply.index)?;
        if self.reply.number != 0 {
            f.write_str(" - -")?;
        }
        let end = (CELLS_PER_EVENT * self.reply.events as usize).min(self.events.len());
        let (cells, after_events) = self.events.split_at(end);
        let end = (self.reply.code_points as usize).min(self.text.len());
        let (code_points, after_text) = self.text.split_at(end);
        write!(f, "{}{}", Events(cells), CodePoints(code_points))?;
        let is_clean = Events(cells).are_clean()
            && code_points.iter().all(|code_point| *code_point != 0)
            && [after_events, after_text, self.work]
                .iter()
                .all(|rest| are_zero(rest));
        f.write_str(if is_clean { "" } else { " DIRTY" })
    }
}

// Calls the reader, and puts its answer.
pub(crate) fn read(out: &mut Out, settings: SettingNumbers, octets: &[u8]) {
    let mut events = [CELL; EVENT_CELLS + MORE];
    let mut text = [CELL; MAX_STORE + MORE];
    let mut work = [CELL; READER_WORK + MORE];
    let reply = reader::read(settings, octets, &mut events, &mut text, &mut work);
    out.put(ReadAnswer {
        reply,
        events: &events,
        text: &text,
        work: &work,
    });
}

// What the writer answered, and the memory that it left.
#[derive(Drop)]
struct WriteAnswer<'a> {
    reply: WriteReply,
    stream: &'a [u8],
    work: &'a [u32],
}

impl fmt::Display for WriteAnswer<'_> {
    fn fmt<W: fmt::Write>(&self, f: &mut fmt::Formatter<W>) -> fmt::Result {
        write!(f, "{} {}", self.reply.number, self.reply.index)?;
        if self.reply.number != 0 {
            f.write_str(" -")?;
        }
        let end = (self.reply.octets as usize).min(self.stream.len());
        let (octets, after) = self.stream.split_at(end);
        if !octets.is_empty() {
            f.write_str(" ")?;
        }
        for octet in octets {
            write!(f, "{octet:02x}")?;
        }
        let is_clean = after.iter().all(|octet| *octet == 0) && are_zero(self.work);
        f.write_str(if is_clean { "" } else { " DIRTY" })
    }
}

// Calls the writer, and puts its answer.
pub(crate) fn write(out: &mut Out, settings: SettingNumbers, events: &[u32], text: &[u32]) {
    let mut stream = [OCTET; MAX_STREAM + MORE];
    let mut work = [CELL; WRITER_WORK + MORE];
    let reply = writer::write(settings, &mut stream, events, text, &mut work);
    out.put(WriteAnswer {
        reply,
        stream: &stream,
        work: &work,
    });
}

// A string that was looked up.
#[derive(Drop)]
pub(crate) struct LookedUp<'a>(pub(crate) &'a [u32]);

impl fmt::Display for LookedUp<'_> {
    fn fmt<W: fmt::Write>(&self, f: &mut fmt::Formatter<W>) -> fmt::Result {
        write!(f, "{}{}", self.0.len(), CodePoints(self.0))
    }
}
