// Answers requests to the reader and the writer, a line of standard input each, words separated by
// one space:
//
//     r A K C P HEX            reads the octets HEX
//     w A K C P EVENTS STORE   writes the events EVENTS over the text store STORE
//     l PLACE LENGTH STORE     looks a string up
//     # ..                     is written out as it is
//
// A, K, C and P are the settings' numbers: alignment, cookie, comments, instructions. Behind them
// the other settings may be named, in this order: fragment=N vmax=N vcap=N loose=N prefixes=N
// cap=N; vmax, vcap and cap are bounds. HEX has two hexadecimal digits for each octet. STORE has
// code points in hexadecimal, with commas between. EVENTS has events with commas between: SD, ED,
// EE, SE, AT, CH, CM, PI, each with `:place:length` for each of its strings, in decimal; BAD is a
// stored event of no kind, BAD2 a stored end element with data. `-` stands for nothing. There is
// room for 65,535 octets of a line, 20,000 octets, 5,000 events and 20,000 code points.
//
// The answers are `NUMBER INDEX EVENTS STORE`, `NUMBER INDEX HEX`, and a string's length and code
// points; `?` to any other line. Before each call all memory that is lent for writing is filled
// with the octet A5, and is 3 cells longer than it has to be. An answer ends with DIRTY where a
// cell that has to be zero is not, or where the cells are not what a count says.
#![tactic(auto)]

mod answer;
mod kind;
mod lines;
mod request;

use answer::LookedUp;
use exi_out::Out;
use request::{MAX_CODE_POINTS, MAX_EVENTS, MAX_OCTETS, Request};
use settings::SettingNumbers;
use sizes::CELLS_PER_EVENT;
use std::io::Print;
use std::str;

// Octets of a line, its end too.
const MAX_LINE: usize = 65536;

fn answer_read(out: &mut Out, settings: SettingNumbers, octets: &str) -> request::Result<()> {
    let mut room = [0; MAX_OCTETS];
    answer::read(out, settings, request::octets(octets, &mut room)?);
    Ok(())
}

fn answer_write(
    out: &mut Out,
    settings: SettingNumbers,
    events: &str,
    store: &str,
) -> request::Result<()> {
    let mut cells = [0; CELLS_PER_EVENT * MAX_EVENTS];
    let mut code_points = [0; MAX_CODE_POINTS];
    let events = request::cells(events, &mut cells)?;
    let store = request::code_points(store, &mut code_points)?;
    answer::write(out, settings, events, store);
    Ok(())
}

fn answer_look_up(out: &mut Out, place: u32, length: u32, store: &str) -> request::Result<()> {
    let mut code_points = [0; MAX_CODE_POINTS];
    let store = request::code_points(store, &mut code_points)?;
    out.put(LookedUp(text::look_up(store, place, length)));
    Ok(())
}

// Puts the answer to a request.
fn respond(out: &mut Out, line: &[u8]) -> request::Result<()> {
    let words = str::from_utf8(line).map_err(|_| request::NotUnderstood)?;
    match Request::parse(words)? {
        Request::Read { settings, octets } => answer_read(out, settings, octets),
        Request::Write {
            settings,
            events,
            store,
        } => answer_write(out, settings, events, store),
        Request::LookUp {
            place,
            length,
            store,
        } => answer_look_up(out, place, length, store),
    }
}

// Ends at the first line that is not whole. What cannot be written is left out.
fn main(rt: HostRuntime) {
    let stdout = rt.stdout();
    let input = rt.stdin();
    let mut out = Out::new(stdout);
    let mut room = [0; MAX_LINE];
    for _ in 0..u64::MAX {
        let Some(line) = lines::next_line(input, &mut room) else {
            break;
        };
        if line.starts_with(b"#") {
            let _ = stdout.write_all(line);
        } else if respond(&mut out, line).is_err() {
            out.put("?");
        }
        out.put("\n");
        out.flush();
    }
}
