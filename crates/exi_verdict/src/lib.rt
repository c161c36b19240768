// The verdict on a stream: what it has, or why it is refused, with all that can be told of it.
#![tactic(auto)]

use exi_out::{Count, Out};
use exi_show::Events;
use exi_text::Store;
use mem_state::Core;
use refusal::Refusal;
use settings::SettingNumbers;
use sizes::CELLS_PER_EVENT;
use std::io::Stderr;

// What is asked of a stream: its settings, whether its events are shown, in UTF-8, and in packets
// of how many octets it is read, if not whole.
#[derive(Clone, Copy)]
pub struct Task {
    pub settings: SettingNumbers,
    pub shows: bool,
    pub utf8: bool,
    pub packet: Option<usize>,
}

// What a stream has.
#[derive(Clone, Copy)]
pub struct Counts {
    pub events: u32,
    pub code_points: u32,
    pub octets: usize,
}

// How many octets of a stream are good, how many events are complete in them, and the state behind
// these.
#[derive(Clone, Copy)]
pub struct Good {
    pub octets: usize,
    pub events: u32,
    pub core: Core,
}

// Writes what waits, and says so where that fails.
pub fn finish(err: Stderr, out: &mut Out) {
    out.flush();
    if let Some(e) = out.failed {
        exi_usage::unwritten(err, b"standard output", e);
    }
}

// The first n events, where they are shown.
pub fn put_events(out: &mut Out, t: Task, indexes: bool, cells: &[u32], n: u32, store: &[u32]) {
    if !t.shows {
        return;
    }
    let size = CELLS_PER_EVENT.saturating_mul(n as usize);
    let store = Store {
        cells: store,
        utf8: t.utf8,
    };
    out.put(Events {
        cells: cells.get(..size).unwrap_or(cells),
        store,
        indexes,
    });
}

// Says what a stream has that is accepted, of a file that is one of several.
pub fn accept(out: &mut Out, file: Option<&str>, n: Counts) {
    if let Some(file) = file {
        out.put(format_args!("{file}: "));
    }
    let events = Count(n.events as u64, "event");
    let code_points = Count(n.code_points as u64, "code point");
    let octets = Count(n.octets as u64, "octet");
    out.put(format_args!("accepted: {events}, {code_points}, {octets}\n"));
}

// Where the event with this index begins, if it is one and all events before it are known.
fn explain_event(err: Stderr, refusal: Refusal, index: u32, good: &Good) {
    if good.events != index {
        exi_why::unknown(err, good.events);
    } else if refusal != Refusal::Tail {
        exi_why::event(err, good.core.at);
    }
}

// More on a refusal at the event with this index, by what is good before it.
pub fn explain(err: Stderr, t: Task, refusal: Refusal, index: u32, stream: &[u8], good: &Good) {
    if refusal == Refusal::Header {
        exi_why::header(err, stream, t.settings.cookie == 1);
        return;
    }
    explain_event(err, refusal, index, good);
    exi_why::octet(err, good.octets, stream.len());
    match refusal {
        Refusal::Limit => exi_why::limits(err, index, good.octets, &good.core),
        Refusal::Name => {
            let aligned = t.settings.alignment == 1;
            exi_cause::name(err, stream, aligned, good.core.at, good.octets);
        }
        _ => (),
    }
}
