// What is told of a stream that is read in packets: at each quarter of it, how many events were
// complete after how many packets, and which packet was refused.
#![tactic(auto)]

ghost use Rattle.std.specs.Prelude.{◌≡◌, ◌<◌, ◌≤◌};
ghost use Rattle.exi_progress.specs.Told.{none_told, end_of, quarters_of, told_after};

use exi_out::Out;

// How many packets were taken, and how many events were complete; the packet that was refused; and
// how many quarters are told.
#[derive(Clone, Copy)]
pub struct Told {
    pub packets: usize,
    pub events: u32,
    pub refused: Option<usize>,
    pub quarters: usize,
}

pub fn nothing() -> Told
    ensures { result ≡ none_told }
{
    Told {
        packets: 0,
        events: 0,
        refused: None,
        quarters: 0,
    }
}

// Where a packet of n octets ends that begins at a place, an empty one counting as one octet.
pub fn end_of(at: usize, n: usize, all: usize) -> usize
    requires { at < all }
    ensures { (result ≡ end_of at n all) × (at < result) × (result ≤ all) }
{
    if n == 0 {
        return at + 1;
    }
    if all - at < n {
        return all;
    }
    at + n
}

// How many quarters of all octets are over.
fn quarters(end: usize, all: usize) -> usize
    ensures { result ≡ quarters_of end all }
{
    end / (all / 4 + 1)
}

// With one packet more, after which so many octets are over, and so many events are complete, none
// where it is refused.
pub fn after(t: Told, events: Option<u32>, end: usize, all: usize) -> Told
    ensures { result ≡ told_after t events end all }
{
    if t.refused.is_some() {
        return t;
    }
    let packets = t.packets.wrapping_add(1);
    match events {
        Some(events) => Told {
            packets,
            events,
            refused: None,
            quarters: quarters(end, all),
        },
        None => Told {
            packets,
            events: t.events,
            refused: Some(packets),
            quarters: t.quarters,
        },
    }
}

fn gap(told: Told) -> &'static str {
    if told.quarters == 0 { " " } else { ", " }
}

// Tells how many events were complete after how many packets.
fn put_events(out: &mut Out, gap: &str, t: Told) {
    let (events, packets) = (t.events, t.packets);
    out.put(format_args!("{gap}{events} after packet {packets}"));
}

// Tells of another quarter, if it is one.
pub fn put_packet(out: &mut Out, before: Told, t: Told) {
    if before.quarters != t.quarters {
        put_events(out, gap(before), t);
    }
}

// Tells of the last packet, or of the one that was refused.
pub fn put_last(out: &mut Out, t: Told) {
    let gap = gap(t);
    match t.refused {
        None => put_events(out, gap, t),
        Some(packet) => out.put(format_args!("{gap}refused with packet {packet}")),
    }
}
