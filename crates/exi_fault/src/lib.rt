// A stream that is refused: how far it is good, told by a receiver (02, P8), which keeps the events
// that are complete.
#![tactic(auto)]

use exi_verdict::Good;
pub use receiver as the_receiver;
use receiver::the_receiver_record::{Handed, Receiver};
pub use receiver::{the_reader as the_reader, the_receiver_record as the_receiver_record};
use settings::SettingNumbers;
use sizes::{EVENT_CELLS, MAX_STORE, MAX_STREAM, READER_WORK};
use the_reader::ReadReply;

// What a reader and a receiver are lent.
#[derive(Drop)]
pub struct Memory {
    held: [u8; MAX_STREAM],
    pub cells: [u32; EVENT_CELLS],
    pub store: [u32; MAX_STORE],
    pub work: [u32; READER_WORK],
}

impl Memory {
    pub fn new() -> Memory {
        Memory {
            held: [0; MAX_STREAM],
            cells: [0; EVENT_CELLS],
            store: [0; MAX_STORE],
            work: [0; READER_WORK],
        }
    }

    // Reads a whole stream.
    pub fn read(&mut self, s: SettingNumbers, stream: &[u8]) -> ReadReply {
        receiver::the_reader::read(s, stream, &mut self.cells, &mut self.store, &mut self.work)
    }

    // Hands a piece of a stream over.
    pub fn feed(&mut self, r: Receiver, piece: &[u8]) -> Handed {
        receiver::fed(
            r,
            piece,
            &mut self.held,
            &mut self.cells,
            &mut self.store,
            &mut self.work,
        )
    }

    // Ends a stream that came in pieces.
    pub fn close(&mut self, r: Receiver) -> ReadReply {
        receiver::closed(
            r,
            &mut self.held,
            &mut self.cells,
            &mut self.store,
            &mut self.work,
        )
        .reply
    }

    // The first octets of a stream as one piece, all of them where they are no more.
    fn feed_first(&mut self, s: SettingNumbers, stream: &[u8], octets: usize) -> Handed {
        let piece = stream.get(..octets).unwrap_or(stream);
        self.feed(receiver::the_receiver_record::started(s), piece)
    }

    fn is_good(&mut self, s: SettingNumbers, stream: &[u8], octets: usize) -> bool {
        octets <= stream.len() && self.feed_first(s, stream, octets).reply.number == 0
    }

    // How many octets come before the one at which the stream is refused: all of them where it only
    // ends too early. Octets that are good stay so with fewer of them.
    fn good_octets(&mut self, s: SettingNumbers, stream: &[u8]) -> usize {
        let mut good: usize = 0;
        let mut step = MAX_STREAM;
        while 0 < step {
            let more = good.saturating_add(step);
            if self.is_good(s, stream, more) {
                good = more;
            }
            step /= 2;
        }
        good
    }

    // What is complete after the good octets.
    fn after_octets(&mut self, s: SettingNumbers, stream: &[u8], octets: usize) -> Good {
        good_of(octets, self.feed_first(s, stream, octets))
    }

    // What is complete after these and then one that stands for the next.
    fn after_another(&mut self, s: SettingNumbers, stream: &[u8], octets: usize, x: u8) -> Good {
        let first = self.feed_first(s, stream, octets);
        good_of(octets, self.feed(first.receiver, &[x]))
    }

    // The events before the one with this index where some of them end inside the octet of the
    // fault: they are complete with another octet that has the bits up to their end, and goes on
    // well. Those of the good octets where there is no such octet.
    fn inside_octet(
        &mut self,
        s: SettingNumbers,
        stream: &[u8],
        octets: usize,
        index: u32,
    ) -> Good {
        let faulty = stream.get(octets).copied().unwrap_or(0);
        for x in 0..=u8::MAX {
            let good = self.after_another(s, stream, octets, x);
            if good.events == index && agree(faulty, x, octets, good.core.at) {
                return good;
            }
        }
        self.after_octets(s, stream, octets)
    }

    // The events that are complete before the fault, in the cells, and their text: all of those
    // before the one with this index, or, where they are fewer, those that end before the octet of
    // the fault.
    pub fn good_events(&mut self, s: SettingNumbers, stream: &[u8], index: u32) -> Good {
        let octets = self.good_octets(s, stream);
        let good = self.after_octets(s, stream, octets);
        if good.events == index {
            return good;
        }
        self.inside_octet(s, stream, octets, index)
    }
}

fn good_of(octets: usize, h: Handed) -> Good {
    Good {
        octets,
        events: h.reply.events,
        core: h.receiver.state.core,
    }
}

// Whether two octets that stand at a place have the same bits up to a bit inside them.
fn agree(x: u8, y: u8, place: usize, bit: usize) -> bool {
    let behind = 8 - bit % 8;
    bit / 8 == place && u32::from(x) >> behind == u32::from(y) >> behind
}
