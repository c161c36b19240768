// A stream, judged or turned into a table.
use crate::{pieces, tries};
use exi_fault::Memory;
use exi_out::Out;
use exi_table::Table;
use exi_verdict::{Counts, Task};
use readings_from::MAX_READINGS;
use refusal::Refusal;
use std::io::{Stderr, Stdout};

// A stream that is judged, the name of its file where it is one of several, and what that takes.
#[derive(Drop)]
pub(crate) struct Judge<'a> {
    err: Stderr,
    out: Out,
    task: Task,
    file: Option<&'a str>,
    stream: &'a [u8],
    memory: Memory,
}

impl<'a> Judge<'a> {
    pub(crate) fn new(
        out: Stdout,
        err: Stderr,
        task: Task,
        file: Option<&'a str>,
        stream: &'a [u8],
    ) -> Judge<'a> {
        Judge {
            err,
            out: Out::new(out),
            task,
            file,
            stream,
            memory: Memory::new(),
        }
    }

    // The first n events, where they are shown.
    fn put_events(&mut self, indexes: bool, n: u32) {
        exi_verdict::put_events(
            &mut self.out,
            self.task,
            indexes,
            &self.memory.cells,
            n,
            &self.memory.store,
        );
    }

    // A stream that is refused for what its octets are: the events before the fault, then the
    // refusal, what can be told of it, and settings that accept the stream.
    fn refuse_octets(&mut self, refusal: Refusal, index: u32) {
        let (err, task, stream) = (self.err, self.task, self.stream);
        let good = self.memory.good_events(task.settings, stream, index);
        self.put_events(true, good.events);
        exi_verdict::finish(err, &mut self.out);
        exi_say::refused(err, self.file, refusal, index);
        exi_verdict::explain(err, task, refusal, index, stream, &good);
        tries::suggestions(err, task.settings, stream, &mut self.memory);
    }

    fn refuse(&mut self, refusal: Refusal, index: u32) {
        match refusal {
            Refusal::Room | Refusal::Settings | Refusal::Long => {
                exi_verdict::finish(self.err, &mut self.out);
                exi_say::refused(self.err, self.file, refusal, index);
            }
            _ => self.refuse_octets(refusal, index),
        }
    }

    // Prints the verdict on the stream, read whole or in packets.
    pub(crate) fn print_verdict(&mut self) {
        let settings = self.task.settings;
        let reply = match self.task.packet {
            None => self.memory.read(settings, self.stream),
            Some(n) => pieces::read(&mut self.out, settings, self.stream, n, &mut self.memory),
        };
        if let Some(refusal) = exi_say::refusal_of(reply.number) {
            self.refuse(refusal, reply.index);
            return;
        }
        self.put_events(false, reply.events);
        let counts = Counts {
            events: reply.events,
            code_points: reply.code_points,
            octets: self.stream.len(),
        };
        exi_verdict::accept(&mut self.out, self.file, counts);
        exi_verdict::finish(self.err, &mut self.out);
    }

    // Prints the readings of the stream as a table.
    pub(crate) fn print_readings(&mut self, in_ms: bool) {
        let mut stamps = [0u64; MAX_READINGS];
        let mut movements = [0u32; MAX_READINGS];
        let reply = readings::from_stream(
            self.task.settings,
            self.stream,
            &mut stamps,
            &mut movements,
            &mut self.memory.cells,
            &mut self.memory.store,
            &mut self.memory.work,
        );
        match exi_say::refusal_of(reply.number) {
            None => {
                let n = reply.readings as usize;
                self.out.put(Table {
                    stamps: stamps.get(..n).unwrap_or(&stamps),
                    movements: movements.get(..n).unwrap_or(&movements),
                    in_ms,
                });
                exi_verdict::finish(self.err, &mut self.out);
            }
            Some(refusal) if refusal.number() < refusal::STRUCTURE => {
                self.refuse(refusal, reply.index);
            }
            Some(refusal) => exi_say::refused(self.err, None, refusal, reply.index),
        }
    }
}
