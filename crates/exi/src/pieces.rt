// A stream in packets of one size (02, P8).
use exi_fault::Memory;
use exi_fault::the_reader::ReadReply;
use exi_out::{Count, Out};
use settings::SettingNumbers;

// Reads a stream in packets of n octets; tells, at each quarter, how many events were complete.
pub(crate) fn read(
    out: &mut Out,
    s: SettingNumbers,
    stream: &[u8],
    n: usize,
    memory: &mut Memory,
) -> ReadReply {
    let octets = Count(n as u64, "octet");
    out.put(format_args!("packets of {octets}, events complete:"));
    let mut receiver = exi_fault::the_receiver_record::started(s);
    let mut told = exi_progress::nothing();
    let mut at = 0;
    // no `chunks`: packets end where `end_of` says, whose clauses hold
    while at < stream.len() {
        let end = exi_progress::end_of(at, n, stream.len());
        let handed = memory.feed(receiver, &stream[at..end]);
        let events = match handed.reply.number {
            0 => Some(handed.reply.events),
            _ => None,
        };
        let next = exi_progress::after(told, events, end, stream.len());
        exi_progress::put_packet(out, told, next);
        receiver = handed.receiver;
        told = next;
        at = end;
    }
    exi_progress::put_last(out, told);
    out.put("\n");
    memory.close(receiver)
}
