// A line of standard input, in memory that is fixed.
use std::io::{Read, Stdin};

// The next octet, and nothing after it, so that the rest is left to who reads on; none where the
// input ends or cannot be read.
fn next_octet(mut input: Stdin) -> Option<u8> {
    let mut octet = [0];
    match input.read(&mut octet) {
        Ok(1) => Some(octet[0]),
        _ => None,
    }
}

// The next line, without its end; none where the input has no line left that fits the room.
pub(crate) fn next_line(input: Stdin, room: &mut [u8]) -> Option<&[u8]> {
    for at in 0..room.len() {
        let octet = next_octet(input)?;
        if octet == b'\n' {
            return Some(&room[..at]);
        }
        room[at] = octet;
    }
    None
}
