// The literal that is refused as a name: a length and code points, in groups of eight bits (EXI,
// 7.1.6, 7.1.10), that end in the octet at which the fault shows. The first one is taken that no
// name may be.
#![tactic(auto)]

ghost use Rattle.std.specs.Prelude.{◌≤◌};

// The bits of the longest stream, and 24 more.
const MOST: usize = 131096;

fn octet(stream: &[u8], i: usize) -> u32
    ensures { result ≤ 255 }
{
    match stream.get(i) {
        Some(x) => *x as u32,
        None => 0,
    }
}

// The octet that begins at a bit; what is not there is 0.
fn octet_at(stream: &[u8], bit: usize) -> u32
    ensures { result ≤ 255 }
{
    let i = bit / 8;
    let two = octet(stream, i) * 256 + octet(stream, i.saturating_add(1));
    (two >> (8 - bit % 8)) % 256
}

// An Unsigned Integer of at most three octets, and the bit behind it.
fn unsigned_at(stream: &[u8], bit: usize) -> Option<(u32, usize)> {
    if MOST < bit {
        return None;
    }
    let a = octet_at(stream, bit);
    if a < 128 {
        return Some((a, bit + 8));
    }
    let b = octet_at(stream, bit + 8);
    if b < 128 {
        return Some((128 * b + a - 128, bit + 16));
    }
    let c = octet_at(stream, bit + 16);
    if c < 128 {
        return Some((16384 * c + 128 * (b - 128) + a - 128, bit + 24));
    }
    None
}

// Fills a name with code points from a bit on, and answers the bit behind them; none where one is
// no code point.
fn lay(stream: &[u8], bit: usize, name: &mut [u32]) -> Option<usize> {
    let mut at = bit;
    for cell in name {
        let (p, next) = unsigned_at(stream, at)?;
        if !text::is_char(p) {
            return None;
        }
        *cell = p;
        at = next;
    }
    Some(at)
}

// Lays the literal that begins at a bit, its length as much more as it is told, and answers its
// length; none where it is none that ends in this octet.
fn literal_at(
    stream: &[u8],
    bit: usize,
    more: u32,
    octet: usize,
    room: &mut [u32],
) -> Option<usize> {
    let (told, after) = unsigned_at(stream, bit)?;
    let n = told.checked_sub(more)? as usize;
    if n == 0 {
        return None;
    }
    let end = lay(stream, after, room.get_mut(..n)?)?;
    if end.checked_sub(1)? / 8 != octet {
        return None;
    }
    Some(n)
}

// Whether a text of n cells is no name.
fn is_refused(room: &[u32], n: usize) -> bool {
    match room.get(..n) {
        Some(name) => !name_rules::target_allowed(name),
        None => false,
    }
}

// Where no literal of a name begins any more: bit by bit it is sought behind an event code and the
// number of a URI, and not behind a URI's own literal.
fn last(aligned: bool, bit: usize) -> usize
    ensures { result ≤ 131096 }
{
    if aligned || MOST - 24 < bit {
        MOST
    } else {
        bit + 24
    }
}

// Lays the literal that is refused, of an event that begins at a bit; the fault shows at an octet.
// Answers its length, none where it is not found.
pub fn refused(
    stream: &[u8],
    aligned: bool,
    bit: usize,
    octet: usize,
    room: &mut [u32],
) -> Option<usize> {
    let by = if aligned { 8 } else { 1 };
    for at in (bit..last(aligned, bit)).step_by(by) {
        if octet < at / 8 {
            return None;
        }
        // a local name is told with one more than its length, and a target as it is
        for more in [1, 0] {
            if let Some(n) = literal_at(stream, at, more, octet, room) {
                if is_refused(room, n) {
                    return Some(n);
                }
            }
        }
    }
    None
}
