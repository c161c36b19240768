// A literal, read into the text store: the length limit, the store limit, then each code point. A
// refusal clears the cells that it wrote, and says where it stopped: the code point's position, and
// how many are still to be read. What the functions ask and leave is in specs/Literal.antt.
#![tactic(auto)]

ghost use Rattle.std.specs.Prelude.{◌≡◌, ◌+◌, ◌*◌, ◌≤◌, ◌<◌, length, replicate, IfSome, IfErr};
ghost use Rattle.read_literal.specs.View.{plain_in, point_in, literal_in};
ghost use Rattle.read_literal.specs.Literal.{laid_at, Place, Plain, PointRead, CharactersPre};
ghost use Rattle.read_literal.specs.Literal.{CharactersRead, LiteralPre, LiteralRead};

use read_field::octet_at;
use refusal::Refusal;
use sizes::{MAX_STORE, MAX_STRING};

// A code point, and the octet whose bit k is behind it.
#[derive(Clone, Copy)]
struct Point {
    value: u32,
    behind: usize,
}

// The position behind a literal, and the hash of its text.
#[derive(Clone, Copy)]
pub struct Literal {
    pub next: usize,
    pub hash: u32,
}

// Why a string was not read; the position after it or, where code points of a literal are left,
// that of the first of these; how many are left; and the code points in the store.
#[derive(Clone, Copy)]
pub struct Stopped {
    pub refusal: Refusal,
    pub next: usize,
    pub left: usize,
    pub stored: usize,
}

// n cells from one on are 0.
pub fn clear_cells(x: &mut [u32], from: usize, n: usize)
    requires { from + n ≤ length x.old }
    ensures { x.new ≡ laid_at x.old from (replicate n 0) }
{
    x[from..from + n].fill(0);
}

// The code point at bit k of octet j where it is one octet from 32 to 127, and another octet
// follows.
fn plain(s: &[u8], j: usize, k: usize) -> Option<u32>
    requires { Place s.now j k }
    ensures read { Plain s.now (8 * j + k) (plain_in result) }
    ensures some { IfSome result (λ o. 0 < o) }
{
    if s.len() <= j + 1 {
        return None;
    }
    let high = octet_at(s, j);
    let low = octet_at(s, j + 1);
    let o = ((high * 256 + low) >> (8 - k)) % 256;
    if o < 32 {
        return None;
    }
    if 127 < o {
        return None;
    }
    Some(o)
}

// The code point at bit k of octet j.
fn character(s: &[u8], j: usize, k: usize) -> Result<Point, Refusal>
    requires { Place s.now j k }
    ensures { PointRead s.now j k (point_in result) }
{
    if let Some(value) = plain(s, j, k) {
        return Ok(Point {
            value,
            behind: j + 1,
        });
    }
    let field = read_field::unsigned_any(s, 8 * j + k)?;
    if !text::is_char(field.value) {
        return Err(Refusal::Character);
    }
    Ok(Point {
        value: field.value,
        behind: field.next / 8,
    })
}

// Reads n code points to the store's end.
fn read_characters(
    stream: &[u8],
    at: usize,
    text: &mut [u32],
    stored: usize,
    n: usize,
) -> Result<Literal, Stopped>
    requires { CharactersPre stream.now at text.old stored n }
    ensures read { CharactersRead stream.now at text.old stored n text.new (literal_in result) }
    ensures kept { IfErr result (λ x. x.stored ≡ stored) }
{
    let k = at % 8;
    let mut j = at / 8;
    let mut h: u64 = 0;
    for i in 0..n {
        match character(stream, j, k) {
            Ok(p) => {
                text[stored + i] = p.value;
                h = mem_entries::mix(h, p.value);
                j = p.behind;
            }
            Err(refusal) => {
                clear_cells(text, stored, i);
                return Err(Stopped {
                    refusal,
                    next: 8 * j + k,
                    left: n - i,
                    stored,
                });
            }
        }
    }
    Ok(Literal {
        next: 8 * j + k,
        hash: h as u32,
    })
}

// A literal of n code points.
pub fn read_literal(
    stream: &[u8],
    at: usize,
    text: &mut [u32],
    stored: usize,
    n: u32,
) -> Result<Literal, Stopped>
    requires { LiteralPre stream.now at text.old stored }
    ensures read { LiteralRead stream.now at text.old stored n text.new (literal_in result) }
    ensures kept { IfErr result (λ x. x.stored ≡ stored) }
{
    if MAX_STRING < n as usize || MAX_STORE < stored + n as usize {
        return Err(Stopped {
            refusal: Refusal::Limit,
            next: at,
            left: 0,
            stored,
        });
    }
    read_characters(stream, at, text, stored, n as usize)
}
