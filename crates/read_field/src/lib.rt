// The fields of a stream, read at a bit position.
#![tactic(auto)]

ghost use Rattle.std.specs.Prelude.{◌≡◌, ◌+◌, ◌*◌, ◌/◌, ◌%◌, ◌^◌, ◌≤◌, ◌<◌, length, drop};
ghost use Rattle.spec_fields.specs.Bits.{unpack};
ghost use Rattle.spec_fields.specs.Field.{bit_packed, byte_aligned, octet, number_field, width};
ghost use Rattle.spec_fields.specs.Field.{unsigned};
ghost use Rattle.read_field.specs.View.{Value, view, field_at, alignment_of, InStream, NumberPre};
ghost use Rattle.read_field.specs.Parts.{Octet, Peeked, FewBitsPre};
ghost use Rattle.read_field.specs.Parts.{OctetInPre, CutBitsPre, ahead};
ghost use Rattle.read_field.specs.Parts.{taken, onward};

use refusal::Refusal;

// The greatest number of an Unsigned Integer.
const MOST: u64 = 2147483647;

// A number that stands at a position, and the position after it.
#[derive(Clone, Copy)]
pub struct Field {
    pub value: u32,
    pub next: usize,
}

// The octet at an index.
pub fn octet_at(s: &[u8], i: usize) -> u32
    requires { i < length s.now }
    ensures { Octet s.now i result }
{
    s[i] as u32
}

// A number that ends in n bits, one to eight, out of the first and the last octet that they touch.
fn span(s: &[u8], at: usize, n: u32) -> u32
    requires { OctetInPre s.now at n }
    ensures { result % 2 ^ n ≡ ahead n (drop at (unpack s.now)) }
{
    let last = at + n as usize - 1;
    let high = octet_at(s, at / 8);
    let low = octet_at(s, last / 8);
    (high * 256 + low) >> (7 - last % 8)
}

// The 8 bits at a position, which lie in the stream.
fn octet_in(s: &[u8], at: usize) -> u32
    requires { OctetInPre s.now at 8 }
    ensures { Peeked s.now at result }
{
    span(s, at, 8) % 256
}

// One to eight bits. `bits` reads them too, but out of a window of three octets: one function for
// both would have to choose between the windows, and be no plainer.
fn few_bits(s: &[u8], at: usize, n: u32) -> Result<Field, Refusal>
    requires { FewBitsPre s.now at n }
    ensures { view result ≡ field_at (number_field bit_packed n) s.now at }
{
    let next = at + n as usize;
    if 8 * s.len() < next {
        return Err(Refusal::Ended);
    }
    let window = span(s, at, n);
    let power: u32 = 1 << n;
    Ok(Field {
        value: window & (power - 1),
        next,
    })
}

// One to sixteen bits that lie in the stream, cut out of the octets that they touch: one to three.
// Where they are fewer the first stands in the window more than once, and the mask takes that away.
fn cut(s: &[u8], at: usize, n: u32) -> u32
    requires { CutBitsPre s.now at n }
    ensures { field_at (number_field bit_packed n) s.now at ≡ Value result (at + n) }
{
    let next = at + n as usize;
    let first = at / 8;
    let last = (next - 1) / 8;
    let high = octet_at(s, first);
    let middle = octet_at(s, (first + last) / 2);
    let low = octet_at(s, last);
    let window = high * 65536 + middle * 256 + low;
    let power: u32 = 1 << n;
    (window >> (7 - (next - 1) % 8)) & (power - 1)
}

// n bits, most significant first: none to sixteen.
pub fn bits(s: &[u8], at: usize, n: u32) -> Result<Field, Refusal>
    requires { NumberPre s.now at n 16 }
    ensures { view result ≡ field_at (number_field bit_packed n) s.now at }
{
    let next = at + n as usize;
    if 8 * s.len() < next {
        return Err(Refusal::Ended);
    }
    if n == 0 {
        return Ok(Field { value: 0, next });
    }
    Ok(Field {
        value: cut(s, at, n),
        next,
    })
}

// The two octets of a number, exchanged.
pub fn exchanged(x: u32) -> u32
    requires { x < 65536 }
    ensures { result ≡ x % 256 * 256 + x / 256 }
{
    (x & 255) * 256 + (x >> 8)
}

// The fewest octets that hold n bits, least significant first: none, one or two.
fn octets(s: &[u8], at: usize, n: u32) -> Result<Field, Refusal>
    requires { NumberPre s.now at n 16 }
    ensures { view result ≡ field_at (number_field byte_aligned n) s.now at }
{
    if n == 0 {
        return Ok(Field { value: 0, next: at });
    }
    if n <= 8 {
        return few_bits(s, at, 8);
    }
    let pair = bits(s, at, 16)?;
    Ok(Field {
        value: exchanged(pair.value),
        next: pair.next,
    })
}

pub fn octet(s: &[u8], at: usize) -> Result<Field, Refusal>
    requires { InStream s.now at }
    ensures { view result ≡ field_at octet s.now at }
{
    few_bits(s, at, 8)
}

// A number of n bits.
pub fn number(aligned: bool, s: &[u8], at: usize, n: u32) -> Result<Field, Refusal>
    requires { NumberPre s.now at n 16 }
    ensures { view result ≡ field_at (number_field (alignment_of aligned) n) s.now at }
{
    if aligned {
        return octets(s, at, n);
    }
    bits(s, at, n)
}

// How many bits a choice among m takes.
pub fn width(m: u32) -> u32
    requires { m ≤ 65536 }
    ensures { result ≡ width m }
{
    if m == 0 {
        return 0;
    }
    32 - u32::leading_zeros(m - 1)
}

// How many bits the field of a choice among m has, if WHOLE bits are the octets that hold it: 8 for
// a choice among two to 256, 16 among more.
pub fn taken<const WHOLE: u32>(aligned: bool, m: u32) -> u32
    requires { m ≤ 65536 }
    ensures { result ≡ taken WHOLE aligned m }
{
    if aligned {
        return WHOLE;
    }
    width(m)
}

// The number in the field of a choice among more than 256.
fn many(aligned: bool, s: &[u8], at: usize, m: u32) -> Result<Field, Refusal>
    requires number_pre { NumberPre s.now at m 65536 }
    requires lt_m { 256 < m }
    ensures { view result ≡ field_at (number_field (alignment_of aligned) (width m)) s.now at }
{
    let n = taken::<16>(aligned, m);
    let next = at + n as usize;
    if 8 * s.len() < next {
        return Err(Refusal::Ended);
    }
    let x = cut(s, at, n);
    if aligned {
        return Ok(Field {
            value: exchanged(x),
            next,
        });
    }
    Ok(Field { value: x, next })
}

// The number in the field of a choice among m. It may be m or more, which the caller judges.
pub fn choice(aligned: bool, s: &[u8], at: usize, m: u32) -> Result<Field, Refusal>
    requires { NumberPre s.now at m 65536 }
    ensures { view result ≡ field_at (number_field (alignment_of aligned) (width m)) s.now at }
{
    if m <= 1 {
        return Ok(Field { value: 0, next: at });
    }
    if m <= 256 {
        return few_bits(s, at, taken::<8>(aligned, m));
    }
    many(aligned, s, at, m)
}

fn wide(x: u32) -> u64
    ensures { result ≡ x }
{
    x as u64
}

// The rest of an Unsigned Integer whose first group is `first`, and not its last.
fn onward(s: &[u8], at: usize, first: u64) -> Result<Field, Refusal>
    requires { NumberPre s.now at first 127 }
    ensures { view result ≡ field_at (onward 4 128 first) s.now at }
{
    let mut place = at;
    let mut weight: u64 = 128;
    let mut low = first;
    for _ in 0..4u32 {
        if 8 * s.len() < place + 8 {
            return Err(Refusal::Ended);
        }
        let o = wide(octet_in(s, place));
        if o == 0 {
            return Err(Refusal::Number);
        }
        if o < 128 {
            let v = low + weight * o;
            if MOST < v {
                return Err(Refusal::Number);
            }
            return Ok(Field {
                value: v as u32,
                next: place + 8,
            });
        }
        low = low + weight * (o - 128);
        weight = weight * 128;
        place = place + 8;
    }
    Err(Refusal::Number)
}

// An Unsigned Integer of any length.
pub fn unsigned_any(s: &[u8], at: usize) -> Result<Field, Refusal>
    requires { InStream s.now at }
    ensures { view result ≡ field_at unsigned s.now at }
{
    if 8 * s.len() < at + 8 {
        return Err(Refusal::Ended);
    }
    let o = octet_in(s, at);
    if o < 128 {
        return Ok(Field {
            value: o,
            next: at + 8,
        });
    }
    onward(s, at + 8, wide(o - 128))
}

// An Unsigned Integer: most have one octet.
pub fn unsigned(s: &[u8], at: usize) -> Result<Field, Refusal>
    requires { InStream s.now at }
    ensures { view result ≡ field_at unsigned s.now at }
{
    let next = at + 8;
    if 8 * s.len() < next {
        return Err(Refusal::Ended);
    }
    let o = octet_in(s, at);
    if o < 128 {
        return Ok(Field { value: o, next });
    }
    unsigned_any(s, at)
}
