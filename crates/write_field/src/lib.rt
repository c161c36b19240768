// The fields of a stream, written at a bit position. Each function gives the position after the
// field.
#![tactic(auto)]

ghost use Rattle.std.specs.Prelude.{◌≡◌, ◌+◌, ◌-◌, ◌%◌, ◌^◌, ◌≤◌, ◌<◌, T};
ghost use Rattle.spec_fields.specs.Bits.{bits_of};
ghost use Rattle.spec_fields.specs.Field.{byte_aligned, number_bits, choice_bits, unsigned_bits};
ghost use Rattle.write_field.specs.Written.{alignment_of, farthest, blank_from, Put};
ghost use Rattle.write_field.specs.Written.{PutNumberPre, PutChoicePre};
ghost use Rattle.write_field.specs.Written.{PutUnsignedPre, PutPartPre};

fn wide(x: u8) -> u32
    ensures { result ≡ x }
{
    x as u32
}

// The bits of o, from bit `place` to the end of its octet. Gives the position behind the octet.
fn put_part(buf: &mut [u8], place: usize, o: u32) -> usize
    requires { PutPartPre buf.old place (8 - place % 8) o }
    ensures { Put buf.old place (bits_of (8 - place % 8) o) buf.new result }
{
    let i = place / 8;
    let after = place - place % 8 + 8;
    if buf.len() <= i {
        return after;
    }
    buf[i] = (wide(buf[i]) + o) as u8;
    after
}

// At most eight bits, in the one or two octets that they touch.
fn put_few(buf: &mut [u8], at: usize, n: u32, v: u32) -> usize
    requires { T (blank_from buf.old at) × (at ≤ farthest + 40) × (n ≤ 8) × (v < 2 ^ n) }
    ensures { Put buf.old at (bits_of n v) buf.new result }
{
    let next = at + n as usize;
    let window = v << (16 - (at % 8) as u32 - n);
    let second = put_part(buf, at, window >> 8);
    if next <= second {
        return next;
    }
    put_part(buf, second, window & 255);
    next
}

// n bits, most significant first, in the octets that they touch: none to three.
fn put_bits(buf: &mut [u8], at: usize, n: u32, v: u32) -> usize
    requires { PutNumberPre buf.old at n v }
    ensures { Put buf.old at (bits_of n v) buf.new result }
{
    let next = at + n as usize;
    let window = v << (24 - (at % 8) as u32 - n);
    if next <= at {
        return next;
    }
    let second = put_part(buf, at, window >> 16);
    if next <= second {
        return next;
    }
    let third = put_part(buf, second, (window >> 8) & 255);
    if next <= third {
        return next;
    }
    put_part(buf, third, window & 255);
    next
}

// The fewest octets that hold n bits, least significant first.
fn put_octets(buf: &mut [u8], at: usize, n: u32, v: u32) -> usize
    requires { PutNumberPre buf.old at n v }
    ensures { Put buf.old at (number_bits byte_aligned n v) buf.new result }
{
    let size = (n + 7) / 8 * 8;
    put_bits(buf, at, size, read_field::exchanged(v) >> (16 - size))
}

// n-bit Unsigned Integer.
pub fn put_number(aligned: bool, buf: &mut [u8], at: usize, n: u32, v: u32) -> usize
    requires { PutNumberPre buf.old at n v }
    ensures { Put buf.old at (number_bits (alignment_of aligned) n v) buf.new result }
{
    if aligned {
        return put_octets(buf, at, n, v);
    }
    put_bits(buf, at, n, v)
}

// The one with number v among m.
pub fn put_choice(aligned: bool, buf: &mut [u8], at: usize, m: u32, v: u32) -> usize
    requires { PutChoicePre buf.old at m v }
    ensures { Put buf.old at (choice_bits (alignment_of aligned) m v) buf.new result }
{
    if m <= 1 {
        return at;
    }
    if m <= 256 {
        return put_few(buf, at, read_field::taken::<8>(aligned, m), v);
    }
    put_number(aligned, buf, at, read_field::width(m), v)
}

// Unsigned Integer: 7 bits an octet, least significant first.
pub fn put_unsigned(buf: &mut [u8], at: usize, v: u32) -> usize
    requires { PutUnsignedPre buf.old at v }
    ensures { Put buf.old at (unsigned_bits v) buf.new result }
{
    let mut next = at;
    let mut rest = v;
    while 128 <= rest {
        next = put_few(buf, next, 8, rest % 128 + 128);
        rest = rest / 128;
    }
    put_few(buf, next, 8, rest)
}
