// A String, written at a bit position: its length, raised by the count of partitions that it could
// have been a hit in, and its code points.
#![tactic(auto)]

ghost use Rattle.std.specs.Prelude.{◌≡◌, ◌+◌, ◌*◌};
ghost use Rattle.spec_fields.specs.Bits.{each};
ghost use Rattle.spec_fields.specs.Field.{unsigned_bits};
ghost use Rattle.spec_exi.specs.Tables.{string_bits};
ghost use Rattle.write_field.specs.Written.{Put};
ghost use Rattle.write_string.specs.Fits.{PutCharacterPre, CharactersPre, PutStringPre};

// A code point at bit k of octet j: in place where it takes one octet, and both that it touches are
// there. Gives the octet of the bit behind it, which is bit k again.
fn put_character(buf: &mut [u8], j: usize, k: usize, c: u32) -> usize
    requires { PutCharacterPre buf.old j k c }
    ensures { Put buf.old (8 * j + k) (unsigned_bits c) buf.new (8 * result + k) }
{
    if (c < 128) & (j + 1 < buf.len()) {
        let window = c << (8 - k);
        buf[j] = buf[j] + (window >> 8) as u8;
        buf[j + 1] = buf[j + 1] + (window & 255) as u8;
        return j + 1;
    }
    write_field::put_unsigned(buf, 8 * j + k, c) / 8
}

fn put_characters(buf: &mut [u8], at: usize, x: &[u32]) -> usize
    requires { CharactersPre buf.old at x.now }
    ensures { Put buf.old at (each unsigned_bits x.now) buf.new result }
{
    let k = at % 8;
    let mut j = at / 8;
    for &c in x {
        j = put_character(buf, j, k, c);
    }
    8 * j + k
}

pub fn put_string(buf: &mut [u8], at: usize, raised: u32, x: &[u32]) -> usize
    requires { PutStringPre buf.old at raised x.now }
    ensures { Put buf.old at (string_bits raised x.now) buf.new result }
{
    let first = write_field::put_unsigned(buf, at, x.len() as u32 + raised);
    put_characters(buf, first, x)
}
