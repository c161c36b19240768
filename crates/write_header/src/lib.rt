// The header of a stream (EXI 5), written. What the functions ask and leave is in
// specs/Header.antt.
#![tactic(auto)]

ghost use Rattle.settings.specs.Meant.{settings_from};
ghost use Rattle.write_header.specs.Header.{PutHeaderPre, CookiePut, HeaderPut};

use settings::Settings;

// The cookie "$EXI".
fn put_cookie(stream: &mut [u8]) -> usize
    requires { PutHeaderPre stream.old }
    ensures { CookiePut stream.old stream.new result }
{
    let first = write_field::put_number(true, stream, 0, 8, 0x24);
    let second = write_field::put_number(true, stream, first, 8, 0x45);
    let third = write_field::put_number(true, stream, second, 8, 0x58);
    write_field::put_number(true, stream, third, 8, 0x49)
}

// The cookie if set, then bits 10, no options, version 1.
pub fn put_header(o: Settings, stream: &mut [u8]) -> usize
    requires { PutHeaderPre stream.old }
    ensures { HeaderPut (settings_from o) stream.old stream.new result }
{
    if o.cookie {
        let at = put_cookie(stream);
        return write_field::put_number(true, stream, at, 8, 0x80);
    }
    write_field::put_number(true, stream, 0, 8, 0x80)
}
