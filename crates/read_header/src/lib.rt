// The header of a stream (EXI 5), read. What the functions ask and leave is in specs/Header.antt.
#![tactic(auto)]

ghost use Rattle.std.specs.Prelude.{◌≤◌, length, drop};
ghost use Rattle.spec_exi.specs.Settings.{header_of};
ghost use Rattle.spec_exi.specs.Sizes.{max_stream};
ghost use Rattle.settings.specs.Meant.{settings_from};
ghost use Rattle.read_header.specs.Header.{ReadOctetsPre, header_octets, Passes, view};

use refusal::Refusal;
use settings::Settings;

// Octets of the cookie, and of the header with it.
const COOKIE_SIZE: usize = 4;

const HEADER_SIZE: usize = COOKIE_SIZE + 1;

// The octets of the header (EXI 5): the cookie "$EXI", then bits 10, no options, version 1.
const OCTETS: [u32; HEADER_SIZE] = [36, 69, 88, 73, 128];

// The octets of the header from one on, and the position behind them.
fn read_octets(stream: &[u8], first: usize) -> Result<usize, Refusal>
    requires { ReadOctetsPre stream.now first }
    ensures { Passes (drop first header_octets) stream.now (view result) }
{
    let mut at: usize = 0;
    for &o in &OCTETS[first..] {
        let read = read_field::octet(stream, at)?;
        if read.value != o {
            return Err(Refusal::Header);
        }
        at = read.next;
    }
    Ok(at)
}

// The header, with the cookie if set, and the position behind it.
pub fn read_header(o: Settings, stream: &[u8]) -> Result<usize, Refusal>
    requires { length stream.now ≤ max_stream }
    ensures { Passes (header_of (settings_from o)) stream.now (view result) }
{
    if o.cookie {
        return read_octets(stream, 0);
    }
    read_octets(stream, COOKIE_SIZE)
}
