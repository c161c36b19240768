// Strings of an event that is cut, passed over (02, P8): no text is laid, and no table is read.
// What the functions ask and leave is in specs/.
#![tactic(auto)]

ghost use Rattle.std.specs.Prelude.{◌≡◌};
ghost use Rattle.receiver_strings.specs.View.{point_in, skipped_in, looked_in};
ghost use Rattle.receiver_strings.specs.Strings.{SpotPre, PointRead, SkipPost, StringSeen};
ghost use Rattle.receiver_strings.specs.Strings.{NumberSeen};

use refusal::Refusal;
use sizes::MAX_STRING;

// Why code points were not passed over, the position of the one that is refused, and how many are
// left with it.
#[derive(Clone, Copy)]
pub struct Stopped {
    pub refusal: Refusal,
    pub at: usize,
    pub left: usize,
}

// Why a string, or all strings so far, are not passed: code points are left, by the position of the
// first of these and how many they are; or, where none is left, nothing is known of what stands at
// the position.
#[derive(Clone, Copy)]
pub struct Cut {
    pub at: usize,
    pub left: usize,
}

impl Cut {
    // Nothing is known of what stands at a position.
    pub fn unknown(at: usize) -> Self
        ensures { result ≡ record { at = at; left = 0 } }
    {
        Cut { at, left: 0 }
    }
}

// The position after the code point at one.
fn code_point(stream: &[u8], at: usize) -> Result<usize, Refusal>
    requires { SpotPre stream.now at }
    ensures { PointRead stream.now at (point_in at result) }
{
    let field = read_field::unsigned(stream, at)?;
    if !text::is_char(field.value) {
        return Err(Refusal::Character);
    }
    Ok(field.next)
}

// The position after n code points.
pub fn skip(stream: &[u8], at: usize, n: usize) -> Result<usize, Stopped>
    requires { SpotPre stream.now at }
    ensures { SkipPost stream.now at n (skipped_in result) }
{
    let mut place = at;
    for i in 0..n {
        match code_point(stream, place) {
            Ok(next) => place = next,
            Err(refusal) => {
                return Err(Stopped {
                    refusal,
                    at: place,
                    left: n - i,
                });
            }
        }
    }
    Ok(place)
}

// The position after the string that a number v begins, by k partitions for literals (EXI 7.3.3).
// A hit is not passed.
fn by_number(stream: &[u8], next: usize, v: u32, k: u32) -> Result<usize, Cut>
    requires { SpotPre stream.now next }
    ensures { NumberSeen stream.now next v k (looked_in result) }
{
    if v < k {
        return Err(Cut::unknown(next));
    }
    let n = (v - k) as usize;
    if MAX_STRING < n {
        return Err(Cut::unknown(next));
    }
    match skip(stream, next, n) {
        Ok(behind) => Ok(behind),
        Err(s) => Err(Cut {
            at: s.at,
            left: s.left,
        }),
    }
}

// The position after a string by k partitions for literals.
pub fn string(stream: &[u8], at: usize, k: u32) -> Result<usize, Cut>
    requires { SpotPre stream.now at }
    ensures { StringSeen stream.now at k (looked_in result) }
{
    let Ok(number) = read_field::unsigned(stream, at) else {
        return Err(Cut::unknown(at));
    };
    by_number(stream, number.next, number.value, k)
}
