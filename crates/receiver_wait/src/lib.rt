// A literal that is cut is continued at the code point where it was cut (02, P8). What the
// functions ask and leave is in specs/Wait.antt.
#![tactic(auto)]

ghost use Rattle.std.specs.Prelude.{◌≡◌, take};
ghost use Rattle.settings.specs.Meant.{settings_from};
ghost use Rattle.receiver_strings.specs.View.{skipped_in};
ghost use Rattle.receiver_strings.specs.Strings.{SkipPost};
ghost use Rattle.receiver_wait.specs.Wait.{StillPre, CutPre, CutPost};

use mem_state::Core;
pub use receiver_read as the_receiver_read;
pub use receiver_read::the_read_run as the_read_run;
use receiver_record::Wait;
use receiver_strings::Stopped;
use refusal::ENDED;
use settings::Settings;

// Passes over the code points that are awaited, in the first n octets that are held.
pub fn still(held: &[u8], n: usize, at: usize, left: usize) -> Result<usize, Stopped>
    requires { StillPre held.now n at }
    ensures { SkipPost (take n held.now) at left (skipped_in result) }
{
    receiver_strings::skip(&held[0..n], at, left)
}

// No code point is awaited.
fn nothing() -> Wait
    ensures { result ≡ record { at = 0; left = 0 } }
{
    Wait { at: 0, left: 0 }
}

// Where the literal is cut, if the first n octets end in the event after a core, and among code
// points.
pub fn cut_at(o: Settings, held: &[u8], n: usize, number: u32, c: Core, work: &[u32]) -> Wait
    requires { CutPre held.now n work.now c }
    ensures { CutPost (settings_from o) (take n held.now) work.now number c result }
{
    if number != ENDED {
        return nothing();
    }
    if c.at == 0 {
        return nothing();
    }
    match receiver_look::look(o, &held[0..n], c, work) {
        Ok(at) => Wait { at, left: 0 },
        Err(cut) => Wait {
            at: cut.at,
            left: cut.left,
        },
    }
}
