// Other settings under which a stream that is refused would be accepted.
use exi_fault::Memory;
use exi_say::tell;
use settings::SettingNumbers;
use std::fmt;
use std::io::Stderr;

// How many settings are tried: one for each set of the flags for a stream, with the bounds of
// values that are asked for, then without them.
const TRIED: u32 = 64;

const BOUNDED: u32 = 32;

// A bound that is asked for, where the settings with this number have it.
fn kept(k: u32, bound: u32) -> u32 {
    if k < BOUNDED { bound } else { 0 }
}

// The settings with this number, those without a flag first.
fn settings_at(k: u32, asked: SettingNumbers) -> SettingNumbers {
    SettingNumbers {
        alignment: k % 2,
        cookie: k / 2 % 2,
        comments: k / 4 % 2,
        instructions: k / 8 % 2,
        fragment: k / 16 % 2,
        value_length: kept(k, asked.value_length),
        value_capacity: kept(k, asked.value_capacity),
        loose: 0,
        prefixes: 0,
        grammar_cap: 0,
    }
}

// A flag that is given or not.
fn flag(given: u32, name: &'static str) -> &'static str {
    if given == 1 { name } else { "" }
}

// A flag and its bound; a bound n is n + 1 in the settings.
#[derive(Clone, Copy)]
struct Bound(&'static str, u32);

impl fmt::Display for Bound {
    fn fmt<W: fmt::Write>(&self, f: &mut fmt::Formatter<W>) -> fmt::Result {
        let Bound(name, given) = *self;
        match given.checked_sub(1) {
            Some(n) => write!(f, " {name} {n}"),
            None => Ok(()),
        }
    }
}

// Says the flags of settings.
fn tell_flags(err: Stderr, s: SettingNumbers) {
    tell(err, "  accepted with");
    tell(err, flag(s.alignment, " --byte-aligned"));
    tell(err, flag(s.cookie, " --cookie"));
    tell(err, flag(s.comments, " --comments"));
    tell(err, flag(s.instructions, " --instructions"));
    tell(err, flag(s.fragment, " --fragment"));
    tell(err, Bound("--max-length", s.value_length));
    tell(err, Bound("--capacity", s.value_capacity));
    tell(err, "\n");
}

fn is_bounded(s: SettingNumbers) -> bool {
    s.value_length != 0 || s.value_capacity != 0
}

fn suggest(err: Stderr, k: u32, s: SettingNumbers) {
    if k % BOUNDED == 0 && !is_bounded(s) {
        tell(err, "  accepted without flags\n");
    } else {
        tell_flags(err, s);
    }
}

// Says of at most two settings that they accept the stream.
pub(crate) fn suggestions(err: Stderr, asked: SettingNumbers, stream: &[u8], memory: &mut Memory) {
    let most = if is_bounded(asked) { TRIED } else { BOUNDED };
    let mut found = false;
    for k in 0..most {
        let s = settings_at(k, asked);
        if memory.read(s, stream).number == 0 {
            suggest(err, k, s);
            if found {
                return;
            }
            found = true;
        }
    }
}
