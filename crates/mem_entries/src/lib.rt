// Texts that rows of work memory name by place and size, and the hash of a text. What the contracts
// cite is in specs/.
#![tactic(auto)]

ghost use Rattle.std.specs.Prelude.{◌≡◌, ◌<◌};
ghost use Rattle.text.specs.Text.{all_chars};
ghost use Rattle.mem_entries.specs.Texts.{mixed, hash_of, TextCellsPre, row_has, with_text};

// The hash of a text, from the hash of all but its last code point.
pub fn mix(h: u64, c: u32) -> u64
    requires { h < 4294967296 }
    ensures { result ≡ mixed h c }
{
    (h * 16777619 + c as u64) % 4294967296
}

// The hash of a text.
pub fn hash(x: &[u32]) -> u32
    ensures { result ≡ hash_of x.now }
{
    let mut h: u64 = 0;
    for &c in x {
        h = mix(h, c);
    }
    h as u32
}

// The hash of a text, and whether it has only Chars.
#[derive(Clone, Copy)]
pub struct Weighed {
    pub hash: u32,
    pub chars: bool,
}

// Both in one pass over the text.
pub fn weigh(x: &[u32]) -> Weighed
    ensures { (result.hash ≡ hash_of x.now) × (result.chars ≡ all_chars x.now) }
{
    let mut h: u64 = 0;
    let mut chars = true;
    for &c in x {
        h = mix(h, c);
        chars = chars & text::is_char(c);
    }
    Weighed {
        hash: h as u32,
        chars,
    }
}

// Whether the string that two cells name is this text.
pub fn has_text(work: &[u32], store: &[u32], place: usize, size: usize, x: &[u32]) -> bool
    requires { TextCellsPre work.now place size }
    ensures { result ≡ row_has work.now store.now place size x.now }
{
    text::same_text(text::look_up(store, work[place], work[size]), x)
}

// Two cells name a string.
pub fn put_text(work: &mut [u32], place: usize, size: usize, from: u32, long: u32)
    requires { TextCellsPre work.old place size }
    ensures { work.new ≡ with_text work.old place size from long }
{
    work[place] = from;
    work[size] = long;
}
