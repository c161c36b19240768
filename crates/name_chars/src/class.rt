// The classes of the code points below 768 (02, P10).
ghost use Rattle.std.specs.Prelude.{◌≡◌, ◌<◌};
ghost use Rattle.name_chars.specs.Class.{class_of, table};

// How many code points have their class in the table.
pub const TABLED: u32 = 768;

// May stand first in a name, and further on; only further on is `1`.
pub const FIRST: u8 = b'A';

// Stands in no name.
pub const NONE: u8 = b'.';

// The class of each, 64 in a line: from 0, 0x40 (@), 0x80, 0xC0, 0x100 .. on.
pub const CLASS: [u8; 768] = *b".............................................11.1111111111......\
      .AAAAAAAAAAAAAAAAAAAAAAAAAA....A.AAAAAAAAAAAAAAAAAAAAAAAAAA.....\
      .......................................................1........\
      AAAAAAAAAAAAAAAAAAAAAAA.AAAAAAAAAAAAAAAAAAAAAAAAAAAAAAA.AAAAAAAA\
      AAAAAAAAAAAAAAAAAAAAAAAAAAAAAAAAAAAAAAAAAAAAAAAAAAAAAAAAAAAAAAAA\
      AAAAAAAAAAAAAAAAAAAAAAAAAAAAAAAAAAAAAAAAAAAAAAAAAAAAAAAAAAAAAAAA\
      AAAAAAAAAAAAAAAAAAAAAAAAAAAAAAAAAAAAAAAAAAAAAAAAAAAAAAAAAAAAAAAA\
      AAAAAAAAAAAAAAAAAAAAAAAAAAAAAAAAAAAAAAAAAAAAAAAAAAAAAAAAAAAAAAAA\
      AAAAAAAAAAAAAAAAAAAAAAAAAAAAAAAAAAAAAAAAAAAAAAAAAAAAAAAAAAAAAAAA\
      AAAAAAAAAAAAAAAAAAAAAAAAAAAAAAAAAAAAAAAAAAAAAAAAAAAAAAAAAAAAAAAA\
      AAAAAAAAAAAAAAAAAAAAAAAAAAAAAAAAAAAAAAAAAAAAAAAAAAAAAAAAAAAAAAAA\
      AAAAAAAAAAAAAAAAAAAAAAAAAAAAAAAAAAAAAAAAAAAAAAAAAAAAAAAAAAAAAAAA";

// Reads the class of a code point from the table.
pub fn class_in(classes: &[u8], p: u32) -> u8
    requires classes_value { classes.now ≡ table }
    requires p_bound { p < 768 }
    ensures { result ≡ class_of p }
{
    classes[p as usize]
}
