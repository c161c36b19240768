// Marks of names in work memory (equal attributes): a cell for each row of a name. An attribute's
// name gets the number of its start tag; numbers grow, so those of earlier start tags are less.
// Both functions are safe on any memory. What the contracts cite is in specs/Marks.antt.
#![tactic(auto)]

ghost use Rattle.std.specs.Prelude.{◌≡◌};
ghost use Rattle.mem_marks.specs.Marks.{MarkPre, marked_in, with_mark};

use mem_layout::NAME_MARKS;

// Whether a name has this mark.
pub fn is_marked(work: &[u32], name: u32, tag: u32) -> bool
    requires { MarkPre work.now name }
    ensures { result ≡ marked_in work.now tag name }
{
    work[NAME_MARKS + name as usize] == tag
}

pub fn mark(work: &mut [u32], name: u32, tag: u32)
    requires { MarkPre work.old name }
    ensures { work.new ≡ with_mark work.old tag name }
{
    work[NAME_MARKS + name as usize] = tag;
}
