// The state that goes from event to event: the numbers, and the open elements beside them. The
// array is read and written in place by who loops over events. What the functions ask and leave is
// in specs/Opened.antt.
#![tactic(auto)]

ghost use Rattle.std.specs.Prelude.{◌≡◌, ◌%◌, ◌≤◌};
ghost use Rattle.spec_exi.specs.Sizes.{max_open};
ghost use Rattle.mem_layout.specs.Layout.{name_rows};
ghost use Rattle.grammar_open.specs.Opened.{innermost_in, none_open};

use mem_layout::NAME_ROWS;
use mem_state::Core;
use sizes::MAX_OPEN;

// The numbers, and the open elements by the rows of their names, the innermost last.
#[repr(C)]
#[derive(Clone, Copy)]
pub struct State {
    pub core: Core,
    pub opened: [u16; MAX_OPEN],
}

// No element is open.
pub fn none_open(core: Core) -> State
    ensures { result ≡ none_open core }
{
    State {
        core,
        opened: [0u16; MAX_OPEN],
    }
}

// A cell of the array as the row of a name, which is below 128.
fn row(x: u16) -> u32
    ensures { result ≡ x % name_rows }
{
    x as u32 % NAME_ROWS
}

// The innermost open element, or 0.
pub fn innermost(opened: &[u16; MAX_OPEN], depth: usize) -> u32
    requires { depth ≤ max_open }
    ensures { result ≡ innermost_in opened.now depth }
{
    if depth == 0 {
        return 0;
    }
    let last = depth - 1;
    row(opened[last])
}
