// Clearing: every cell from `at` on, or every cell, is 0. Each is a call of the library's `fill`,
// which is one function for every width.
#![tactic(auto)]

ghost use Rattle.std.specs.Prelude.{◌≡◌, ◌++◌, ◌-◌, length, take, replicate};

pub fn cells_from(x: &mut [u32], at: usize)
    ensures { x.new ≡ take at x.old ++ replicate (length x.old - at) 0 }
{
    if at < x.len() {
        x[at..].fill(0);
    }
}

pub fn cells(x: &mut [u32])
    ensures { x.new ≡ replicate (length x.old) 0 }
{
    cells_from(x, 0);
}

pub fn octets(x: &mut [u8])
    ensures { x.new ≡ replicate (length x.old) 0 }
{
    x.fill(0);
}
