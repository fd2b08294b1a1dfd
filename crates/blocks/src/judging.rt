// Judging one block of a file.
ghost use Rattle.std.specs.Prelude.{suc, ◌*◌, ◌≤◌, ◌<◌, length};
ghost use Rattle.whole.specs.Tells.{Tells};
ghost use Rattle.blocks.specs.Faults.{CheckFault};

use crate::check::{behind, check};

// Whether block `b` has a wrong check or wrong zero bytes.
pub(crate) fn block_wrong(file: &[u8], b: usize) -> bool
    requires { (b < 98) × (512 * suc b ≤ length file.now) }
    ensures { Tells (CheckFault file.now b) result }
{
    let (contents, tail) = file[512 * b..512 * (b + 1)].split_at(508);
    let right = behind(check(contents, b));
    tail != right.as_slice()
}
