// The contents of a file's blocks, one after the other.
ghost use Rattle.std.specs.Prelude.{◌≡◌, length};
ghost use Rattle.blocks.specs.Opened.{Opened};

use crate::copying::copy;

// All blocks that a file can have, each to its place. Of those that this one does not have the contents are 0.
pub(crate) fn open_all(file: &[u8], out: &mut [u8])
    requires { length out.old ≡ 49784 }
    ensures { Opened file.now out.new }
{
    for b in 0..98 {
        let to = 508 * b;
        copy(file, 512 * b, &mut out[to..]);
    }
}
