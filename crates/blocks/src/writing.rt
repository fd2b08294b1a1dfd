// Contents sealed in blocks. Each writer writes at the front of the slice that it is lent and leaves the rest as it was, so a caller
// lends the part from where that block begins.
ghost use Rattle.std.specs.Prelude.{◌*◌, ◌≤◌, ◌<◌, length, take, drop};
ghost use Rattle.blocks.specs.Blocks.{block_of, sealed};
ghost use Rattle.whole.specs.Filled.{Filled};

use crate::check::{behind, check};
use crate::copying::copy;

// Block `b`. The check is taken of the contents as they stand in the block, with their filler.
fn put_block(contents: &[u8], out: &mut [u8], b: usize)
    requires { (b < 98) × (512 ≤ length out.old) }
    ensures { Filled (block_of b (take 508 (drop (508 * b) contents.now))) out.old out.new }
{
    copy(contents, 508 * b, out);
    let sum = check(&out[..508], b);
    out[508..512].copy_from_slice(&behind(sum));
}

// All blocks, each in its own part.
pub(crate) fn put_blocks(contents: &[u8], out: &mut [u8], blocks: usize)
    requires { (blocks ≤ 98) × (512 * blocks ≤ length out.old) }
    ensures { Filled (sealed blocks 0 contents.now) out.old out.new }
{
    for b in 0..blocks {
        let at = 512 * b;
        put_block(contents, &mut out[at..], b);
    }
}
