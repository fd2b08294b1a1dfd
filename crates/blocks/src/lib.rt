// The blocks of the register file: each with its contents, their check and two zero bytes. Files are judged and opened here, and
// contents are sealed; what the contents say is the matter of the layer above.
#![tactic(auto)]

ghost use Rattle.blocks.specs.Faults.{BlocksJudged, SealAnswer};
ghost use Rattle.blocks.specs.Opened.{Opened};

use crate::judging::block_wrong;
use crate::opening::open_all;
use crate::writing::put_blocks;
use fault::{Fault, Refusal, refuse};

mod check;
mod copying;
mod judging;
mod opening;
mod writing;

// The number of blocks, each with its check and zero bytes. Takes every file: BLOCK before anything, then the lowest block at fault. Each
// byte is read once.
pub fn judge_blocks(file: &[u8]) -> Result<usize, Refusal>
    ensures { BlocksJudged file.now result }
{
    let blocks = file.len() / 512;
    if file.len() % 512 != 0 || blocks < 1 || 98 < blocks {
        return Err(refuse(Fault::Block, 0));
    }
    match (0..blocks).find(|b| block_wrong(file, *b)) {
        Some(wrong) => Err(refuse(Fault::Check, wrong)),
        None => Ok(blocks),
    }
}

// The contents of 98 blocks, one after the other. Takes every file: what it does not have is 0.
pub fn contents(file: &[u8]) -> [u8; 49784]
    ensures { Opened file.now result }
{
    let mut all = [0u8; 49_784];
    open_all(file, &mut all);
    all
}

// Answers the number of blocks that were written. Takes every contents and every slice: BLOCK, then ROOM, and nothing is written before
// both are decided. The length is held against 98 blocks before anything is added to it, so that no sum can wrap.
pub fn seal(contents: &[u8], out: &mut [u8]) -> Result<usize, Refusal>
    ensures { SealAnswer contents.now out.old out.new result }
{
    let long = contents.len();
    if long < 1 || 49_784 < long {
        return Err(refuse(Fault::Block, 0));
    }
    let blocks = long.div_ceil(508);
    if out.len() < 512 * blocks {
        return Err(refuse(Fault::Room, 0));
    }
    put_blocks(contents, out, blocks);
    Ok(blocks)
}
