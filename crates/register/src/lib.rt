// The register file: a stack with its strips written as blocks, and read back.
#![tactic(auto)]

ghost use Rattle.register.specs.Reading.{lent, ReadAnswer};
ghost use Rattle.register.specs.Writing.{WriteAnswer};

use crate::putting::put_contents;
use crate::reading::read_contents;
use blocks::{judge_blocks, seal};
use fault::{Fault, Refusal, refuse};
use stack::{Layer, judge_stack, judge_strips};

mod decoding;
mod form_one;
mod fronts;
mod judging;
mod putting;
mod reading;

// What a file holds: the numbers of its layers, of its points, and of the steps of all bands.
#[derive(Clone, Copy, Debug, PartialEq, Eq)]
pub struct FileRead {
    pub layers: usize,
    pub points: usize,
    pub steps: usize,
}

// Answers the number of bytes. Takes every stack and every slice. The room is held against the stack alone, before the strips are looked
// at, and nothing is written before they are judged.
pub fn write(
    layers: &[Layer],
    coords: &[i32],
    strips: &[u8],
    out: &mut [u8],
) -> Result<usize, Refusal>
    ensures { WriteAnswer layers.now coords.now strips.now out.old out.new result }
{
    let fit = judge_stack(layers, coords)?;
    let long = 2 + 6 * layers.len() + 8 * fit.points + fit.steps;
    if out.len() < 512 * long.div_ceil(508) {
        return Err(refuse(Fault::Room, 0));
    }
    judge_strips(layers, strips)?;
    // Put together in memory of our own, and sealed. There is room, so nothing is refused here.
    let mut contents = [0u8; 49_784];
    put_contents(&mut contents, layers, coords, strips);
    let number = seal(&contents[..long], out)?;
    Ok(512 * number)
}

// Takes every file and slices of every length. All blocks are judged before any content is looked at, and nothing is written before all
// is judged.
pub fn read(
    file: &[u8],
    layers: &mut [Layer],
    coords: &mut [i32],
    strips: &mut [u8],
) -> Result<FileRead, Refusal>
    ensures { ReadAnswer file.now (lent layers.old coords.old strips.old)
        (lent layers.new coords.new strips.new) result }
{
    let number = judge_blocks(file)?;
    let contents = blocks::contents(file);
    let end = 508 * number;
    read_contents(&contents[..end], layers, coords, strips)
}
