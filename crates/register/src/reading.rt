// What contents hold, judged and handed over: the stack, ROOM, the strips; and nothing is written before all are judged.
ghost use Rattle.std.specs.Prelude.{◌≤◌, length};
ghost use Rattle.register.specs.Reading.{lent, HandedOver};
ghost use Rattle.register.specs.Answering.{ReadFrom};

use crate::FileRead;
use crate::form_one::{Held, decode};
use crate::fronts::fill_front;
use fault::{Fault, Refusal, refuse};
use stack::{Layer, judge_stack, judge_strips};

// Decoded into memory of our own, so that a refusal leaves the lent one as it was: room for 20 entries, and for all numbers that the
// contents of 98 blocks can hold.
pub(crate) fn read_contents(
    contents: &[u8],
    layers: &mut [Layer],
    coords: &mut [i32],
    strips: &mut [u8],
) -> Result<FileRead, Refusal>
    requires { length contents.now ≤ 49784 }
    ensures { ReadFrom contents.now (lent layers.old coords.old strips.old)
        (lent layers.new coords.new strips.new) result }
{
    let none = Layer {
        plane: 0,
        first: 0,
        count: 0,
    };
    let mut entries = [none; 20];
    let mut numbers = [0i32; 12_446];
    let held = decode(contents, &mut entries, &mut numbers)?;
    hand_over(held, layers, coords, strips)
}

// Takes a stack with its coordinates and steps, in whatever form they were stored.
fn hand_over(
    held: Held,
    layers: &mut [Layer],
    coords: &mut [i32],
    strips: &mut [u8],
) -> Result<FileRead, Refusal>
    ensures { HandedOver held.entry.layers.now held.entry.coords.now held.entry.strips.now
        (lent layers.old coords.old strips.old) (lent layers.new coords.new strips.new) result }
{
    judge_stack(held.layers, held.coords)?;
    if layers.len() < held.layers.len()
        || coords.len() < held.coords.len()
        || strips.len() < held.strips.len()
    {
        return Err(refuse(Fault::Room, 0));
    }
    judge_strips(held.layers, held.strips)?;
    fill_front(held.layers, layers);
    fill_front(held.coords, coords);
    fill_front(held.strips, strips);
    Ok(FileRead {
        layers: held.layers.len(),
        points: held.coords.len() / 2,
        steps: held.strips.len(),
    })
}
