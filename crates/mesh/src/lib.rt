// The closed triangle list of a stack, and six times its volume.
#![tactic(auto)]

ghost use Rattle.mesh.specs.Meshing.{Measured, Triangled};

use crate::six::six_of;
use crate::writers::{put_all, triangle_count};
use fault::{Fault, Refusal, refuse};
use stack::Layer;

mod six;
mod writers;

// What filling in the closed list answers: the number of triangles, and six times the volume.
#[derive(Clone, Copy, Debug, PartialEq, Eq)]
pub struct Closed {
    pub triangles: usize,
    pub six: i64,
}

// Six times the volume. Takes every stack and every slice: the stack is judged, then the strips.
pub fn volume(layers: &[Layer], coords: &[i32], strips: &[u8]) -> Result<i64, Refusal>
    ensures { Measured layers.now coords.now strips.now result }
{
    stack::judge_stack(layers, coords)?;
    stack::judge_strips(layers, strips)?;
    Ok(six_of(layers, coords, strips))
}

// Takes every stack and every slice. The room is held against the stack alone, before the strips are looked at, and nothing is
// written before they are judged. Six times the volume is what `volume` answers.
pub fn triangles(
    layers: &[Layer],
    coords: &[i32],
    strips: &[u8],
    out: &mut [u32],
) -> Result<Closed, Refusal>
    ensures { Triangled layers.now coords.now strips.now out.old out.new result }
{
    let fit = stack::judge_stack(layers, coords)?;
    let count = triangle_count(layers, fit.steps);
    if out.len() < 3 * count {
        return Err(refuse(Fault::Room, 0));
    }
    stack::judge_strips(layers, strips)?;
    let six = six_of(layers, coords, strips);
    put_all(out, layers, strips, fit.steps);
    Ok(Closed {
        triangles: count,
        six,
    })
}
