// The entry points for a stack and its strips.
ghost use Rattle.stack.specs.Faults.{StackJudged};
ghost use Rattle.bands.specs.Bands.{BandsAnswer};
ghost use Rattle.mesh.specs.Meshing.{Measured, Triangled};
ghost use Rattle.exports.specs.Shown.{Shows, valued};
ghost use Rattle.exports.specs.Stacks.{stack_as, banded_as, meshed_as};

use exports::Answer;
use exports::stacks::{self, MeshAnswer, StackAnswer, StepsAnswer};
use stack::Layer;

// The judgement of a stack.
#[unsafe(no_mangle)]
pub extern "C" fn register_judge_stack(layers: &[Layer], coords: &[i32]) -> StackAnswer
    ensures { Shows (StackJudged layers.now coords.now) stack_as result }
{
    stacks::register_judge_stack(layers, coords)
}

// The first best strip of every band, at the front of `strips`.
#[unsafe(no_mangle)]
pub extern "C" fn register_best_strips(
    layers: &[Layer],
    coords: &[i32],
    strips: &mut [u8],
    work: &mut [u8],
) -> StepsAnswer
    ensures { Shows (BandsAnswer layers.now coords.now strips.old work.old
        strips.new work.new) banded_as result }
{
    stacks::register_best_strips(layers, coords, strips, work)
}

// Six times the volume.
#[unsafe(no_mangle)]
pub extern "C" fn register_volume(layers: &[Layer], coords: &[i32], strips: &[u8]) -> Answer
    ensures { Shows (Measured layers.now coords.now strips.now) valued result }
{
    stacks::register_volume(layers, coords, strips)
}

// The closed triangle list, at the front of `out`, and six times its volume.
#[unsafe(no_mangle)]
pub extern "C" fn register_triangles(
    layers: &[Layer],
    coords: &[i32],
    strips: &[u8],
    out: &mut [u32],
) -> MeshAnswer
    ensures { Shows (Triangled layers.now coords.now strips.now out.old out.new)
        meshed_as result }
{
    stacks::register_triangles(layers, coords, strips, out)
}
