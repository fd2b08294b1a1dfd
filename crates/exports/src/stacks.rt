// The entry points for a stack and its strips.
ghost use Rattle.std.specs.Prelude.{◌≡◌};
ghost use Rattle.stack.specs.Faults.{StackJudged};
ghost use Rattle.bands.specs.Bands.{BandsAnswer};
ghost use Rattle.mesh.specs.Meshing.{Measured, Triangled};
ghost use Rattle.exports.specs.Shown.{Shows, valued};
ghost use Rattle.exports.specs.Stacks.{stack_as, banded_as, meshed_as};

use crate::Answer;
use fault::{Refusal, Status, succeeded};
use mesh::Closed;
use stack::{Fit, Layer};

// A stack's numbers of points and of steps of all bands.
#[repr(C)]
#[derive(Clone, Copy, Debug, PartialEq, Eq)]
pub struct StackAnswer {
    pub status: Status,
    pub points: usize,
    pub steps: usize,
}

// The number of steps that were written.
#[repr(C)]
#[derive(Clone, Copy, Debug, PartialEq, Eq)]
pub struct StepsAnswer {
    pub status: Status,
    pub steps: usize,
}

// The number of triangles that were written, and six times the volume.
#[repr(C)]
#[derive(Clone, Copy, Debug, PartialEq, Eq)]
pub struct MeshAnswer {
    pub status: Status,
    pub triangles: usize,
    pub six: i64,
}

// The judgement of a stack.
pub fn register_judge_stack(layers: &[Layer], coords: &[i32]) -> StackAnswer
    ensures { Shows (StackJudged layers.now coords.now) stack_as result }
{
    StackAnswer::from(stack::judge_stack(layers, coords))
}

// The first best strip of every band, at the front of `strips`.
pub fn register_best_strips(
    layers: &[Layer],
    coords: &[i32],
    strips: &mut [u8],
    work: &mut [u8],
) -> StepsAnswer
    ensures { Shows (BandsAnswer layers.now coords.now strips.old work.old strips.new work.new) banded_as result }
{
    StepsAnswer::from(bands::best_strips(layers, coords, strips, work))
}

// Six times the volume.
pub fn register_volume(layers: &[Layer], coords: &[i32], strips: &[u8]) -> Answer
    ensures { Shows (Measured layers.now coords.now strips.now) valued result }
{
    Answer::from(mesh::volume(layers, coords, strips))
}

// The closed triangle list, at the front of `out`, and six times its volume.
pub fn register_triangles(
    layers: &[Layer],
    coords: &[i32],
    strips: &[u8],
    out: &mut [u32],
) -> MeshAnswer
    ensures { Shows (Triangled layers.now coords.now strips.now out.old out.new) meshed_as result }
{
    MeshAnswer::from(mesh::triangles(layers, coords, strips, out))
}

impl From<Result<Fit, Refusal>> for StackAnswer {
    ghost from_gives = { λ x r. r ≡ stack_as x };

    fn from(judged: Result<Fit, Refusal>) -> StackAnswer {
        match judged {
            Ok(Fit { points, steps }) => StackAnswer {
                status: succeeded(),
                points,
                steps,
            },
            Err(refusal) => StackAnswer {
                status: Status::from(refusal),
                points: 0,
                steps: 0,
            },
        }
    }
}

impl From<Result<usize, Refusal>> for StepsAnswer {
    ghost from_gives = { λ x r. r ≡ banded_as x };

    fn from(banded: Result<usize, Refusal>) -> StepsAnswer {
        match banded {
            Ok(steps) => StepsAnswer {
                status: succeeded(),
                steps,
            },
            Err(refusal) => StepsAnswer {
                status: Status::from(refusal),
                steps: 0,
            },
        }
    }
}

impl From<Result<Closed, Refusal>> for MeshAnswer {
    ghost from_gives = { λ x r. r ≡ meshed_as x };

    fn from(meshed: Result<Closed, Refusal>) -> MeshAnswer {
        match meshed {
            Ok(Closed { triangles, six }) => MeshAnswer {
                status: succeeded(),
                triangles,
                six,
            },
            Err(refusal) => MeshAnswer {
                status: Status::from(refusal),
                triangles: 0,
                six: 0,
            },
        }
    }
}
