// How far contents reach, and whether they are just that long.
ghost use Rattle.std.specs.Prelude.{◌≡◌, ◌≤◌, length, replicate};
ghost use Rattle.whole.specs.Tells.{Tells};
ghost use Rattle.register.specs.Answering.{contents_end, Ended, Layered, Reaches};

use stack::{Layer, layer_at};

// The number of points, and the places where the steps begin and end.
#[derive(Clone, Copy, Debug, PartialEq, Eq)]
pub(crate) struct Extent {
    pub points: usize,
    pub from: usize,
    pub end: usize,
}

// By the counts alone, whatever they are. In the steps every layer but the lowest and the highest counts twice.
pub(crate) fn extent_of(contents: &[u8], layers: &[Layer]) -> Extent
    requires { Layered contents.now layers.now }
    ensures { Reaches contents.now result }
{
    let many = layers.len();
    let low = layer_at(layers, 0);
    let top = layer_at(layers, many - 1);
    let points = top.first + top.count;
    let from = 2 + 6 * many + 8 * points;
    Extent {
        points,
        from,
        end: from + (2 * points - low.count - top.count),
    }
}

fn all_zero(list: &[u8]) -> bool
    ensures { Tells (list.now ≡ replicate (length list.now) 0) result }
{
    list.iter().all(|byte| *byte == 0)
}

// Whether the steps, which end at `end`, end inside the contents and in the last block, and zeros stand behind them.
pub(crate) fn content_right(contents: &[u8], end: usize) -> bool
    requires { (end ≡ contents_end contents.now) × (end ≤ 40000000) }
    ensures { Tells (Ended contents.now) result }
{
    if contents.len() < end || end + 508 <= contents.len() {
        return false;
    }
    all_zero(&contents[end..])
}
