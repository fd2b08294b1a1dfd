// Layers, numbers and bytes, at the front of the slice that is lent; the rest of it stays.
ghost use Rattle.std.specs.Prelude.{◌+◌, ◌*◌, ◌≤◌, length, drop};
ghost use Rattle.register.specs.Decoding.{numbers, layers_from, coords_of};
ghost use Rattle.register.specs.Answering.{Layered};
ghost use Rattle.whole.specs.Filled.{Filled};

use crate::decoding::{layer_here, number_at};
use stack::Layer;

// `many` numbers, from `at` on.
fn put_numbers(contents: &[u8], at: usize, many: usize, out: &mut [i32])
    requires { (at + 4 * many ≤ 16777216) × (many ≤ length out.old) }
    ensures { Filled (numbers many (drop at contents.now)) out.old out.new }
{
    for k in 0..many {
        out[k] = number_at(contents, at + 4 * k);
    }
}

// The first `many` layers. Each stands behind the points of those before it, so its place follows from their number.
pub(crate) fn put_entries(contents: &[u8], many: usize, out: &mut [Layer])
    requires { (many ≤ 20) × (many ≤ length out.old) }
    ensures { Filled (layers_from many 0 (drop 2 contents.now)) out.old out.new }
{
    let mut first = 0;
    for k in 0..many {
        let layer = layer_here(contents, k, first);
        out[k] = layer;
        first += layer.count;
    }
}

// The coordinates of all layers, each layer's behind those of the layers before.
pub(crate) fn put_coords(contents: &[u8], layers: &[Layer], out: &mut [i32])
    requires { Layered contents.now layers.now × (length (coords_of contents.now) ≤ length out.old) }
    ensures { Filled (coords_of contents.now) out.old out.new }
{
    for (k, layer) in layers.iter().enumerate() {
        let at = 2 + 6 * k + 8 * layer.first;
        let to = 2 * layer.first;
        put_numbers(contents, at + 6, 2 * layer.count, &mut out[to..]);
    }
}

// A list as it stands.
pub(crate) fn fill_front<T: Copy>(list: &[T], out: &mut [T])
    requires { length list.now ≤ length out.old }
    ensures { Filled list.now out.old out.new }
{
    out[..list.len()].copy_from_slice(list);
}
