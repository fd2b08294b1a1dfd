// The contents of a file, written byte by byte. Each writer writes at the front of the slice that it is lent and leaves the rest as it
// was, so a caller lends the part from where those bytes begin.
ghost use Rattle.std.specs.Prelude.{◌≡◌, ◌++◌, ◌+◌, ◌*◌, ◌/◌, ◌≤◌, ◌<◌, length};
ghost use Rattle.blocks.specs.Blocks.{two};
ghost use Rattle.whole.specs.Filled.{Filled};
ghost use Rattle.stack.specs.Entries.{stop};
ghost use Rattle.stack.specs.Faults.{AcceptedStack};
ghost use Rattle.stack.specs.Strips.{StripsRight};
ghost use Rattle.register.specs.Contents.{four, fours, layer_bytes, layers_bytes, contents, contents_long};

use crate::fronts::fill_front;
use stack::{Layer, trace_of};

// Two bytes, low first.
fn put_two(out: &mut [u8], v: usize)
    requires { (v < 65536) × (2 ≤ length out.old) }
    ensures { Filled (two v) out.old out.new }
{
    fill_front(&(v as u16).to_le_bytes(), out);
}

// Four bytes, low first.
fn put_four(out: &mut [u8], z: i32)
    requires { 4 ≤ length out.old }
    ensures { Filled (four z) out.old out.new }
{
    fill_front(&z.to_le_bytes(), out);
}

fn put_fours(out: &mut [u8], numbers: &[i32])
    requires { 4 * length numbers.now ≤ length out.old }
    ensures { Filled (fours numbers.now) out.old out.new }
{
    for (k, z) in numbers.iter().enumerate() {
        let at = 4 * k;
        put_four(&mut out[at..], *z);
    }
}

// Plane, number of points, then x and y of a layer whose trace lies inside the list; and how many bytes that takes.
fn put_layer(out: &mut [u8], layer: Layer, coords: &[i32]) -> usize
    requires { (stop layer ≤ length coords.now / 2) × (layer.count < 65536) × (6 + 8 * layer.count ≤ length out.old) }
    ensures { (result ≡ length (layer_bytes coords.now layer)) × Filled (layer_bytes coords.now layer) out.old out.new }
{
    let count = 4;
    let points = 6;
    put_four(out, layer.plane);
    put_two(&mut out[count..], layer.count);
    put_fours(&mut out[points..], trace_of(coords, layer));
    6 + 8 * layer.count
}

// All layers, from the lowest, and how many bytes they take.
fn put_layers(out: &mut [u8], layers: &[Layer], coords: &[i32]) -> usize
    requires { AcceptedStack layers.now coords.now × (length (layers_bytes coords.now layers.now) ≤ length out.old) }
    ensures { (result ≡ length (layers_bytes coords.now layers.now))
        × Filled (layers_bytes coords.now layers.now) out.old out.new }
{
    let mut at = 0;
    for layer in layers {
        at += put_layer(&mut out[at..], *layer, coords);
    }
    at
}

// Number of layers, layers, strips.
pub(crate) fn put_contents(out: &mut [u8], layers: &[Layer], coords: &[i32], strips: &[u8])
    requires { AcceptedStack layers.now coords.now × StripsRight layers.now strips.now
        × (contents_long layers.now coords.now ≤ length out.old) }
    ensures { Filled (contents layers.now coords.now strips.now) out.old out.new }
{
    let first = 2;
    put_two(out, layers.len());
    let at = first + put_layers(&mut out[first..], layers, coords);
    fill_front(strips, &mut out[at..]);
}
