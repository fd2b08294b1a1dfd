// A lent slice of layer entries, taken into a stack by value, and filled from one. All that is judged, measured and written is proved on
// slices; this crate is for a program that keeps a stack by value.
#![tactic(auto)]

ghost use Rattle.std.specs.Prelude.{◌≡◌, suc, ◌<◌, min, length};
ghost use Rattle.stack.specs.Laid.{stack_of};
ghost use Rattle.entries.specs.Gathering.{Gathering};
ghost use Rattle.entries.specs.Scattered.{written, scattered};

use stack::{Layer, Stack, no_layers, with_layer};

// The first 20 entries, empty ones past the last, and how many entries there are.
pub fn gather(layers: &[Layer]) -> Stack
    ensures { result ≡ stack_of layers.now }
{
    let mut stack = no_layers(layers.len());
    for k in 0..up_to_20(layers.len()) {
        stack = put(layers, stack, k);
    }
    stack
}

// The entries of a stack, at the front of the slice, as many as it holds and as fit. The rest of the slice is as before.
pub fn scatter(layers: &mut [Layer], stack: Stack)
    ensures { layers.new ≡ scattered stack layers.old }
{
    for k in 0..written_of(stack, layers.len()) {
        layers[k] = stack.layer(k);
    }
}

// Entry `k`, put behind those that are gathered.
fn put(layers: &[Layer], stack: Stack, k: usize) -> Stack
    requires { (k < length layers.now) × (k < 20) × Gathering stack layers.now k }
    ensures { Gathering result layers.now (suc k) }
{
    with_layer(stack, k, layers[k])
}

fn up_to_20(n: usize) -> usize
    ensures { result ≡ min n 20 }
{
    if n < 20 { n } else { 20 }
}

fn written_of(stack: Stack, room: usize) -> usize
    ensures { result ≡ written stack room }
{
    let n = up_to_20(stack.count);
    if n < room { n } else { room }
}
