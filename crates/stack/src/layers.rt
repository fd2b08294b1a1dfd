// The entries of a stack, its bands, and what of the coordinate list is a layer's.
ghost use Rattle.std.specs.Prelude.{◌≡◌, ◌+◌, ◌-◌, ◌^◌, min, length};
ghost use Rattle.whole.specs.Tells.{Tells};
ghost use Rattle.stack.specs.Entries.{entry, trace_of, band_at, steps};
ghost use Rattle.stack.specs.Faults.{LayersRight};

use crate::{Band, Layer};

// What is read past the last entry.
pub(crate) const NONE: Layer = Layer {
    plane: 0,
    first: 0,
    count: 0,
};

// Entry `k`, and one of zeros past the last.
pub fn layer_at(layers: &[Layer], k: usize) -> Layer
    ensures { result ≡ entry layers.now k }
{
    layers.get(k).copied().unwrap_or(NONE)
}

// Layer `k` and the one above it. (No slice has so many entries that the number of the one above is cut off.)
pub fn band_at(layers: &[Layer], k: usize) -> Band
    ensures { result ≡ band_at layers.now k }
{
    Band {
        lower: layer_at(layers, k),
        upper: layer_at(layers, k.saturating_add(1)),
    }
}

// A band for each layer but the topmost.
pub fn band_count(layers: &[Layer]) -> usize
    ensures { result ≡ length layers.now - 1 }
{
    layers.len().saturating_sub(1)
}

impl Band {
    // The steps of a strip between the two layers. It takes every two counts, so the sum is cut off where it would wrap.
    pub fn steps(self) -> usize
        ensures { result ≡ min (self.lower.count + self.upper.count) (2 ^ 64 - 1) }
    {
        self.lower.count.saturating_add(self.upper.count)
    }
}

// Whether there are 2 to 20 layers.
pub(crate) fn layers_right(layers: &[Layer]) -> bool
    ensures { Tells (LayersRight layers.now) result }
{
    (2..=20).contains(&layers.len())
}

// The trace of a layer: what of it lies inside the list. In a stack that keeps the rule that is all of it.
#[tactic(auto, using(crate::proofs::StackLaws::trace_of_part))]
pub fn trace_of(coords: &[i32], layer: Layer) -> &[i32]
    ensures { result.now ≡ trace_of coords.now layer }
{
    let from = layer.first.saturating_mul(2).min(coords.len());
    let to = from + layer.count.saturating_mul(2).min(coords.len() - from);
    &coords[from..to]
}

// The steps of all bands, cut off at `most`: so the sum cannot wrap.
pub(crate) fn steps_up_to(layers: &[Layer], most: usize) -> usize
    ensures { result ≡ min (steps layers.now) most }
{
    let mut sum: usize = 0;
    for k in 0..band_count(layers) {
        sum = sum.saturating_add(band_at(layers, k).steps()).min(most);
    }
    sum
}
