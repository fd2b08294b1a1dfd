// A stack of layers over one coordinate list, and the strips of its bands. A stack is a lent slice of entries.
#![tactic(auto)]

pub use by_value::{no_layers, with_layer};
pub use judging::judge_stack;
pub use layers::{band_at, band_count, layer_at, trace_of};
pub use strips::{is_strip, judge_strips};

mod by_value;
mod judging;
mod layers;
mod strips;

// One layer: its plane, its first point in the common list, and its number of points.
#[repr(C)]
#[derive(Clone, Copy, Debug, PartialEq, Eq)]
pub struct Layer {
    pub plane: i32,
    pub first: usize,
    pub count: usize,
}

// The entries of a stack, by value: how many there are, and the first 20 of them.
#[derive(Clone, Copy, Debug, PartialEq, Eq)]
pub struct Stack {
    pub layers: [Layer; 20],
    pub count: usize,
}

// What lies between a layer and the one above it.
#[derive(Clone, Copy, Debug, PartialEq, Eq)]
pub struct Band {
    pub lower: Layer,
    pub upper: Layer,
}

// What judging a stack answers where all is in order: the number of points, and of the steps of all bands.
#[derive(Clone, Copy, Debug, PartialEq, Eq)]
pub struct Fit {
    pub points: usize,
    pub steps: usize,
}
