// The form of the contents: what bytes hold, decoded into memory of our own. Whoever judges it and hands it over knows no form.
ghost use Rattle.std.specs.Prelude.{◌≤◌, length};
ghost use Rattle.register.specs.Answering.{Decodes};

use crate::decoding::two_at;
use crate::fronts::{put_coords, put_entries};
use crate::judging::{content_right, extent_of};
use fault::{Fault, Refusal, refuse};
use stack::Layer;

// What contents hold: a stack, its coordinates and its steps.
#[derive(Clone, Copy, Debug, PartialEq, Eq)]
pub(crate) struct Held<'a> {
    pub layers: &'a [Layer],
    pub coords: &'a [i32],
    pub strips: &'a [u8],
}

// Decodes the layers to the front of `entries` and the coordinates to the front of `numbers`; the steps are bytes of the contents. How far
// contents reach is held against their length first, so that there is room for all.
pub(crate) fn decode<'a>(
    contents: &'a [u8],
    entries: &'a mut [Layer],
    numbers: &'a mut [i32],
) -> Result<Held<'a>, Refusal>
    requires { (length contents.now ≤ 49784) × (20 ≤ length entries.old) × (12446 ≤ length numbers.old) }
    ensures { Decodes contents.now result }
{
    let many = two_at(contents, 0);
    if many < 2 || 20 < many {
        return Err(refuse(Fault::Layers, 0));
    }
    put_entries(contents, many, entries);
    let layers = &entries[..many];
    let extent = extent_of(contents, layers);
    if !content_right(contents, extent.end) {
        return Err(refuse(Fault::Content, 0));
    }
    put_coords(contents, layers, numbers);
    Ok(Held {
        layers,
        coords: &numbers[..2 * extent.points],
        strips: &contents[extent.from..extent.end],
    })
}
