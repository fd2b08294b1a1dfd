// The writers of the closed triangle list. Each writes at the front of the slice that it is lent and leaves the rest as it was, so
// a caller lends the part from where those triangles begin.
ghost use Rattle.std.specs.Prelude.{◌≡◌, [], ◌∷◌, suc, ◌+◌, ◌*◌, ◌-◌, ◌≤◌, ◌<◌, length};
ghost use Rattle.ways.specs.Strip.{Strip};
ghost use Rattle.stack.specs.Entries.{steps};
ghost use Rattle.mesh.specs.Triangles.{tri, band_from, fan_tri};
ghost use Rattle.strip.specs.Bytes.{steps_of};
ghost use Rattle.mesh.specs.Closed.{ring, bands_to, closed, triangles};
ghost use Rattle.mesh.specs.Working.{Sized};
ghost use Rattle.mesh.specs.Writing.{Put, facing, cap_of, Numbered, StepReady, Stepped, Drawn};

use stack::{Band, Layer, band_at, band_count, layer_at};

// How far a band has come along its two traces.
#[derive(Clone, Copy, Debug, PartialEq, Eq)]
pub(crate) struct Pair {
    pub i: usize,
    pub j: usize,
}

// The two caps: seen from below, the triangles of the bottom one run the other way round.
#[derive(Clone, Copy, Debug, PartialEq, Eq)]
pub(crate) enum Cap {
    Bottom,
    Top,
}

// The triangles of the closed list: one a step of all bands, and two fewer than the points in either cap.
#[tactic(auto, using(crate::proofs::ClosedLaws::triangles_counted))]
pub(crate) fn triangle_count(layers: &[Layer], taken: usize) -> usize
    requires { Sized layers.now × (taken ≡ steps layers.now) }
    ensures { result ≡ triangles layers.now }
{
    let bottom = layer_at(layers, 0);
    let top = layer_at(layers, layers.len() - 1);
    taken + (bottom.count - 2) + (top.count - 2)
}

// Point `i` of a layer, where the point after the last is the first: no remainder, since no index goes further.
#[tactic(auto, using(crate::proofs::WriteLaws::vertex_first, crate::proofs::WriteLaws::vertex_inner))]
fn vertex(layer: Layer, i: usize) -> u32
    requires { Numbered layer × (i ≤ layer.count) }
    ensures { result ≡ ring layer i }
{
    if i == layer.count {
        return layer.first as u32;
    }
    (layer.first + i) as u32
}

// One triangle. (Copied from an array of three it takes three to four times as long.)
fn put(out: &mut [u32], u: u32, v: u32, w: u32)
    requires { 3 ≤ length out.old }
    ensures { Put (tri u v w ∷ []) out.old out.new }
{
    out[0] = u;
    out[1] = v;
    out[2] = w;
}

// The triangle of one step from a pair, and the pair that the step goes to.
fn put_step(out: &mut [u32], band: Band, pair: Pair, byte: u8) -> Pair
    requires { StepReady band.lower band.upper pair byte out.old }
    ensures { Stepped band.lower band.upper pair byte out.old out.new result }
{
    let from = vertex(band.lower, pair.i);
    let across = vertex(band.upper, pair.j);
    if byte == 0 {
        let next = pair.i + 1;
        put(out, from, vertex(band.lower, next), across);
        return Pair { i: next, j: pair.j };
    }
    let next = pair.j + 1;
    put(out, from, vertex(band.upper, next), across);
    Pair { i: pair.i, j: next }
}

// A band, by its part of the strips.
fn put_band(out: &mut [u32], band: Band, part: &[u8])
    requires { Numbered band.lower × Numbered band.upper × Strip band.lower.count band.upper.count (steps_of part.now)
        × (3 * length part.now ≤ length out.old) }
    ensures { Put (band_from (ring band.lower) (ring band.upper) 0 0 (steps_of part.now)) out.old out.new }
{
    let mut pair = Pair { i: 0, j: 0 };
    for (k, byte) in part.iter().enumerate() {
        pair = put_step(&mut out[3 * k..], band, pair, *byte);
    }
}

// Triangle `k` of a cap, from 0 on.
fn cap_triangle(out: &mut [u32], layer: Layer, k: usize, cap: Cap)
    requires { Numbered layer × (suc (suc k) ≤ layer.count) × (3 ≤ length out.old) }
    ensures { Put (facing cap (fan_tri (ring layer) (suc k)) ∷ []) out.old out.new }
{
    let first = vertex(layer, 0);
    let near = vertex(layer, k + 1);
    let far = vertex(layer, k + 2);
    match cap {
        Cap::Bottom => put(out, first, far, near),
        Cap::Top => put(out, first, near, far),
    }
}

// A cap of a layer.
fn put_cap(out: &mut [u32], layer: Layer, cap: Cap)
    requires { Numbered layer × (3 * (layer.count - 2) ≤ length out.old) }
    ensures { Put (cap_of cap layer) out.old out.new }
{
    for k in 0..layer.count.saturating_sub(2) {
        cap_triangle(&mut out[3 * k..], layer, k, cap);
    }
}

// All bands, from the bottom up: each is lent the part of the list from where the one below it ends.
fn put_bands(out: &mut [u32], layers: &[Layer], strips: &[u8])
    requires { Drawn layers.now strips.now × (3 * steps layers.now ≤ length out.old) }
    ensures { Put (bands_to layers.now strips.now (length layers.now - 1)) out.old out.new }
{
    let mut at = 0;
    for k in 0..band_count(layers) {
        let band = band_at(layers, k);
        let to = at + band.steps();
        put_band(&mut out[3 * at..], band, &strips[at..to]);
        at = to;
    }
}

// The whole closed list: the bands, then the bottom cap, then the top cap.
pub(crate) fn put_all(out: &mut [u32], layers: &[Layer], strips: &[u8], taken: usize)
    requires { Drawn layers.now strips.now × (taken ≡ steps layers.now) × (3 * triangles layers.now ≤ length out.old) }
    ensures { Put (closed layers.now strips.now) out.old out.new }
{
    let bottom = layer_at(layers, 0);
    let top = layer_at(layers, layers.len() - 1);
    let bottom_at = 3 * taken;
    let top_at = bottom_at + 3 * (bottom.count - 2);
    put_bands(out, layers, strips);
    put_cap(&mut out[bottom_at..], bottom, Cap::Bottom);
    put_cap(&mut out[top_at..], top, Cap::Top);
}
