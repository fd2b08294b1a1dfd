// The first best strip of every band of a stack, one after another.
#![tactic(auto)]

ghost use Rattle.std.specs.Prelude.{◌≡◌, ◌+◌, ◌*◌, ◌≤◌};
ghost use Rattle.stack.specs.Faults.{AcceptedStack};
ghost use Rattle.bands.specs.Bands.{most_cells, EnoughRoom, BandsAnswer};
ghost use Rattle.bands.specs.Filling.{Sized, BandReady, BandFilled, BandsFilled};

use fault::{Fault, Refusal, refuse};
use stack::{Band, Layer, band_at, band_count, trace_of};

// Takes every stack and every slice, and answers the number of steps of all bands. The room is held against all bands before anything
// is written, so a refusal touches nothing.
pub fn best_strips(
    layers: &[Layer],
    coords: &[i32],
    strips: &mut [u8],
    work: &mut [u8],
) -> Result<usize, Refusal>
    ensures { BandsAnswer layers.now coords.now strips.old work.old strips.new work.new result }
{
    let fit = stack::judge_stack(layers, coords)?;
    if strips.len() < fit.steps {
        return Err(refuse(Fault::Room, 0));
    }
    if work.len() < most_cells(layers) {
        return Err(refuse(Fault::Room, 0));
    }
    put_strips(layers, coords, strips, work);
    Ok(fit.steps)
}

// The work bytes of a band.
fn cells_of(band: Band) -> usize
    requires { (band.lower.count ≤ 250) × (band.upper.count ≤ 250) }
    ensures { result ≡ (band.lower.count + 1) * (band.upper.count + 1) }
{
    (band.lower.count + 1) * (band.upper.count + 1)
}

// The work bytes of the band that needs most.
fn most_cells(layers: &[Layer]) -> usize
    requires { Sized layers.now }
    ensures { result ≡ most_cells layers.now }
{
    let mut most: usize = 0;
    for k in 0..band_count(layers) {
        most = most.max(cells_of(band_at(layers, k)));
    }
    most
}

// The first best strip of band `k` at the front of the part that is lent, and its number of steps. The stack is accepted and there is
// room, so it is never refused.
fn put_strip(layers: &[Layer], coords: &[i32], k: usize, part: &mut [u8], work: &mut [u8]) -> usize
    requires { BandReady layers.now coords.now k part.old work.old }
    ensures { BandFilled layers.now coords.now k part.old work.old part.new work.new result }
{
    let band = band_at(layers, k);
    let below = trace_of(coords, band.lower);
    let above = trace_of(coords, band.upper);
    joining::best(below, above, part, work).unwrap();
    band.steps()
}

// All bands, from the bottom up: each is lent the part of the strips from where the one below it ends, and the same work bytes.
fn put_strips(layers: &[Layer], coords: &[i32], strips: &mut [u8], work: &mut [u8])
    requires { AcceptedStack layers.now coords.now × EnoughRoom layers.now strips.old work.old }
    ensures { BandsFilled layers.now coords.now strips.old work.old strips.new work.new }
{
    let mut at = 0;
    for k in 0..band_count(layers) {
        at += put_strip(layers, coords, k, &mut strips[at..], work);
    }
}
