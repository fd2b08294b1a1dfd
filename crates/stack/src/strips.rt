// The strips of a stack's bands, one after another in one slice.
ghost use Rattle.std.specs.Prelude.{◌≡◌, ℕ, suc, ◌-◌, ◌<◌, length, MatchOption};
ghost use Rattle.whole.specs.Lowest.{Lowest};
ghost use Rattle.whole.specs.Tells.{Tells};
ghost use Rattle.strip.specs.Bytes.{IsStrip};
ghost use Rattle.stack.specs.Entries.{steps, band_start};
ghost use Rattle.stack.specs.Strips.{BandStrip, BandFault, StripsJudged};

use crate::Layer;
use crate::layers::{band_at, band_count, layers_right, steps_up_to};
use fault::{Fault, Refusal, refuse};

// Takes every stack and every slice: LAYERS, then STRIP. The steps are added up to one past the slice's length, which is enough to see
// that they do not fill it.
pub fn judge_strips(layers: &[Layer], strips: &[u8]) -> Result<(), Refusal>
    ensures { StripsJudged layers.now strips.now result }
{
    if !layers_right(layers) {
        return Err(refuse(Fault::Layers, 0));
    }
    if steps_up_to(layers, strips.len() + 1) != strips.len() {
        return Err(refuse(Fault::Strip, 0));
    }
    match first_band_wrong(layers, strips) {
        Some(wrong) => Err(refuse(Fault::Strip, wrong)),
        None => Ok(()),
    }
}

// Whether bytes are a strip of `m` steps A and `n` steps B. Each byte is read once.
pub fn is_strip(part: &[u8], m: usize, n: usize) -> bool
    ensures { Tells (IsStrip m n part.now) result }
{
    let mut a: usize = 0;
    let mut b: usize = 0;
    for byte in part {
        // Two tests and not a `match`: that jumps at every byte, and a processor cannot guess where to.
        if 1 < *byte {
            return false;
        }
        if *byte == 0 {
            a += 1;
        } else {
            b += 1;
        }
    }
    a == m && b == n
}

// The lowest band whose part is no strip. All steps fill the slice, so each part lies inside it. (Where a part begins is carried from band
// to band, so this is no `find`.)
fn first_band_wrong(layers: &[Layer], strips: &[u8]) -> Option<usize>
    requires { length strips.now ≡ steps layers.now }
    ensures { MatchOption result ((k : ℕ) → k < length layers.now - 1 → BandStrip layers.now strips.now k)
        (Lowest (BandFault layers.now strips.now) (length layers.now - 1)) }
{
    let mut at = 0;
    for k in 0..band_count(layers) {
        let band = band_at(layers, k);
        let to = at + band.steps();
        if !is_strip(&strips[at..to], band.lower.count, band.upper.count) {
            return Some(k);
        }
        at = to;
    }
    None
}
