// Six times the volume, band by band: the band rule's sums stay within 4·10^18, those of the triangles' determinants need not.
ghost use Rattle.std.specs.Prelude.{◌≡◌, ◌+◌, ◌*◌, ◌<◌, ◌+ℤ◌};
ghost use Rattle.whole.specs.Between.{Within};
ghost use Rattle.trace.specs.Points.{twice_area};
ghost use Rattle.trace.specs.Faults.{Accepted};
ghost use Rattle.mesh.specs.Bands.{rule, six_of};
ghost use Rattle.mesh.specs.Working.{Joined, Fitted};

use stack::{Layer, band_at, band_count, layer_at, trace_of};
use strip::weigh;
use whole::half;

// Twice the area of an accepted trace, whose judgement is fit.
fn twice_area(coords: &[i32]) -> i64
    requires { Accepted coords.now }
    ensures { result ≡ twice_area coords.now }
{
    trace::judge(coords).unwrap().area
}

// The band rule for two traces `h` apart, with twice their areas together, and the strip between them. (`listing` has its twin, for a
// pair that it judges itself: a public one for both would have a `requires`.)
fn by_rule(h: i32, areas: i64, a: &[i32], b: &[i32], part: &[u8]) -> i64
    requires { Joined a.now b.now part.now × Within 200000 h × (areas ≡ twice_area a.now +ℤ twice_area b.now) }
    ensures { result ≡ rule h a.now b.now part.now }
{
    (h as i64) * (areas + half(weigh(a, b, part)))
}

// The sum over all bands. An inner layer's area is worked out once, for the band below and kept for the one above.
pub(crate) fn six_of(layers: &[Layer], coords: &[i32], strips: &[u8]) -> i64
    requires { Fitted layers.now coords.now strips.now }
    ensures { result ≡ six_of layers.now coords.now strips.now }
{
    let mut lower = twice_area(trace_of(coords, layer_at(layers, 0)));
    let mut six: i64 = 0;
    let mut at = 0;
    for k in 0..band_count(layers) {
        let band = band_at(layers, k);
        let to = at + band.steps();
        let below = trace_of(coords, band.lower);
        let above = trace_of(coords, band.upper);
        let rise = band.upper.plane - band.lower.plane;
        let upper = twice_area(above);
        six += by_rule(rise, lower + upper, below, above, &strips[at..to]);
        lower = upper;
        at = to;
    }
    six
}
