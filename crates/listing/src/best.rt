// The lines of two accepted traces: value and six times the volume, the first 1,000 best strips, and whether some remain.
ghost use Rattle.std.specs.Prelude.{◌≡◌, ◌*◌, ◌≤◌, ◌+ℤ◌, length, MatchResult};
ghost use Rattle.whole.specs.Between.{Within};
ghost use Rattle.trace.specs.Points.{count, twice_area};
ghost use Rattle.strip.specs.Pair.{Pair};
ghost use Rattle.strip.specs.Bytes.{IsStrip, steps_of};
ghost use Rattle.strip.specs.Band.{band_six};
ghost use Rattle.listing.specs.Listing.{BestLines, longest};
ghost use Rattle.listing.specs.Telling.{Told, lines_of};
ghost use Rattle.listing.specs.Writing.{Room, Wrote};

use crate::lines::Page;
use fault::Refusal;
use joining::{Run, list_best};
use strip::weigh;
use whole::half;

// Six times the volume by the band rule, of traces `h` apart, with twice their areas together, and the strip between them. (`mesh` has its
// twin, for the bands of a stack: a public one for both would have a `requires`.)
fn six_times(h: i32, areas: i64, a: &[i32], b: &[i32], part: &[u8]) -> i64
    requires { Pair a.now b.now × IsStrip (count a.now) (count b.now) part.now × Within 200000 h
        × (areas ≡ twice_area a.now +ℤ twice_area b.now) }
    ensures { result ≡ band_six h a.now b.now (steps_of part.now) }
{
    i64::from(h) * (areas + half(weigh(a, b, part)))
}

// All lines, of a run of strips that stand one after the other.
fn put_lines(out: &mut [u8], six: i64, strips: &[u8], steps: usize, run: Run) -> usize
    requires { (run.count * steps ≤ length strips.now)
        × Room out.old 0 (lines_of run.value six steps run.count strips.now run.more) }
    ensures { Wrote out.old 0 (lines_of run.value six steps run.count strips.now run.more) out.new result }
{
    let Run { value, count, more } = run;
    let mut page = Page::new(out);
    page.put_value(value, six);
    page.put_strips(strips, count, steps);
    if more {
        page.put_more();
    } else {
        page.put_end();
    }
    page.written()
}

// The table is filled once, for all strips; the volume is that of the first. The traces are accepted and the room is enough, so nothing is
// refused.
pub(crate) fn list_pair(
    out: &mut [u8],
    a: &[i32],
    b: &[i32],
    h: i32,
    areas: i64,
) -> Result<usize, Refusal>
    requires { Pair a.now b.now × Within 200000 h × (areas ≡ twice_area a.now +ℤ twice_area b.now) × (longest ≤ length out.old) }
    ensures { MatchResult result (Told (BestLines h a.now b.now) out.old out.new) (λ r. ⊥) }
{
    // Room for the first 1,000 best strips of two traces of 250 points, and for their marks.
    let mut strips = [0u8; 500_000];
    let mut work = [0u8; 63_001];
    let run = list_best(a, b, &mut strips, &mut work, 1000)?;
    let steps = a.len() / 2 + b.len() / 2;
    let six = six_times(h, areas, a, b, &strips[..steps]);
    Ok(put_lines(out, six, &strips, steps, run))
}
