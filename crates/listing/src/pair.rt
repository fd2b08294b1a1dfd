// The pair that was read, judged: trace by trace, then the planes.
ghost use Rattle.std.specs.Prelude.{◌≡◌, List, ◌≤◌, ℤ, length};
ghost use Rattle.trace.specs.Faults.{Given};
ghost use Rattle.fault.specs.Number.{number_of};
ghost use Rattle.listing.specs.Lines.{refused_line};
ghost use Rattle.listing.specs.Writing.{Wrote};
ghost use Rattle.listing.specs.Pairs.{Held};
ghost use Rattle.listing.specs.Telling.{Kept, PlanesAnswer};

use crate::lines::Page;
use fault::{Fault, Refusal, refuse};
use trace::{Fit, in_range};

// The judgement of a trace of `count` points, of which no more than 250 were kept: over 250 points are MANY, whatever they are.
pub(crate) fn judge_read(kept: &[i32], count: usize) -> Result<Fit, Fault>
    requires { Kept count kept.now }
    ensures { (c : List ℤ) → Held c count kept.now → Given c result }
{
    if 250 < count {
        return Err(Fault::Many);
    }
    trace::judge(&kept[..2 * count])
}

// PLANES at the lowest plane out of range or not above the one below.
pub(crate) fn judge_planes(lower: i32, upper: i32) -> Result<(), Refusal>
    ensures { PlanesAnswer lower upper result }
{
    if !in_range(lower) {
        return Err(refuse(Fault::Planes, 0));
    }
    if !in_range(upper) {
        return Err(refuse(Fault::Planes, 1));
    }
    if upper <= lower {
        return Err(refuse(Fault::Planes, 1));
    }
    Ok(())
}

// The one line of a refusal. (Its `Display` writes the same, but no contract says so.)
pub(crate) fn tell(out: &mut [u8], refusal: Refusal) -> usize
    requires { 33 ≤ length out.old }
    ensures { Wrote out.old 0 (refused_line (number_of refusal.fault) refusal.place) out.new result }
{
    let mut page = Page::new(out);
    page.put_refused(u8::from(refusal.fault), refusal.place);
    page.written()
}
