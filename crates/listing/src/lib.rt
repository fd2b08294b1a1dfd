// The listing program as a function on slices: text in, text out.
#![tactic(auto)]

mod asked;
mod best;
mod lines;
mod numeral;
mod pair;
mod words;

ghost use Rattle.std.specs.Prelude.{◌≤◌, length};
ghost use Rattle.listing.specs.Listing.{Listing, ListingAnswer, PairListing, longest};
ghost use Rattle.listing.specs.Telling.{Kept, Listed};

use crate::asked::{Asked, read};
use crate::best::list_pair;
use crate::pair::{judge_planes, judge_read, tell};
use fault::{Fault, Refusal, refuse};

// The bytes of the longest listing.
pub const LONGEST: usize = 501_047;

// Takes every text, and answers how many bytes are written. What the program prints stands at the front of `out`, a refusal too; `out`
// must have room for the longest listing, else ROOM.
pub fn listing(text: &[u8], out: &mut [u8]) -> Result<usize, Refusal>
    ensures { ListingAnswer text.now out.old out.new result }
{
    if out.len() < LONGEST {
        return Err(refuse(Fault::Room, 0));
    }
    match answer(text, out) {
        Ok(bytes) => Ok(bytes),
        Err(refusal) => Ok(tell(out, refusal)),
    }
}

// The text is read, and the pair that it asks for is listed; or TEXT.
fn answer(text: &[u8], out: &mut [u8]) -> Result<usize, Refusal>
    requires { longest ≤ length out.old }
    ensures { Listed (Listing text.now) out.old out.new result }
{
    // Two coordinates for each of 250 points.
    let mut a = [0i32; 500];
    let mut b = [0i32; 500];
    let asked = read(text, &mut a, &mut b).ok_or(refuse(Fault::Text, 0))?;
    answer_pair(out, asked, &a, &b)
}

// Trace by trace, then the planes; then the best strips.
fn answer_pair(out: &mut [u8], asked: Asked, a: &[i32], b: &[i32]) -> Result<usize, Refusal>
    requires { (longest ≤ length out.old) × Kept asked.lower.count a.now × Kept asked.upper.count b.now }
    ensures { (ka : Kept asked.lower.count a.now) (kb : Kept asked.upper.count b.now)
        → Listed (PairListing asked.lower.plane ka.trace asked.upper.plane kb.trace) out.old out.new result }
{
    let Asked { lower, upper } = asked;
    let judged = judge_read(a, lower.count);
    let Ok(below) = judged else {
        return Err(trace::refused(judged, 0));
    };
    let judged = judge_read(b, upper.count);
    let Ok(above) = judged else {
        return Err(trace::refused(judged, 1));
    };
    judge_planes(lower.plane, upper.plane)?;
    let (a, b) = (&a[..2 * lower.count], &b[..2 * upper.count]);
    list_pair(
        out,
        a,
        b,
        upper.plane - lower.plane,
        below.area + above.area,
    )
}
