// The judgement of one trace: 01, "Traces and layers" and faults 1 to 6 of "What comes back". And its outline.
#![tactic(auto)]

pub mod outline;

ghost use Rattle.std.specs.Prelude.{◌≡◌, false, ◌+◌, ◌*◌, ◌≤◌, ◌<◌, pos, length, get_or};
ghost use Rattle.trace.specs.Faults.{Given};
ghost use Rattle.trace.specs.Judged.{judged, in_range, verdict_of};
ghost use Rattle.trace.specs.Refused.{refusal_of};
ghost use Rattle.trace.specs.Walk.{inside, Begun, Ready, WalkedOn};

use fault::{Fault, Refusal, refuse};
use whole::cross;

// What is told of a trace that is fit: twice its signed area, and its number of points.
#[derive(Clone, Copy, Debug, PartialEq, Eq)]
pub struct Fit {
    pub area: i64,
    pub count: usize,
}

// Takes every slice. A trace of over 250 points is refused without being read; any other is read once.
#[tactic(auto, using(crate::proofs::Exact::as_computed), unfolding(crate::specs::Judged::judged, crate::specs::Points::count))]
pub fn judge(coords: &[i32]) -> Result<Fit, Fault>
    ensures { Given coords.now result }
{
    let count = coords.len() / 2;
    if coords.len() % 2 == 1 {
        return Err(Fault::Shape);
    }
    if count < 3 {
        return Err(Fault::Few);
    }
    if 250 < count {
        return Err(Fault::Many);
    }
    walk(coords, count)
}

// The refusal of a call whose trace at `place` is not fit. Every refusal of a trace is made here. (A fit trace has none: what is
// answered for it, SHAPE, is not asked for.)
pub fn refused(judged: Result<Fit, Fault>, place: usize) -> Refusal
    ensures { result ≡ refusal_of judged place }
{
    match judged {
        Err(fault) => refuse(fault, place),
        Ok(_) => refuse(Fault::Shape, place),
    }
}

#[derive(Clone, Copy, Debug, PartialEq, Eq)]
pub(crate) struct Point {
    pub x: i32,
    pub y: i32,
}

// The trace up to a point, all of it in range: that point, the sum of x·y' − x'·y up to it, and whether two neighbours were equal.
#[derive(Clone, Copy)]
struct Walked {
    at: Point,
    area: i64,
    twin: bool,
}

// Point `k` of a coordinate list.
pub(crate) fn point_at(coords: &[i32], k: usize) -> Point
    requires { 2 * k + 1 < length coords.now }
    ensures { (result.x ≡ get_or coords.now (2 * k) (pos 0)) × (result.y ≡ get_or coords.now (2 * k + 1) (pos 0)) }
{
    Point {
        x: coords[2 * k],
        y: coords[2 * k + 1],
    }
}

// Whether a coordinate, or a plane, is from -100,000 to 100,000.
#[tactic(auto, unfolding(crate::specs::Judged::in_range))]
pub fn in_range(v: i32) -> bool
    ensures { result ≡ in_range v }
{
    (-100_000 <= v) & (v <= 100_000)
}

#[tactic(auto, using(whole::proofs::Machine::read_back), unfolding(crate::specs::Walk::inside))]
fn is_inside(p: Point) -> bool
    ensures { result ≡ inside p }
{
    in_range(p.x) & in_range(p.y)
}

// At a point, with nothing walked yet; or RANGE.
fn begun(p: Point) -> Result<Walked, Fault>
    ensures { Begun p result }
{
    if !is_inside(p) {
        return Err(Fault::Range);
    }
    Ok(Walked {
        at: p,
        area: 0,
        twin: false,
    })
}

// One point more; or RANGE.
fn walked_on(so_far: Walked, p: Point) -> Result<Walked, Fault>
    requires { Ready so_far }
    ensures { WalkedOn so_far p result }
{
    if !is_inside(p) {
        return Err(Fault::Range);
    }
    Ok(Walked {
        at: p,
        area: so_far.area + cross(so_far.at.x, so_far.at.y, p.x, p.y),
        twin: so_far.twin | (so_far.at == p),
    })
}

// What is left to judge once the walk is back at its first point.
#[tactic(auto, using(whole::proofs::Machine::read_back), unfolding(crate::specs::Judged::verdict_of))]
fn verdict(all: Walked, count: usize) -> Result<Fit, Fault>
    ensures { result ≡ verdict_of false all.twin all.area count }
{
    if all.twin {
        return Err(Fault::Twin);
    }
    if all.area <= 0 {
        return Err(Fault::Turn);
    }
    Ok(Fit {
        area: all.area,
        count,
    })
}

// The judgement of a trace of 3 to 250 points, read once.
fn walk(coords: &[i32], count: usize) -> Result<Fit, Fault>
    requires { (2 * count ≡ length coords.now) × (3 ≤ count) × (count ≤ 250) }
    ensures { result ≡ judged coords.now }
{
    let first = point_at(coords, 0);
    let mut so_far = begun(first)?;
    for k in 0..count - 1 {
        so_far = walked_on(so_far, point_at(coords, k + 1))?;
    }
    verdict(walked_on(so_far, first)?, count)
}
