// The value of a strip, and the judging of one made elsewhere: 01, "Strip, value, order".
#![tactic(auto)]

mod walking;

ghost use Rattle.std.specs.Prelude.{◌≡◌, ◌*ℤ◌, ◌-ℤ◌};
ghost use Rattle.strip.specs.Pair.{PairJudged};
ghost use Rattle.strip.specs.Judging.{StripJudged};
ghost use Rattle.strip.specs.Weighed.{Weighed};
ghost use Rattle.trace.specs.Outline.{fairly};

use crate::walking::walk;
use fault::{Fault, Refusal, refuse};
use trace::outline::{Corner, points_read};
use whole::cross;

// The numbers of points of two accepted traces, the lower one's first.
#[derive(Clone, Copy, Debug, PartialEq, Eq)]
pub struct Counts {
    pub m: usize,
    pub n: usize,
}

// Takes every two traces. What every call on a pair opens with: the lower trace is judged at place 0, then the upper at place 1.
#[tactic(auto, using(crate::proofs::PairLaws::refuses_lower, crate::proofs::PairLaws::refuses_upper, crate::proofs::PairLaws::counts))]
pub fn judge_pair(a: &[i32], b: &[i32]) -> Result<Counts, Refusal>
    ensures { PairJudged a.now b.now result }
{
    let judged = trace::judge(a);
    let Ok(lower) = judged else {
        return Err(trace::refused(judged, 0));
    };
    let judged = trace::judge(b);
    let Ok(upper) = judged else {
        return Err(trace::refused(judged, 1));
    };
    Ok(Counts {
        m: lower.count,
        n: upper.count,
    })
}

// Takes every input. The strip is read only if both traces are fit and its length is right, and then once.
pub fn judge_strip(a: &[i32], b: &[i32], strip: &[u8]) -> Result<i64, Refusal>
    ensures { StripJudged a.now b.now strip.now result }
{
    let Counts { m, n } = judge_pair(a, b)?;
    // With the right length, none too many of either kind is just enough of each: the walk has nothing to count at its end.
    if strip.len() != m + n {
        return Err(refuse(Fault::Strip, 0));
    }
    match walk(a, b, strip) {
        Some(all) => Ok(all.value),
        None => Err(refuse(Fault::Strip, 0)),
    }
}

// 01's W of a strip between two traces, for whoever needs the volume; 0 of bytes that are none. Takes every input, and judges no trace: of
// any list that is read which `outline_of` reads.
pub fn weigh(a: &[i32], b: &[i32], strip: &[u8]) -> i64
    ensures { Weighed (fairly a.now) (fairly b.now) strip.now result }
{
    let m = points_read(a.len());
    let n = points_read(b.len());
    let Some(all) = walk(a, b, strip) else {
        return 0;
    };
    if all.i == m && all.j == n {
        all.value
    } else {
        0
    }
}

// What a step is worth: the other side's point with the own segment. 01's two rules are this one, with the sides exchanged.
#[tactic(auto, using(whole::proofs::Machine::read_back))]
pub fn worth(across: Corner, own: Corner) -> i64
    ensures { result ≡ across.x *ℤ own.dy -ℤ across.y *ℤ own.dx }
{
    cross(across.x, across.y, own.dx, own.dy)
}
