// The walk along a strip.
ghost use Rattle.std.specs.Prelude.{length};
ghost use Rattle.trace.specs.Outline.{fairly};
ghost use Rattle.strip.specs.Walk.{Ready, Stepped, Along};

use crate::worth;
use trace::outline::{Outline, outline_of};

// A strip up to a step: the steps A and the steps B so far, and what they are worth together.
#[derive(Clone, Copy)]
pub(crate) struct Walked {
    pub i: usize,
    pub j: usize,
    pub value: i64,
}

// One byte more; none where it is no step. A side that has all its steps takes no other, so that no point is read beyond the first written
// again.
fn step(so_far: Walked, lower: &Outline, upper: &Outline, byte: u8) -> Option<Walked>
    requires { Ready lower.now upper.now so_far }
    ensures { Stepped lower.now upper.now so_far byte result }
{
    let Walked { i, j, value } = so_far;
    if 1 < byte {
        return None;
    }
    if byte == 0 {
        if i == lower.count {
            return None;
        }
        let a = lower.corner(i);
        let b = upper.corner(j);
        let value = value + worth(b, a);
        return Some(Walked { i: i + 1, j, value });
    }
    if j == upper.count {
        return None;
    }
    let a = lower.corner(i);
    let b = upper.corner(j);
    let value = value + worth(a, b);
    Some(Walked { i, j: j + 1, value })
}

// The whole strip, each byte once; none where a byte is no step, or one step too many of its kind.
pub(crate) fn walk(a: &[i32], b: &[i32], strip: &[u8]) -> Option<Walked>
    ensures { Along (fairly a.now) (fairly b.now) strip.now (length strip.now) result }
{
    let lower = outline_of(a);
    let upper = outline_of(b);
    let mut so_far = Walked {
        i: 0,
        j: 0,
        value: 0,
    };
    for byte in strip {
        so_far = step(so_far, &lower, &upper, *byte)?;
    }
    Some(so_far)
}
