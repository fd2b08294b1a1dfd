// One pair of the table: two ways to come, the greater value and the mark.
ghost use Rattle.std.specs.Prelude.{◌≡◌, ◌<◌, ◌+ℤ◌};
ghost use Rattle.trace.specs.Outline.{corner, CornerWithin};
ghost use Rattle.strip.specs.Outlines.{crossed};
ghost use Rattle.joining.specs.Table.{Small, Chosen};

use strip::worth;
use trace::outline::{Corner, Outline};

#[derive(Clone, Copy, Debug, PartialEq, Eq)]
pub(crate) struct Choice {
    pub best: i64,
    pub mark: u8,
}

// Corner `k`. (`Outline::corner` takes every `k`, and asks at each whether there is one; the table has no time for that.)
pub(crate) fn corner_at(outline: &Outline, k: usize) -> Corner
    requires { k < 251 }
    ensures { result ≡ corner outline.now k }
{
    Corner {
        x: outline.x[k],
        y: outline.y[k],
        dx: outline.dx[k],
        dy: outline.dy[k],
    }
}

// A value with the worth of one step more: the other side's point with the own segment.
pub(crate) fn via(before: i64, across: Corner, own: Corner) -> i64
    requires { Small before × CornerWithin across × CornerWithin own }
    ensures { result ≡ before +ℤ crossed across own }
{
    before + worth(across, own)
}

// The greater of the values by A and by B; the mark has 1 if A attains it and 2 if B does.
pub(crate) fn choose(by_a: i64, by_b: i64) -> Choice
    ensures { Chosen by_a by_b result }
{
    let mark = (by_b <= by_a) as u8 + 2 * ((by_a <= by_b) as u8);
    let best = if by_b <= by_a { by_a } else { by_b };
    Choice { best, mark }
}
