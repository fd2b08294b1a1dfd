// The table of 001's (12), row by row: a rolling row of values, and a mark for every pair.
//
// The step A into (i+1, j) is the cross of B's point j and A's segment i, the step B into (i, j+1) that of A's point i and B's segment j.
ghost use Rattle.std.specs.Prelude.{◌≡◌, ◌+◌, length};
ghost use Rattle.strip.specs.Outlines.{worths_of};
ghost use Rattle.joining.specs.Table.{CellReady, CellDone, BorderReady, BorderDone, RowAt, RowMarked, Ready, Tabled};

use crate::choice::{choose, corner_at, via};
use crate::marks::put_mark;
use trace::outline::{Corner, Outline};

// The pair (i+1, j+1), whose row begins at cell `at`, between A's corners i and i+1. (These are read once a row.)
fn cell(
    row: &mut [i64; 251],
    work: &mut [u8],
    at: usize,
    j: usize,
    from: Corner,
    to: Corner,
    upper: &Outline,
)
    requires { CellReady from to upper.now j at row.old work.old }
    ensures { CellDone from to upper.now j at row.old work.old row.new work.new }
{
    let here = j + 1;
    let next = corner_at(upper, here);
    let last = corner_at(upper, j);
    let by_a = via(row[here], next, from);
    let by_b = via(row[j], to, last);
    let chosen = choose(by_a, by_b);
    row[here] = chosen.best;
    put_mark(work, at + here, chosen.mark);
}

// The pair (0, j+1) of the first row, which can be reached by B alone.
fn border(row: &mut [i64; 251], work: &mut [u8], j: usize, first: Corner, upper: &Outline)
    requires { BorderReady first upper.now j row.old work.old }
    ensures { BorderDone first upper.now j row.old work.old row.new work.new }
{
    let last = corner_at(upper, j);
    let by_b = via(row[j], first, last);
    row[j + 1] = by_b;
    put_mark(work, j + 1, 2);
}

// The first row: the way along B alone.
fn first_row(row: &mut [i64; 251], work: &mut [u8], lower: &Outline, upper: &Outline)
    requires { Ready lower.now upper.now 0 upper.now.count work.old × (length row.old ≡ 251) }
    ensures { RowAt (worths_of lower.now upper.now) 0 upper.now.count row.new
        × RowMarked (worths_of lower.now upper.now) 0 upper.now.count work.old work.new }
{
    let first = corner_at(lower, 0);
    row[0] = 0;
    put_mark(work, 0, 0);
    for j in 0..upper.count {
        border(row, work, j, first, upper);
    }
}

// The row of A's point i+1, from the row above it. Its first pair can be reached by A alone.
fn next_row(row: &mut [i64; 251], work: &mut [u8], i: usize, lower: &Outline, upper: &Outline)
    requires { Ready lower.now upper.now (i + 1) upper.now.count work.old
        × RowAt (worths_of lower.now upper.now) i upper.now.count row.old }
    ensures { RowAt (worths_of lower.now upper.now) (i + 1) upper.now.count row.new
        × RowMarked (worths_of lower.now upper.now) (i + 1) upper.now.count work.old work.new }
{
    let at = (i + 1) * (upper.count + 1);
    let from = corner_at(lower, i);
    let to = corner_at(lower, i + 1);
    let first = corner_at(upper, 0);
    let start = via(row[0], first, from);
    row[0] = start;
    put_mark(work, at, 1);
    for j in 0..upper.count {
        cell(row, work, at, j, from, to, upper);
    }
}

// The whole table: its last value, and a mark in every cell.
pub(crate) fn fill(work: &mut [u8], lower: &Outline, upper: &Outline) -> i64
    requires { Ready lower.now upper.now lower.now.count upper.now.count work.old }
    ensures { Tabled (worths_of lower.now upper.now) lower.now.count upper.now.count work.old work.new result }
{
    let mut row = [0i64; 251];
    first_row(&mut row, work, lower, upper);
    for i in 0..lower.count {
        next_row(&mut row, work, i, lower, upper);
    }
    row[upper.count]
}
