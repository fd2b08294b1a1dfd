// The best strips between two traces: the first, the next, and a run of them.
#![tactic(auto)]

mod choice;
mod lines;
mod marks;
mod table;
mod walking;

ghost use Rattle.std.specs.Prelude.{◌+◌, ◌≤◌, length, take};
ghost use Rattle.trace.specs.Points.{count};
ghost use Rattle.strip.specs.Pair.{Pair, PairCounts};
ghost use Rattle.strip.specs.Worth.{worths};
ghost use Rattle.strip.specs.Bytes.{IsStrip};
ghost use Rattle.joining.specs.Cells.{room};
ghost use Rattle.joining.specs.Table.{Tabled};
ghost use Rattle.joining.specs.Listing.{ListAnswer};
ghost use Rattle.joining.specs.Walking.{Marked, Turned};
ghost use Rattle.joining.specs.Answers.{Enough, BestAnswer, NextAnswer, work_bytes};

use crate::lines::some_lines;
use crate::marks::clear;
use crate::table::fill;
use crate::walking::Marks;
use fault::{Fault, Refusal, refuse};
use strip::{Counts, judge_pair, judge_strip};
use trace::outline::outline_of;

// The greatest value, how many strips were written and whether some remain.
#[derive(Clone, Copy, Debug, PartialEq, Eq)]
pub struct Run {
    pub value: i64,
    pub count: usize,
    pub more: bool,
}

// Every pair's mark for two accepted traces, and the greatest value.
fn mark_all(a: &[i32], b: &[i32], work: &mut [u8]) -> i64
    requires { Pair a.now b.now × (room (work_bytes a.now b.now) ≤ length work.old) }
    ensures { Tabled (worths a.now b.now) (count a.now) (count b.now) work.old work.new result }
{
    let lower = outline_of(a);
    let upper = outline_of(b);
    fill(work, &lower, &upper)
}

// The first best strip between two traces, at the front of `strip`, and its value. Takes every input; a refusal touches nothing.
pub fn best(a: &[i32], b: &[i32], strip: &mut [u8], work: &mut [u8]) -> Result<i64, Refusal>
    ensures { BestAnswer a.now b.now strip.old work.old strip.new work.new result }
{
    let Counts { m, n } = judge_pair(a, b)?;
    let cells = (m + 1) * (n + 1);
    if strip.len() < m + n || work.len() < cells {
        return Err(refuse(Fault::Room, 0));
    }
    let value = mark_all(a, b, work);
    let marks = Marks { cells: work, m, n };
    marks.trace_back(m, n, strip);
    clear(work, cells);
    Ok(value)
}

// The strip that comes next after the one at the front of `strip`, in its place, and its value; or none left. Takes every input; a
// refusal touches nothing.
pub fn next(a: &[i32], b: &[i32], strip: &mut [u8], work: &mut [u8]) -> Result<Option<i64>, Refusal>
    ensures { NextAnswer a.now b.now strip.old work.old strip.new work.new result }
{
    let Counts { m, n } = judge_pair(a, b)?;
    if strip.len() < m + n || work.len() < (m + 1) * (n + 1) {
        return Err(refuse(Fault::Room, 0));
    }
    follow(a, b, m, n, strip, work)
}

// What is asked for, once both traces are accepted and there is room. The marks are kept in a local array until BELOW is decided.
fn follow(
    a: &[i32],
    b: &[i32],
    m: usize,
    n: usize,
    strip: &mut [u8],
    work: &mut [u8],
) -> Result<Option<i64>, Refusal>
    requires { PairCounts a.now b.now m n × Enough a.now b.now strip.old work.old }
    ensures { NextAnswer a.now b.now strip.old work.old strip.new work.new result }
{
    let steps = m + n;
    let handed_in = judge_strip(a, b, &strip[..steps]);
    let Ok(value) = handed_in else {
        return Err(refuse(Fault::Strip, 0));
    };
    let mut cells = [0u8; 63_001];
    let greatest = mark_all(a, b, &mut cells);
    if value < greatest {
        return Err(refuse(Fault::Below, 0));
    }
    let marks = Marks {
        cells: &cells,
        m,
        n,
    };
    let turned = turn(marks, strip);
    clear(work, (m + 1) * (n + 1));
    if turned { Ok(Some(greatest)) } else { Ok(None) }
}

// Turns the best strip at the front of `strip` into the next one, if there is one.
fn turn(marks: Marks, strip: &mut [u8]) -> bool
    requires { Marked marks.cells.now marks.m marks.n × (marks.m + marks.n ≤ length strip.old)
        × IsStrip marks.m marks.n (take (marks.m + marks.n) strip.old) }
    ensures { (s : IsStrip marks.entry.m marks.entry.n (take (marks.entry.m + marks.entry.n) strip.old))
        → Turned marks.entry.cells.now marks.entry.n s.steps strip.old strip.new result }
{
    let Some(turn) = marks.find_turn(strip) else {
        return false;
    };
    marks.turn_here(strip, turn.at, turn.i, turn.j - 1);
    true
}

// The first `limit` best strips, one after the other at the front of `lines`. The marks are filled once; a further strip costs a walk
// along its steps. There must be room for `limit` strips, however many there are.
pub fn list_best(
    a: &[i32],
    b: &[i32],
    lines: &mut [u8],
    work: &mut [u8],
    limit: usize,
) -> Result<Run, Refusal>
    ensures { ListAnswer a.now b.now limit lines.old work.old lines.new work.new result }
{
    let Counts { m, n } = judge_pair(a, b)?;
    let cells = (m + 1) * (n + 1);
    if lines.len() / (m + n) < limit || work.len() < cells {
        return Err(refuse(Fault::Room, 0));
    }
    let value = mark_all(a, b, work);
    let marks = Marks { cells: work, m, n };
    let written = some_lines(marks, lines, limit);
    clear(work, cells);
    Ok(Run {
        value,
        count: written.count,
        more: written.more,
    })
}
