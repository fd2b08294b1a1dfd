// A run of best strips, one after the other in a lent slice.
ghost use Rattle.std.specs.Prelude.{◌≡◌, ◌++◌, ◌+◌, ◌*◌, ◌≤◌, ◌<◌, length, take, drop};
ghost use Rattle.strip.specs.Bytes.{IsStrip};
ghost use Rattle.joining.specs.Walking.{Marked, Added, CanTurn};
ghost use Rattle.joining.specs.Cells.{room};
ghost use Rattle.joining.specs.Lines.{IsFilled, WroteLines};

use crate::walking::Marks;

// The first `steps` bytes once more behind themselves.
fn double(part: &mut [u8], steps: usize)
    requires { steps + steps ≤ length part.old }
    ensures { part.new ≡ take steps part.old ++ take steps part.old ++ drop (steps + steps) part.old }
{
    // Byte by byte: as one copy it would be a call of `memmove`, which the archive for C asks of nobody.
    for k in 0..steps {
        part[steps + k] = part[k];
    }
}

// How many strips were written, and whether some remain.
#[derive(Clone, Copy, Debug, PartialEq, Eq)]
pub(crate) struct Counted {
    pub count: usize,
    pub more: bool,
}

// Behind the best strip at the front of `part`, the next one, if there is one.
fn add_line(marks: Marks, part: &mut [u8]) -> bool
    requires { Marked marks.cells.now marks.m marks.n
        × (marks.m + marks.n + (marks.m + marks.n) ≤ length part.old)
        × IsStrip marks.m marks.n (take (marks.m + marks.n) part.old) }
    ensures { (s : IsStrip marks.entry.m marks.entry.n (take (marks.entry.m + marks.entry.n) part.old))
        → Added marks.entry.cells.now marks.entry.n s.steps part.old part.new result }
{
    let steps = marks.m + marks.n;
    let Some(turn) = marks.find_turn(part) else {
        return false;
    };
    double(part, steps);
    marks.turn_here(&mut part[steps..], turn.at, turn.i, turn.j - 1);
    true
}

fn can_turn(marks: Marks, strip: &[u8]) -> bool
    requires { Marked marks.cells.now marks.m marks.n × (marks.m + marks.n ≤ length strip.now)
        × IsStrip marks.m marks.n (take (marks.m + marks.n) strip.now) }
    ensures { (s : IsStrip marks.entry.m marks.entry.n (take (marks.entry.m + marks.entry.n) strip.now))
        → CanTurn marks.entry.cells.now marks.entry.n s.steps result }
{
    marks.find_turn(strip).is_some()
}

// The first `limit` best strips at the front of `lines`: the first is traced, each next is turned from a copy of the one before it.
fn write_lines(marks: Marks, lines: &mut [u8], limit: usize) -> Counted
    requires { IsFilled marks.cells.now marks.m marks.n × (1 ≤ marks.m) × (marks.m ≤ 250) × (marks.n ≤ 250)
        × (room ((marks.m + 1) * (marks.n + 1)) ≤ length marks.cells.now) × (1 ≤ limit)
        × (limit * (marks.m + marks.n) ≤ length lines.old) }
    ensures { (f : IsFilled marks.entry.cells.now marks.entry.m marks.entry.n)
        → WroteLines f.w marks.entry.m marks.entry.n limit lines.old lines.new result }
{
    let steps = marks.m + marks.n;
    marks.trace_back(marks.m, marks.n, lines);
    let mut last = 0;
    for count in 1..limit {
        if !add_line(marks, &mut lines[last..]) {
            return Counted { count, more: false };
        }
        last += steps;
    }
    Counted {
        count: limit,
        more: can_turn(marks, &lines[last..]),
    }
}

// The same for any limit: nothing is written for none, and then some remain, since there is a best strip.
pub(crate) fn some_lines(marks: Marks, lines: &mut [u8], limit: usize) -> Counted
    requires { IsFilled marks.cells.now marks.m marks.n × (1 ≤ marks.m) × (marks.m ≤ 250) × (marks.n ≤ 250)
        × (room ((marks.m + 1) * (marks.n + 1)) ≤ length marks.cells.now)
        × (limit * (marks.m + marks.n) ≤ length lines.old) }
    ensures { (f : IsFilled marks.entry.cells.now marks.entry.m marks.entry.n)
        → WroteLines f.w marks.entry.m marks.entry.n limit lines.old lines.new result }
{
    if limit == 0 {
        return Counted {
            count: 0,
            more: true,
        };
    }
    write_lines(marks, lines, limit)
}
