// Walking along the marks: back from a pair to (0,0), and forth along a strip to the step where the next one turns.
ghost use Rattle.std.specs.Prelude.{◌≡◌, ◌++◌, ◌+◌, ◌≤◌, ◌<◌, length, take, drop, set};
ghost use Rattle.ways.specs.Keppel.{trace};
ghost use Rattle.strip.specs.Bytes.{bytes, IsStrip};
ghost use Rattle.joining.specs.Cells.{room};
ghost use Rattle.joining.specs.Table.{cell_at};
ghost use Rattle.joining.specs.Walking.{says_a, Leads, BackFrom, TurnOf, Looked, LookReady};

use crate::marks::mark_at;

// The marks of a table of (m+1)(n+1) pairs, one a cell, row by row.
#[derive(Clone, Copy, Debug, PartialEq, Eq)]
pub(crate) struct Marks<'a> {
    pub cells: &'a [u8],
    pub m: usize,
    pub n: usize,
}

// A pair, and the byte of the step that leads on from it.
#[derive(Clone, Copy, Debug, PartialEq, Eq)]
pub(crate) struct Back {
    pub i: usize,
    pub j: usize,
    pub byte: u8,
}

// The pair after a step of a strip, and whether that step can be turned.
#[derive(Clone, Copy, Debug, PartialEq, Eq)]
pub(crate) struct Look {
    pub i: usize,
    pub j: usize,
    pub turns: bool,
}

// The step at `at`, an A into the pair (i,j), which can be reached best by B as well.
#[derive(Clone, Copy, Debug, PartialEq, Eq)]
pub(crate) struct Turn {
    pub at: usize,
    pub i: usize,
    pub j: usize,
}

impl Marks<'_> {
    // One step back from (i,j): by A where the mark allows it.
    fn step_back(self, i: usize, j: usize) -> Back
        requires { Leads self.cells.now self.n i j × (1 ≤ i + j) }
        ensures { BackFrom (says_a self.entry.cells.now self.entry.n i j) i j result }
    {
        let mark = mark_at(self.cells, i * (self.n + 1) + j);
        if mark % 2 == 1 {
            return Back {
                i: i - 1,
                j,
                byte: 0,
            };
        }
        Back {
            i,
            j: j - 1,
            byte: 1,
        }
    }

    // The strip to (i,j) that the marks lead back, at the front of `strip`: 001's (13), A wherever it attains the greatest value.
    pub(crate) fn trace_back(self, i: usize, j: usize, strip: &mut [u8])
        requires { Leads self.cells.now self.n i j × (i + j ≤ length strip.old) }
        ensures { strip.new ≡ bytes (trace (says_a self.entry.cells.now self.entry.n) (i + j) i j) ++ drop (i + j) strip.old }
    {
        let mut at = Back { i, j, byte: 0 };
        for k in (0..i + j).rev() {
            at = self.step_back(at.i, at.j);
            strip[k] = at.byte;
        }
    }

    // One step of a strip on from (i,j).
    fn step_on(self, byte: u8, i: usize, j: usize) -> Look
        requires { LookReady self.cells.now self.n byte i j }
        ensures { Looked self.entry.cells.now self.entry.n byte i j result }
    {
        if byte == 0 {
            let mark = mark_at(self.cells, (i + 1) * (self.n + 1) + j);
            return Look {
                i: i + 1,
                j,
                turns: mark / 2 == 1,
            };
        }
        Look {
            i,
            j: j + 1,
            turns: false,
        }
    }

    // The earliest step of the strip that can be turned from A to B: what comes behind it is the longest end that the next strip can keep.
    pub(crate) fn find_turn(self, strip: &[u8]) -> Option<Turn>
        requires { (self.m ≤ 250) × (self.n ≤ 250)
            × (room (cell_at self.n self.m self.n + 1) ≤ length self.cells.now)
            × (self.m + self.n ≤ length strip.now)
            × IsStrip self.m self.n (take (self.m + self.n) strip.now) }
        ensures { (s : IsStrip self.entry.m self.entry.n (take (self.entry.m + self.entry.n) strip.now))
            → TurnOf self.entry.cells.now self.entry.n s.steps result }
    {
        let mut at = Look {
            i: 0,
            j: 0,
            turns: false,
        };
        for k in 0..self.m + self.n {
            at = self.step_on(strip[k], at.i, at.j);
            if at.turns {
                return Some(Turn {
                    at: k,
                    i: at.i,
                    j: at.j,
                });
            }
        }
        None
    }

    // The strip with a step B at `at`, and what comes before it traced anew from (i,j), the pair that this step leaves.
    pub(crate) fn turn_here(self, strip: &mut [u8], at: usize, i: usize, j: usize)
        requires { Leads self.cells.now self.n i j × (at < length strip.old) × (i + j ≤ length strip.old) }
        ensures { strip.new ≡ bytes (trace (says_a self.entry.cells.now self.entry.n) (i + j) i j) ++ drop (i + j) (set strip.old at 1) }
    {
        strip[at] = 1;
        self.trace_back(i, j, strip);
    }
}
