// The entry points over plain numbers and slices, for Rattle; the crate `exports_c` hands them to C under the same names. An answer is a
// status (a number, which is 0 for success, 100 for none left, else the refusal's, and a place) and what was found, or zeros.
#![tactic(auto)]

pub mod files;
pub mod stacks;

ghost use Rattle.std.specs.Prelude.{◌≡◌};
ghost use Rattle.trace.specs.Faults.{Given};
ghost use Rattle.strip.specs.Judging.{StripJudged};
ghost use Rattle.joining.specs.Answers.{BestAnswer, NextAnswer};
ghost use Rattle.joining.specs.Listing.{ListAnswer};
ghost use Rattle.exports.specs.Shown.{Shows, valued, followed, listed, judged_as};

use fault::{Fault, Refusal, Status, none_left, refuse, succeeded};
use joining::Run;
use trace::Fit;

// A value.
#[repr(C)]
#[derive(Clone, Copy, Debug, PartialEq, Eq)]
pub struct Answer {
    pub status: Status,
    pub value: i64,
}

// A trace's twice the area and number of points.
#[repr(C)]
#[derive(Clone, Copy, Debug, PartialEq, Eq)]
pub struct TraceAnswer {
    pub status: Status,
    pub area: i64,
    pub count: usize,
}

// A run of best strips.
#[repr(C)]
#[derive(Clone, Copy, Debug, PartialEq, Eq)]
pub struct RunAnswer {
    pub status: Status,
    pub value: i64,
    pub count: usize,
    pub more: bool,
}

// The judgement of one trace.
pub fn register_judge(coords: &[i32]) -> TraceAnswer
    ensures { Shows (Given coords.now) judged_as result }
{
    TraceAnswer::from(trace::judge(coords))
}

// A strip made elsewhere: its value.
pub fn register_judge_strip(a: &[i32], b: &[i32], strip: &[u8]) -> Answer
    ensures { Shows (StripJudged a.now b.now strip.now) valued result }
{
    Answer::from(strip::judge_strip(a, b, strip))
}

// The first best strip, at the front of `strip`.
pub fn register_best(a: &[i32], b: &[i32], strip: &mut [u8], work: &mut [u8]) -> Answer
    ensures { Shows (BestAnswer a.now b.now strip.old work.old strip.new work.new) valued result }
{
    Answer::from(joining::best(a, b, strip, work))
}

// The next best strip, in the place of the one handed in.
pub fn register_next(a: &[i32], b: &[i32], strip: &mut [u8], work: &mut [u8]) -> Answer
    ensures { Shows (NextAnswer a.now b.now strip.old work.old strip.new work.new) followed result }
{
    Answer::from(joining::next(a, b, strip, work))
}

// The first `limit` best strips, one after the other in `lines`.
pub fn register_list_best(
    a: &[i32],
    b: &[i32],
    lines: &mut [u8],
    work: &mut [u8],
    limit: usize,
) -> RunAnswer
    ensures { Shows (ListAnswer a.now b.now limit lines.old work.old lines.new work.new) listed result }
{
    RunAnswer::from(joining::list_best(a, b, lines, work, limit))
}

impl From<Result<Fit, Fault>> for TraceAnswer {
    ghost from_gives = { λ x r. r ≡ judged_as x };

    fn from(judged: Result<Fit, Fault>) -> TraceAnswer {
        match judged {
            Ok(Fit { area, count }) => TraceAnswer {
                status: succeeded(),
                area,
                count,
            },
            Err(fault) => TraceAnswer {
                status: Status::from(refuse(fault, 0)),
                area: 0,
                count: 0,
            },
        }
    }
}

impl From<Result<i64, Refusal>> for Answer {
    ghost from_gives = { λ x r. r ≡ valued x };

    fn from(valued: Result<i64, Refusal>) -> Answer {
        match valued {
            Ok(value) => Answer {
                status: succeeded(),
                value,
            },
            Err(refusal) => Answer {
                status: Status::from(refusal),
                value: 0,
            },
        }
    }
}

impl From<Result<Option<i64>, Refusal>> for Answer {
    ghost from_gives = { λ x r. r ≡ followed x };

    fn from(followed: Result<Option<i64>, Refusal>) -> Answer {
        match followed {
            Ok(Some(value)) => Answer {
                status: succeeded(),
                value,
            },
            Ok(None) => Answer {
                status: none_left(),
                value: 0,
            },
            Err(refusal) => Answer {
                status: Status::from(refusal),
                value: 0,
            },
        }
    }
}

impl From<Result<Run, Refusal>> for RunAnswer {
    ghost from_gives = { λ x r. r ≡ listed x };

    fn from(listed: Result<Run, Refusal>) -> RunAnswer {
        match listed {
            Ok(Run { value, count, more }) => RunAnswer {
                status: succeeded(),
                value,
                count,
                more,
            },
            Err(refusal) => RunAnswer {
                status: Status::from(refusal),
                value: 0,
                count: 0,
                more: false,
            },
        }
    }
}
