// The entry points for C and whatever can call it, under plain names; include/register.h declares them. Each is that of the crate `exports`
// with the same name, parameters and clauses.
#![tactic(auto)]

pub mod files;
pub mod stacks;

ghost use Rattle.trace.specs.Faults.{Given};
ghost use Rattle.strip.specs.Judging.{StripJudged};
ghost use Rattle.joining.specs.Answers.{BestAnswer, NextAnswer};
ghost use Rattle.joining.specs.Listing.{ListAnswer};
ghost use Rattle.exports.specs.Shown.{Shows, valued, followed, listed, judged_as};

use exports::{Answer, RunAnswer, TraceAnswer};

// The judgement of one trace.
#[unsafe(no_mangle)]
pub extern "C" fn register_judge(coords: &[i32]) -> TraceAnswer
    ensures { Shows (Given coords.now) judged_as result }
{
    exports::register_judge(coords)
}

// A strip made elsewhere: its value.
#[unsafe(no_mangle)]
pub extern "C" fn register_judge_strip(a: &[i32], b: &[i32], strip: &[u8]) -> Answer
    ensures { Shows (StripJudged a.now b.now strip.now) valued result }
{
    exports::register_judge_strip(a, b, strip)
}

// The first best strip, at the front of `strip`.
#[unsafe(no_mangle)]
pub extern "C" fn register_best(a: &[i32], b: &[i32], strip: &mut [u8], work: &mut [u8]) -> Answer
    ensures { Shows (BestAnswer a.now b.now strip.old work.old strip.new work.new)
        valued result }
{
    exports::register_best(a, b, strip, work)
}

// The next best strip, in the place of the one handed in.
#[unsafe(no_mangle)]
pub extern "C" fn register_next(a: &[i32], b: &[i32], strip: &mut [u8], work: &mut [u8]) -> Answer
    ensures { Shows (NextAnswer a.now b.now strip.old work.old strip.new work.new)
        followed result }
{
    exports::register_next(a, b, strip, work)
}

// The first `limit` best strips, one after the other in `lines`.
#[unsafe(no_mangle)]
pub extern "C" fn register_list_best(
    a: &[i32],
    b: &[i32],
    lines: &mut [u8],
    work: &mut [u8],
    limit: usize,
) -> RunAnswer
    ensures { Shows (ListAnswer a.now b.now limit lines.old work.old lines.new work.new)
        listed result }
{
    exports::register_list_best(a, b, lines, work, limit)
}
