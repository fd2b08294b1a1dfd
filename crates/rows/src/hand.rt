// The commands on a trace and on a pair in hand. The coordinates up to MIDDLE are the lower trace, the others the upper. They print what is
// answered, and see whether so many cells of the work bytes are 0 and all others still the guard; the strip slice is printed by the text.
use crate::desk::Desk;
use crate::lists::{GUARD, lend, part, work_kept};
use crate::says::{say, say_if, say_value, tell};
use fault::refuse;
use std::io;
use std::io::Write;

// `judge FROM TO`
pub(crate) fn judge<W: Write>(out: &mut W, desk: &Desk, [from, to]: [usize; 2]) -> io::Result<()> {
    let coords = part(desk.coords.as_slice(), from, to);
    let answer = trace::judge(coords).map_err(|fault| refuse(fault, 0));
    tell(out, answer, |out: &mut W, fit| {
        say_value(out, fit.area)?;
        say(out, fit.count)
    })
}

// The two traces; each of them is all coordinates, if MIDDLE is past the end.
fn pair(coords: &[i32], middle: usize) -> (&[i32], &[i32]) {
    coords.split_at_checked(middle).unwrap_or((coords, coords))
}

// `judge_strip MIDDLE`
pub(crate) fn judge_strip(
    out: &mut impl Write,
    desk: &Desk,
    [middle]: [usize; 1],
) -> io::Result<()> {
    let (a, b) = pair(desk.coords.as_slice(), middle);
    tell(
        out,
        strip::judge_strip(a, b, desk.strips.as_slice()),
        say_value,
    )
}

// `best MIDDLE STRIPS WORK CELLS`
pub(crate) fn best(
    out: &mut impl Write,
    desk: &mut Desk,
    [middle, strips, work, cells]: [usize; 4],
) -> io::Result<()> {
    let (a, b) = pair(desk.coords.as_slice(), middle);
    let mut room = [GUARD; 64];
    desk.lent = [GUARD; 50_688];
    let answer = joining::best(a, b, lend(&mut desk.lent, strips), lend(&mut room, work));
    tell(out, answer, say_value)?;
    say_if(out, work_kept(&room, cells), " kept")
}

// `next MIDDLE STRIPS WORK CELLS`: the strips in hand are handed in.
pub(crate) fn next<W: Write>(
    out: &mut W,
    desk: &mut Desk,
    [middle, strips, work, cells]: [usize; 4],
) -> io::Result<()> {
    let (a, b) = pair(desk.coords.as_slice(), middle);
    let mut room = [GUARD; 64];
    let strip = desk.strips.items;
    desk.lent = strip;
    let answer = joining::next(a, b, lend(&mut desk.lent, strips), lend(&mut room, work));
    tell(out, answer, |out: &mut W, next| match next {
        Some(value) => say_value(out, value),
        None => write!(out, " none left"),
    })?;
    say_if(out, work_kept(&room, cells), " kept")
}

// `list_best MIDDLE LINES WORK LIMIT CELLS`
pub(crate) fn list_best<W: Write>(
    out: &mut W,
    desk: &mut Desk,
    [middle, lines, work, limit, cells]: [usize; 5],
) -> io::Result<()> {
    let (a, b) = pair(desk.coords.as_slice(), middle);
    let mut room = [GUARD; 64];
    desk.lent = [GUARD; 50_688];
    let answer = joining::list_best(
        a,
        b,
        lend(&mut desk.lent, lines),
        lend(&mut room, work),
        limit,
    );
    tell(out, answer, |out: &mut W, run| {
        say_value(out, run.value)?;
        say(out, run.count)?;
        say_if(out, run.more, " more")
    })?;
    say_if(out, work_kept(&room, cells), " kept")
}
