// The commands that call the functions on a stack, print what they answer, and see whether lent memory that the answer does not speak of
// is still the guard. What is in hand is lent, as much of it as counts.
use crate::desk::Desk;
use crate::lists::{GUARD, cut, kept, lend, work_kept};
use crate::says::{say, say_if, say_value, tell};
use std::io;
use std::io::Write;

// `judge_stack`
pub(crate) fn judge_stack<W: Write>(out: &mut W, desk: &Desk) -> io::Result<()> {
    let answer = stack::judge_stack(desk.stack.as_slice(), desk.coords.as_slice());
    tell(
        out,
        answer,
        |out: &mut W, fit| write!(out, " {} {}", fit.points, fit.steps),
    )
}

// `judge_strips`
pub(crate) fn judge_strips<W: Write>(out: &mut W, desk: &Desk) -> io::Result<()> {
    let answer = stack::judge_strips(desk.stack.as_slice(), desk.strips.as_slice());
    tell(out, answer, |_: &mut W, _| Ok(()))
}

// `volume`
pub(crate) fn volume(out: &mut impl Write, desk: &Desk) -> io::Result<()> {
    let answer = mesh::volume(
        desk.stack.as_slice(),
        desk.coords.as_slice(),
        desk.strips.as_slice(),
    );
    tell(out, answer, say_value)
}

// `best_strips STRIPS WORK STEPS CELLS`
pub(crate) fn best_strips(
    out: &mut impl Write,
    desk: &mut Desk,
    [strips, work, steps, cells]: [usize; 4],
) -> io::Result<()> {
    let mut room = [GUARD; 63_002];
    desk.lent = [GUARD; 50_688];
    let answer = bands::best_strips(
        desk.stack.as_slice(),
        desk.coords.as_slice(),
        lend(&mut desk.lent, strips),
        lend(&mut room, work),
    );
    tell(out, answer, say)?;
    let so = kept(&desk.lent, steps, GUARD) && work_kept(&room, cells);
    say_if(out, so, " kept")
}

// `triangles NUMBERS USED TOLD`: the answer, or so many numbers of the list alone.
pub(crate) fn triangles<W: Write>(
    out: &mut W,
    desk: &Desk,
    [numbers, used, told]: [usize; 3],
) -> io::Result<()> {
    let mut list = [u32::from(GUARD); 29_990];
    let answer = mesh::triangles(
        desk.stack.as_slice(),
        desk.coords.as_slice(),
        desk.strips.as_slice(),
        lend(&mut list, numbers),
    );
    if told == 0 {
        tell(out, answer, |out: &mut W, closed| {
            write!(out, " {} six", closed.triangles)?;
            say_value(out, closed.six)
        })?;
        return say_if(out, kept(&list, used, u32::from(GUARD)), " kept");
    }
    for vertex in cut(&list, told).0 {
        say(out, *vertex)?;
    }
    Ok(())
}

// `write BYTES USED`
pub(crate) fn write(
    out: &mut impl Write,
    desk: &mut Desk,
    [bytes, used]: [usize; 2],
) -> io::Result<()> {
    desk.lent = [GUARD; 50_688];
    let answer = register::write(
        desk.stack.as_slice(),
        desk.coords.as_slice(),
        desk.strips.as_slice(),
        lend(&mut desk.lent, bytes),
    );
    tell(out, answer, say)?;
    say_if(out, kept(&desk.lent, used, GUARD), " kept")
}
