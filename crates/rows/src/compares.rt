// The commands that hold what came back against what is in hand, or print it or its sum.
use crate::desk::Desk;
use crate::lists::cut;
use crate::says::{say, say_if};
use crate::sums::Sum;
use stack::layer_at;
use std::io;
use std::io::Write;

// `same_coords NUMBERS`, `same_strips STEPS`, `same_file BYTES`: the first so many elements, whether they count or not.
pub(crate) fn same<T: PartialEq>(
    out: &mut impl Write,
    came: &[T],
    hand: &[T],
    [n]: [usize; 1],
) -> io::Result<()> {
    say_if(out, cut(came, n).0 == cut(hand, n).0, " same")
}

// `same_stack LAYERS`: the first so many layers. What does not count is a layer of zeros.
pub(crate) fn same_stack(out: &mut impl Write, desk: &Desk, [n]: [usize; 1]) -> io::Result<()> {
    let came = desk.entries.as_slice();
    let hand = desk.stack.as_slice();
    let so = (0..20)
        .take(n)
        .all(|k| layer_at(came, k) == layer_at(hand, k));
    say_if(out, so, " same")
}

// `print FROM TO`
pub(crate) fn print(out: &mut impl Write, desk: &Desk, [from, to]: [usize; 2]) -> io::Result<()> {
    for byte in cut(cut(&desk.lent, to).0, from).1 {
        say(out, *byte)?;
    }
    Ok(())
}

// `sum N`
pub(crate) fn sum(out: &mut impl Write, desk: &Desk, [n]: [usize; 1]) -> io::Result<()> {
    let Sum(sum) = Sum::default().bytes(cut(&desk.lent, n).0);
    say(out, sum)
}
