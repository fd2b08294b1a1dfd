// What is printed: answers, and words that stand only where something is so.
use fault::Refusal;
use std::fmt::Display;
use std::io;
use std::io::Write;

// An answer: what `say` prints of it, or that it was refused.
pub(crate) fn tell<W: Write, T: Drop, F: FnOnce(&mut W, T) -> io::Result<()>>(
    out: &mut W,
    answer: Result<T, Refusal>,
    say: F,
) -> io::Result<()>
    requires { F.IsAlwaysCallable say }
{
    match answer {
        Ok(value) => say(out, value),
        Err(refusal) => write!(out, " {refusal}"),
    }
}

// A space and the value.
pub(crate) fn say(out: &mut impl Write, value: impl Display + Drop) -> io::Result<()> {
    write!(out, " {value}")
}

// A value, or six times a volume; 0 stands for one below zero.
pub(crate) fn say_value(out: &mut impl Write, value: i64) -> io::Result<()> {
    say(out, value.max(0))
}

pub(crate) fn say_if(out: &mut impl Write, so: bool, text: &str) -> io::Result<()> {
    if so { write!(out, "{text}") } else { Ok(()) }
}
