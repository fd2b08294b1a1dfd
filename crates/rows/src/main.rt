// 01's rows on a trace, a pair, a stack and its register file. They are data: the text on standard input, the file `stdin` beside `src`, is
// what is to be printed, with a command in brackets wherever an answer is to stand. So a new row is a line of that text.
//
// Outside brackets every byte is printed. Between brackets a command ends with its line, with a semicolon or with the bracket. It is a
// name and its numbers, always all of them; the first lines of the text list them. A word `#` makes a comment. The number of a name that
// is no command is printed behind `what?`. A call prints the numbers of its answer, or `refused NUMBER PLACE`; the word before the numbers
// (`fit`, `steps`) is the text's. Memory is lent full of the guard, 7, and `kept` says that every element that may not be used is still
// it, and that a stack that came back has as many layers as it must.
#![tactic(auto)]

mod calls;
mod commands;
mod compares;
mod desk;
mod drawn;
mod hand;
mod lists;
mod pairs;
mod reads;
mod says;
mod sums;
mod words;

use crate::commands::follow;
use crate::desk::Desk;
use crate::words::Words;
use reading::read_full;
use std::io;
use std::io::Write;

fn main(rt: HostRuntime) -> io::Result<()> {
    let mut text = [0u8; 150_000];
    let many = read_full(&mut rt.reader(), &mut text)?;
    run(&mut io::writer(&rt), &text[..many])
}

// What stands outside brackets is printed, and each command between them followed. A piece of the text ends where brackets close.
fn run(out: &mut impl Write, text: &[u8]) -> io::Result<()> {
    let mut desk = Desk::clear();
    for piece in text.split_inclusive(|byte| *byte == b']') {
        let mut parts = piece.splitn(2, |byte| *byte == b'[');
        out.write_all(parts.next().unwrap_or(&[]))?;
        follow_all(out, &mut desk, parts.next().unwrap_or(&[]))?;
    }
    Ok(())
}

// A command is followed as it ends; the last of the text may not.
fn follow_all(out: &mut impl Write, desk: &mut Desk, commands: &[u8]) -> io::Result<()> {
    for command in commands.split_inclusive(|byte| matches!(*byte, b'\n' | b';' | b']')) {
        if let Some((b'\n' | b';' | b']', text)) = command.split_last() {
            follow(out, desk, Words { text })?;
        }
    }
    Ok(())
}
