// The listing program: standard input in, standard output out; all between is `listing`.
#![tactic(auto)]

use listing::LONGEST;
use reading::read_full;
use std::io;
use std::io::{Read, Write};

// A reader of which a read that fails gives no byte, as one at the end does.
#[derive(Drop)]
struct Quiet<R>(R);

impl<R: Read> Read for Quiet<R> {
    fn read(&mut self, buf: &mut [u8]) -> io::Result<usize> {
        Ok(self.0.read(buf).unwrap_or(0))
    }
}

// One byte more than may be read, so that longer input is seen to be longer. A read that fails ends the text too soon: unless the end is
// certain, the whole array is taken for the text, which is too long, and so TEXT.
fn main(rt: HostRuntime) -> io::Result<()> {
    let mut input = rt.reader();
    let mut text = [0u8; 60_001];
    let read = read_full(&mut Quiet(&mut input), &mut text)?;
    let end = if at_end(&mut input) { read } else { text.len() };
    print(&mut io::writer(&rt), &text[..end])
}

// Whether the input is at its end: one more read gives no byte. A read that fails says nothing of the end.
fn at_end(input: &mut impl Read) -> bool {
    matches!(input.read(&mut [0u8; 1]), Ok(0))
}

// There is room for every listing, so nothing is refused but in the text itself.
fn print(out: &mut impl Write, text: &[u8]) -> io::Result<()> {
    let mut lines = [0u8; LONGEST];
    match listing::listing(text, &mut lines) {
        Ok(written) => out.write_all(&lines[..written]),
        Err(_) => Ok(()),
    }
}
