// Odd inputs of the listing program, a file each in data/, whose names stand in standard input, and what it writes for them: all of it, or
// of a long one the first line, how many lines and bytes, and the last bytes. Then what happens to the lent slice.
#![tactic(auto)]

ghost use Rattle.std.specs.Prelude.{◌≡◌, ◌==◌, ◌<◌, ◌^◌, count_by};

use fault::Refusal;
use listing::LONGEST;
use reading::read_full;
use std::io::{ErrorKind, Write};
use std::rt::Files;
use std::{fs, io, str};

// Two traces of T, one above the other.
const INPUT: &[u8] = b"0 3 0 0 2 0 0 2 1 3 0 0 2 0 0 2";

fn main(rt: HostRuntime) -> io::Result<()> {
    let mut out = io::writer(&rt);
    let mut names = [0u8; 2_000];
    let read = read_full(&mut rt.reader(), &mut names)?;
    for line in names[..read].split_inclusive(|byte| *byte == b'\n') {
        show(&rt, &mut out, line.strip_suffix(b"\n").unwrap_or(line))?;
    }
    lent::<501_046>(&mut out)?;
    lent::<501_050>(&mut out)
}

fn show(rt: &impl Files, out: &mut impl Write, name: &[u8]) -> io::Result<()> {
    out.write_all(name)?;
    out.write_all(b":\n")?;
    let Ok(path) = str::from_utf8(name) else {
        return Err(io::Error::from(ErrorKind::InvalidFilename));
    };
    let mut file = fs::open(rt, path)?;
    let mut text = [0u8; 60_001];
    let read = read_full(&mut file, &mut text)?;
    print(out, &text[..read])
}

fn print(out: &mut impl Write, text: &[u8]) -> io::Result<()> {
    let mut lines = [0u8; LONGEST];
    match listing::listing(text, &mut lines) {
        Ok(written) => tell(out, &lines[..written]),
        Err(_) => out.write_all(b"no room\n"),
    }
}

fn tell(out: &mut impl Write, lines: &[u8]) -> io::Result<()> {
    let bytes = lines.len();
    if bytes <= 200 {
        return out.write_all(lines);
    }
    let first = lines.iter().take_while(|byte| **byte != b'\n').count();
    out.write_all(&lines[..first])?;
    let many = times(lines, b'\n');
    write!(out, "\n{many} lines, {bytes} bytes, the last of them:\n")?;
    out.write_all(&lines[bytes - 26..])
}

// How often a byte stands in a list.
fn times(list: &[u8], byte: u8) -> usize
    ensures { result ≡ count_by (λ b. b == byte) list.now }
{
    list.iter().filter(|b| **b == byte).count()
}

// What a call does to a slice of `N` bytes, each of them 7 before it. One that is a byte too short is left as it was; of a longer one all
// but the front is.
fn lent<const N: usize>(out: &mut impl Write) -> io::Result<()>
    requires { N < 2 ^ 63 }
{
    let mut list = [7u8; N];
    tell_listed(out, listing::listing(INPUT, &mut list))?;
    let same = times(&list, 7);
    writeln!(out, ", bytes lent {N}, still as before {same}")
}

fn tell_listed(out: &mut impl Write, listed: Result<usize, Refusal>) -> io::Result<()> {
    match listed {
        Ok(written) => write!(out, "written {written}"),
        Err(refusal) => write!(out, "{refusal}"),
    }
}
