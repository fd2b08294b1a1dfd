// The commands by their names. The first lines of the text list them.
use crate::calls::{best_strips, judge_stack, judge_strips, triangles, volume, write};
use crate::compares::{print, same, same_stack, sum};
use crate::desk::{Desk, put, zeros};
use crate::hand::{best, judge, judge_strip, list_best, next};
use crate::pairs::pairs;
use crate::reads::{files, read, seal};
use crate::words::{Words, number};
use std::io;
use std::io::Write;

const NAMES: [&str; 35] = [
    "",
    "#",
    "layer",
    "line",
    "coords",
    "strips",
    "step",
    "file",
    "byte",
    "keep",
    "again",
    "seal",
    "take_stack",
    "take_strips",
    "take_file",
    "judge",
    "judge_strip",
    "best",
    "next",
    "list_best",
    "judge_stack",
    "judge_strips",
    "volume",
    "best_strips",
    "triangles",
    "write",
    "read",
    "files",
    "same_stack",
    "same_coords",
    "same_strips",
    "same_file",
    "print",
    "sum",
    "pairs",
];

// The name that has this number. So another word with the same number is that name too, and where no word is but 0, the name is empty.
fn name_of(of_command: usize) -> &'static str {
    NAMES
        .into_iter()
        .find(|name| number(name.as_bytes()) == of_command)
        .unwrap_or("what?")
}

// What sets the desk. No name, and `#`, is nothing.
pub(crate) fn follow(out: &mut impl Write, desk: &mut Desk, words: Words) -> io::Result<()> {
    let name = name_of(words.name());
    match name {
        "" | "#" => {}
        "layer" => desk.layer(words.numbers()),
        "line" => desk.line(words.numbers()),
        "coords" => desk.coords(words.numbers()),
        "strips" => desk.strips = zeros(words.numbers()),
        "step" => put(&mut desk.strips, words.numbers()),
        "file" => desk.file = zeros(words.numbers()),
        "byte" => put(&mut desk.file, words.numbers()),
        "keep" => desk.keep(),
        "again" => desk.again(),
        "seal" => seal(desk),
        "take_stack" => desk.take_stack(words.numbers()),
        "take_strips" => desk.strips = desk.taken(words.numbers()),
        "take_file" => desk.file = desk.taken(words.numbers()),
        _ => return call(out, desk, name, words),
    }
    Ok(())
}

// What prints something.
fn call(out: &mut impl Write, desk: &mut Desk, name: &str, words: Words) -> io::Result<()> {
    match name {
        "judge" => judge(out, desk, words.numbers()),
        "judge_strip" => judge_strip(out, desk, words.numbers()),
        "best" => best(out, desk, words.numbers()),
        "next" => next(out, desk, words.numbers()),
        "list_best" => list_best(out, desk, words.numbers()),
        "judge_stack" => judge_stack(out, desk),
        "judge_strips" => judge_strips(out, desk),
        "volume" => volume(out, desk),
        "best_strips" => best_strips(out, desk, words.numbers()),
        "triangles" => triangles(out, desk, words.numbers()),
        "write" => write(out, desk, words.numbers()),
        "read" => read(out, desk, words.numbers()),
        "files" => files(out, desk, words.numbers()),
        "same_stack" => same_stack(out, desk, words.numbers()),
        "same_coords" => same(out, &desk.numbers, &desk.coords.items, words.numbers()),
        "same_strips" => same(out, &desk.lent, &desk.strips.items, words.numbers()),
        "same_file" => same(out, &desk.lent, &desk.file.items, words.numbers()),
        "print" => print(out, desk, words.numbers()),
        "sum" => sum(out, desk, words.numbers()),
        "pairs" => pairs(out, words.numbers()),
        _ => write!(out, "what?  {}", words.name()),
    }
}
