// The commands on a file: `read`, `seal`, and `files`, which reads a file with every byte changed to every other value.
use crate::desk::{Desk, GUARD_LAYER, NO_LAYER};
use crate::lists::{GUARD, Lot, cut, kept, lend};
use crate::says::{say_if, tell};
use fault::{Fault, Refusal, refuse};
use register::FileRead;
use stack::Layer;
use std::io;
use std::io::Write;

// `seal`. A block has 512 bytes. The bytes behind the blocks are those of the file that is kept.
pub(crate) fn seal(desk: &mut Desk) {
    let mut file = desk.base;
    let blocks = blocks::seal(desk.file.as_slice(), &mut file.items).unwrap_or(0);
    file.many = blocks.wrapping_mul(512);
    desk.file = file;
}

// `read ROOM COORDINATES STEPS LAYERS NUMBERS STEPS`: three rooms, and what of each is used.
pub(crate) fn read<W: Write>(
    out: &mut W,
    desk: &mut Desk,
    [
        room,
        coordinates,
        steps,
        layers_used,
        numbers_used,
        steps_used,
    ]: [usize; 6],
) -> io::Result<()> {
    let mut layers = [GUARD_LAYER; 21];
    desk.numbers = [i32::from(GUARD); 10_000];
    desk.lent = [GUARD; 50_688];
    let answer = register::read(
        desk.file.as_slice(),
        lend(&mut layers, room),
        lend(&mut desk.numbers, coordinates),
        lend(&mut desk.lent, steps),
    );
    let used = [layers_used, numbers_used, steps_used];
    let many = layers_of(answer);
    let so = only_used(many, &layers, &desk.numbers, &desk.lent, used);
    desk.entries = Lot::of(NO_LAYER, 0);
    for layer in cut(&layers, many).0 {
        desk.entries.push(*layer);
    }
    tell(out, answer, |out: &mut W, read| {
        write!(out, " {} {} {}", read.layers, read.points, read.steps)
    })?;
    say_if(out, so, " kept")
}

// How many layers came: none, if the file was refused.
fn layers_of(answer: Result<FileRead, Refusal>) -> usize {
    answer.map_or(0, |read| read.layers)
}

// Whether so many layers came as may be used, and all that was lent is the guard, but for what may be used at the fronts.
fn only_used(
    many: usize,
    layers: &[Layer],
    numbers: &[i32],
    steps: &[u8],
    [layers_used, numbers_used, steps_used]: [usize; 3],
) -> bool {
    many == layers_used
        && kept(layers, layers_used, GUARD_LAYER)
        && kept(numbers, numbers_used, i32::from(GUARD))
        && kept(steps, steps_used, GUARD)
}

// How many files were read, how many of them were refused with CHECK at block 0, and how often all lent memory was kept.
#[derive(Clone, Copy, Default)]
struct Counts {
    read: usize,
    refused: usize,
    kept: usize,
}

// `files`, and the numbers of `read`, of which COORDINATES and STEPS are always 12 and 6. The file has one block.
pub(crate) fn files(
    out: &mut impl Write,
    desk: &Desk,
    [room, _, _, layers_used, numbers_used, steps_used]: [usize; 6],
) -> io::Result<()> {
    let mut counts = Counts::default();
    let mut file = desk.file;
    let used = [layers_used, numbers_used, steps_used];
    for at in 0..512 {
        counts.other_values(&mut file, at, room, used);
    }
    write!(
        out,
        " {}, refused 15 0 {}, kept {}",
        counts.read, counts.refused, counts.kept
    )
}

impl Counts {
    // The file with one byte changed to each other value. Its values go round, so that the byte ends as it was.
    fn other_values(
        &mut self,
        file: &mut Lot<u8, 50_688>,
        at: usize,
        room: usize,
        used: [usize; 3],
    ) {
        for _ in 0..255 {
            raise(&mut file.items, at);
            self.tried(file.as_slice(), room, used);
        }
        raise(&mut file.items, at);
    }

    fn tried(&mut self, file: &[u8], room: usize, used: [usize; 3]) {
        let mut layers = [GUARD_LAYER; 21];
        let mut numbers = [i32::from(GUARD); 12];
        let mut steps = [GUARD; 6];
        let answer = register::read(file, lend(&mut layers, room), &mut numbers, &mut steps);
        let so = only_used(layers_of(answer), &layers, &numbers, &steps, used);
        self.read = self.read.saturating_add(1);
        self.refused = self
            .refused
            .saturating_add(usize::from(answer == Err(refuse(Fault::Check, 0))));
        self.kept = self.kept.saturating_add(usize::from(so));
    }
}

fn raise(file: &mut [u8], at: usize) {
    if let Some(byte) = file.get_mut(at) {
        *byte = byte.wrapping_add(1);
    }
}
