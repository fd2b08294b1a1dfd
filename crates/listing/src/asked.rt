// What the input asks: lower plane, m, m points, upper plane, n, n points, nothing more.
ghost use Rattle.std.specs.Prelude.{◌≡◌};
ghost use Rattle.listing.specs.Asked.{reads};
ghost use Rattle.listing.specs.Answer.{Answered};
ghost use Rattle.listing.specs.Filling.{NumberRead, CountRead, CoordsRead, LayerRead, PairRead};

use crate::numeral::numeral;
use crate::words::next_word;

// A plane and a number of points, with which a layer begins.
#[derive(Clone, Copy, Debug, PartialEq, Eq)]
pub(crate) struct Head {
    pub(crate) plane: i32,
    pub(crate) count: usize,
}

// What was asked for; the coordinates stand in the lists that were lent.
#[derive(Clone, Copy, Debug, PartialEq, Eq)]
pub(crate) struct Asked {
    pub(crate) lower: Head,
    pub(crate) upper: Head,
}

// Each reader takes what it reads off the front of the text.
fn read_number(rest: &mut &[u8]) -> Option<i32>
    ensures { NumberRead rest.old.now rest.new.now result }
{
    numeral(next_word(rest)?)
}

// A number that is not negative.
fn read_count(rest: &mut &[u8]) -> Option<usize>
    ensures { CountRead rest.old.now rest.new.now result }
{
    let value = read_number(rest)?;
    usize::try_from(value).ok()
}

// As many numbers as are wanted, kept where there is room for them. A trace of more points than there is room for is refused whatever
// its coordinates are. However many are wanted, no more are read than the text has.
fn read_coords(rest: &mut &[u8], wanted: usize, room: &mut [i32]) -> Option<()>
    ensures { CoordsRead rest.old.now rest.new.now wanted room.old room.new result }
{
    for k in 0..wanted {
        let value = read_number(rest)?;
        if k < room.len() {
            room[k] = value;
        }
    }
    Some(())
}

// A plane, a number of points and their coordinates.
fn read_layer(rest: &mut &[u8], room: &mut [i32]) -> Option<Head>
    ensures { LayerRead rest.old.now rest.new.now room.old room.new result }
{
    let plane = read_number(rest)?;
    let count = read_count(rest)?;
    read_coords(rest, 2 * count, room)?;
    Some(Head { plane, count })
}

fn read_pair(text: &[u8], a: &mut [i32], b: &mut [i32]) -> Option<Asked>
    ensures { PairRead text.now a.old b.old a.new b.new result }
{
    if 60_000 < text.len() {
        return None;
    }
    let mut rest = text;
    let lower = read_layer(&mut rest, a)?;
    let upper = read_layer(&mut rest, b)?;
    let None = next_word(&mut rest) else {
        return None;
    };
    Some(Asked { lower, upper })
}

// Takes every text and every two lists, and goes along the text once. Where nothing is asked for, nothing that was read stays in the lists.
pub(crate) fn read(text: &[u8], a: &mut [i32], b: &mut [i32]) -> Option<Asked>
    ensures { Answered (reads text.now) a.old b.old a.new b.new result }
{
    let asked = read_pair(text, a, b);
    if asked.is_none() {
        a.fill(0);
        b.fill(0);
    }
    asked
}
