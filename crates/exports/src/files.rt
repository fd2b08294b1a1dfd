// The entry points for the register file and for the listing.
ghost use Rattle.std.specs.Prelude.{◌≡◌};
ghost use Rattle.register.specs.Writing.{WriteAnswer};
ghost use Rattle.listing.specs.Listing.{ListingAnswer};
ghost use Rattle.exports.specs.Shown.{Shows};
ghost use Rattle.exports.specs.Files.{written_as, read_as, FileShown};

use fault::{Refusal, Status, succeeded};
use register::FileRead;
use stack::Layer;

// The number of bytes that were written.
#[repr(C)]
#[derive(Clone, Copy, Debug, PartialEq, Eq)]
pub struct BytesAnswer {
    pub status: Status,
    pub bytes: usize,
}

// The numbers of layers, points and steps that were read.
#[repr(C)]
#[derive(Clone, Copy, Debug, PartialEq, Eq)]
pub struct FileAnswer {
    pub status: Status,
    pub layers: usize,
    pub points: usize,
    pub steps: usize,
}

// The register file of a stack with its strips, at the front of `out`.
pub fn register_write(
    layers: &[Layer],
    coords: &[i32],
    strips: &[u8],
    out: &mut [u8],
) -> BytesAnswer
    ensures { Shows (WriteAnswer layers.now coords.now strips.now out.old out.new) written_as result }
{
    BytesAnswer::from(register::write(layers, coords, strips, out))
}

// A register file, read: the entries of its layers, its coordinates and its strips, each at the front of its slice. Of a refused file
// nothing is written.
pub fn register_read(
    file: &[u8],
    layers: &mut [Layer],
    coords: &mut [i32],
    strips: &mut [u8],
) -> FileAnswer
    ensures { FileShown file.now layers.old coords.old strips.old layers.new coords.new strips.new result }
{
    FileAnswer::from(register::read(file, layers, coords, strips))
}

// What the listing program prints for a text, at the front of `out`.
pub fn register_listing(text: &[u8], out: &mut [u8]) -> BytesAnswer
    ensures { Shows (ListingAnswer text.now out.old out.new) written_as result }
{
    BytesAnswer::from(listing::listing(text, out))
}

impl From<Result<usize, Refusal>> for BytesAnswer {
    ghost from_gives = { λ x r. r ≡ written_as x };

    fn from(written: Result<usize, Refusal>) -> BytesAnswer {
        match written {
            Ok(bytes) => BytesAnswer {
                status: succeeded(),
                bytes,
            },
            Err(refusal) => BytesAnswer {
                status: Status::from(refusal),
                bytes: 0,
            },
        }
    }
}

impl From<Result<FileRead, Refusal>> for FileAnswer {
    ghost from_gives = { λ x r. r ≡ read_as x };

    fn from(read: Result<FileRead, Refusal>) -> FileAnswer {
        match read {
            Ok(
                FileRead {
                    layers,
                    points,
                    steps,
                },
            ) => FileAnswer {
                status: succeeded(),
                layers,
                points,
                steps,
            },
            Err(refusal) => FileAnswer {
                status: Status::from(refusal),
                layers: 0,
                points: 0,
                steps: 0,
            },
        }
    }
}
