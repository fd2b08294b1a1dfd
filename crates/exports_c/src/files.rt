// The entry points for the register file and for the listing.
ghost use Rattle.register.specs.Writing.{WriteAnswer};
ghost use Rattle.listing.specs.Listing.{ListingAnswer};
ghost use Rattle.exports.specs.Shown.{Shows};
ghost use Rattle.exports.specs.Files.{written_as, FileShown};

use exports::files::{self, BytesAnswer, FileAnswer};
use stack::Layer;

// The register file of a stack with its strips, at the front of `out`.
#[unsafe(no_mangle)]
pub extern "C" fn register_write(
    layers: &[Layer],
    coords: &[i32],
    strips: &[u8],
    out: &mut [u8],
) -> BytesAnswer
    ensures { Shows (WriteAnswer layers.now coords.now strips.now out.old out.new)
        written_as result }
{
    files::register_write(layers, coords, strips, out)
}

// A register file, read: the entries of its layers, its coordinates and its strips, each at the front of its slice. Of a refused file
// nothing is written.
#[unsafe(no_mangle)]
pub extern "C" fn register_read(
    file: &[u8],
    layers: &mut [Layer],
    coords: &mut [i32],
    strips: &mut [u8],
) -> FileAnswer
    ensures { FileShown file.now layers.old coords.old strips.old
        layers.new coords.new strips.new result }
{
    files::register_read(file, layers, coords, strips)
}

// What the listing program prints for a text, at the front of `out`.
#[unsafe(no_mangle)]
pub extern "C" fn register_listing(text: &[u8], out: &mut [u8]) -> BytesAnswer
    ensures { Shows (ListingAnswer text.now out.old out.new) written_as result }
{
    files::register_listing(text, out)
}
