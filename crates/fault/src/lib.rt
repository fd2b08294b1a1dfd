// The refusals by name, with 01's number for each ("What comes back"), and what every refusal is: a fault and a place.
#![tactic(auto)]

ghost use Rattle.std.specs.Prelude.{◌≡◌, Some};
ghost use Rattle.fault.specs.Gates.{at};
ghost use Rattle.fault.specs.Number.{number_of};
ghost use Rattle.fault.specs.Printed.{printed};
ghost use Rattle.fault.specs.Status.{success, none_left, status_of};

use std::error::Error;
use std::fmt;

#[derive(Clone, Copy, Debug, PartialEq, Eq)]
pub enum Fault {
    // odd number of coordinates
    Shape,
    // under 3 points
    Few,
    // over 250
    Many,
    // a coordinate outside its range
    Range,
    // equal neighbours
    Twin,
    // twice the area is 0 or less
    Turn,
    // a plane outside its range, or not above the one below
    Planes,
    // some lent slice is too short
    Room,
    // a step byte over 1, or not m steps A and n steps B
    Strip,
    // a strip, of less than the greatest value
    Below,
    // not 2 to 20 layers
    Layers,
    // an entry breaks the stack rule
    Span,
    // the program's input can't be read as stated
    Text,
    // file length 0, not whole blocks, or over 98
    Block,
    // a block's check or its two zero bytes are wrong
    Check,
    // contents run past the blocks, or need fewer, or the filler isn't zero
    Content,
}

// "Each refusal returns number and place only."
#[derive(Clone, Copy, Debug, PartialEq, Eq)]
pub struct Refusal {
    pub fault: Fault,
    pub place: usize,
}

// What an answer tells of itself, whoever asked: 0 for success, 100 for "none left", else the number of a refusal; and the place.
#[repr(C)]
#[derive(Clone, Copy, Debug, PartialEq, Eq)]
pub struct Status {
    pub number: u8,
    pub place: usize,
}

// Every refusal is made here.
pub fn refuse(fault: Fault, place: usize) -> Refusal
    ensures { result ≡ at fault place }
{
    Refusal { fault, place }
}

pub fn succeeded() -> Status
    ensures { result ≡ success }
{
    Status {
        number: 0,
        place: 0,
    }
}

pub fn none_left() -> Status
    ensures { result ≡ none_left }
{
    Status {
        number: 100,
        place: 0,
    }
}

impl From<Refusal> for Status {
    ghost from_gives = { λ r s. s ≡ status_of r };

    fn from(refusal: Refusal) -> Status {
        Status {
            number: u8::from(refusal.fault),
            place: refusal.place,
        }
    }
}

// The line that a program prints of a refusal.
impl fmt::Display for Refusal {
    ghost output = { λ r. Some (printed r) };

    fn fmt<W: fmt::Write>(&self, f: &mut fmt::Formatter<W>) -> fmt::Result {
        let number = u8::from(self.fault);
        let place = self.place;
        write!(f, "refused {number} {place}")
    }
}

impl Error for Refusal {}

// 01's number of a fault.
impl From<Fault> for u8 {
    ghost from_gives = { λ f n. n ≡ number_of f };

    fn from(fault: Fault) -> u8 {
        match fault {
            Fault::Shape => 1,
            Fault::Few => 2,
            Fault::Many => 3,
            Fault::Range => 4,
            Fault::Twin => 5,
            Fault::Turn => 6,
            Fault::Planes => 7,
            Fault::Room => 8,
            Fault::Strip => 9,
            Fault::Below => 10,
            Fault::Layers => 11,
            Fault::Span => 12,
            Fault::Text => 13,
            Fault::Block => 14,
            Fault::Check => 15,
            Fault::Content => 16,
        }
    }
}
