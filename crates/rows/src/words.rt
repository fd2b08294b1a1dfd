// A command of the text: its words, with a space between each two. Every word is a number.
//
// A number has decimal digits, with a minus sign or without. A name is read in the same way, each of its bytes less 48 as a digit, so
// that each name has a number of its own: `keep` is 59·1000 + 53·100 + 53·10 + 64 = 64,894.

#[derive(Clone, Copy)]
pub(crate) struct Words<'a> {
    pub(crate) text: &'a [u8],
}

impl<'a> Words<'a> {
    // The number of its name, which is the first word but for zeros; 0 if there is none.
    pub(crate) fn name(self) -> usize {
        self.text
            .split(|byte| *byte == b' ')
            .map(number)
            .find(|name| *name != 0)
            .unwrap_or(0)
    }

    // The last words, of which the name may be one. A word that is missing is 0.
    pub(crate) fn numbers<const N: usize>(self) -> [usize; N] {
        let mut numbers = [0; N];
        let words = self.text.rsplit(|byte| *byte == b' ');
        for (place, word) in numbers.iter_mut().rev().zip(words) {
            *place = number(word);
        }
        numbers
    }
}

// A minus sign may stand anywhere in a word. A number below zero is kept by its bits.
pub(crate) fn number(word: &[u8]) -> usize {
    let size = word
        .iter()
        .filter(|byte| **byte != b'-')
        .fold(0, |size, byte| shifted(size, byte.wrapping_sub(b'0')));
    if word.contains(&b'-') {
        size.wrapping_neg()
    } else {
        size
    }
}

// One digit more. What would go past the end of the type is left out.
fn shifted(size: usize, digit: u8) -> usize {
    size.checked_mul(10)
        .map_or(size, |tens| tens.wrapping_add(usize::from(digit)))
}

// The number that has these bits; 0 outside the range of its type.
pub(crate) fn signed(bits: usize) -> i32 {
    i32::try_from(bits.cast_signed()).unwrap_or(0)
}
