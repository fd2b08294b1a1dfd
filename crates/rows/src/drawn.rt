// Numbers that look random, and traces of them.

// The next of a row of numbers that look random, below 2^31.
pub(crate) fn another(seed: u64) -> u64 {
    ((seed % 2_147_483_648) * 1_103_515_245 + 12_345) % 2_147_483_648
}

// From -`most` to `most`.
fn around_zero(n: u64, most: u64) -> i32 {
    let far = most % 1_000;
    (n % (2 * far + 1)) as i32 - far as i32
}

pub(crate) fn fill(coords: &mut [i32], seed: u64, most: u64) {
    let mut next = seed;
    for number in coords {
        next = another(next);
        *number = around_zero(next / 65_536, most);
    }
}
