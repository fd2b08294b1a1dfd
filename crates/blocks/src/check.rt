// The check of a block's contents.
ghost use Rattle.std.specs.Prelude.{◌≡◌, [], ◌∷◌, ◌++◌, ◌+◌, ◌*◌, ◌%◌, ◌≤◌, ◌<◌, length};
ghost use Rattle.blocks.specs.Blocks.{check_of, two};

// The check of block `b` with these contents.
pub(crate) fn check(contents: &[u8], b: usize) -> usize
    requires { (length contents.now ≤ 508) × (b < 98) }
    ensures { result ≡ check_of b contents.now }
{
    let mut sum = b + 1;
    for (k, byte) in contents.iter().enumerate() {
        sum = added(sum, k, *byte);
    }
    sum
}

// Byte `k` added to a remainder.
fn added(sum: usize, k: usize, byte: u8) -> usize
    requires { (sum < 65521) × (k < 508) }
    ensures { result ≡ (sum + (k + 1) * byte) % 65521 }
{
    (sum + (k + 1) * usize::from(byte)) % 65_521
}

// What stands behind the contents of a block whose check is `sum`: two bytes, low first, and two zeros.
pub(crate) fn behind(sum: usize) -> [u8; 4]
    requires { sum < 65521 }
    ensures { result ≡ two sum ++ 0 ∷ 0 ∷ [] }
{
    let [low, high] = (sum as u16).to_le_bytes();
    [low, high, 0, 0]
}
