// Numbers and layers read from contents. A byte past the end is 0, so no count leads out of bounds.
ghost use Rattle.std.specs.Prelude.{◌≡◌, ℕ, ◌^◌, ◌+◌, ◌*◌, ◌≤◌, ◌<◌, get_or, drop};
ghost use Rattle.register.specs.Decoding.{two_of, number, layer_here, place_of};

use stack::Layer;

// `N` bytes, from `at` on. (As `array::from_fn`, what the closure answers is left open.)
fn bytes_at<const N: usize>(list: &[u8], at: usize) -> [u8; N]
    requires { at + N < 2 ^ 64 }
    ensures { (k : ℕ) → k < N → get_or result k 0 ≡ get_or list.now (at + k) 0 }
{
    let mut bytes = [0; N];
    for k in 0..N {
        bytes[k] = list.get(at + k).copied().unwrap_or(0);
    }
    bytes
}

// Two bytes, low first.
pub(crate) fn two_at(list: &[u8], at: usize) -> usize
    requires { at ≤ 16777216 }
    ensures { (result ≡ two_of (drop at list.now)) × (result < 65536) }
{
    usize::from(u16::from_le_bytes(bytes_at(list, at)))
}

// A coordinate or a plane: four bytes, low first.
pub(crate) fn number_at(list: &[u8], at: usize) -> i32
    requires { at ≤ 16777212 }
    ensures { result ≡ number (drop at list.now) }
{
    i32::from_le_bytes(bytes_at(list, at))
}

// Layer `k`, before which `first` points stand.
pub(crate) fn layer_here(contents: &[u8], k: usize, first: usize) -> Layer
    requires { (k ≤ 20) × (first ≤ 65535 * k) }
    ensures { (result ≡ layer_here first (drop (place_of k first) contents.now)) × (result.count < 65536) }
{
    let at = 2 + 6 * k + 8 * first;
    Layer {
        plane: number_at(contents, at),
        first,
        count: two_at(contents, at + 4),
    }
}
