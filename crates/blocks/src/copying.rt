// What opening and sealing share: a block's contents copied.
ghost use Rattle.std.specs.Prelude.{◌≤◌, length, take, drop};
ghost use Rattle.blocks.specs.Blocks.{padded};
ghost use Rattle.whole.specs.Filled.{Filled};

// The 508 bytes from `at` on, zeros past the end, at the front of `out`; the rest of it stays.
pub(crate) fn copy(list: &[u8], at: usize, out: &mut [u8])
    requires { (at ≤ 50176) × (508 ≤ length out.old) }
    ensures { Filled (padded (take 508 (drop at list.now))) out.old out.new }
{
    for k in 0..508 {
        out[k] = list.get(at + k).copied().unwrap_or(0);
    }
}
