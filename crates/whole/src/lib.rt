// The exact leaves on signed words. Each takes every input; its contract speaks of whole numbers, never of bits.
#![tactic(auto)]

ghost use Rattle.std.specs.Prelude.{◌≡◌, pos, ◌*ℤ◌, ◌-ℤ◌};
ghost use Rattle.std.specs.Int.Signed.{quot_z};
ghost use Rattle.whole.specs.Between.{Between};

// ax·by − ay·bx. It is exact for every input: each end of its range is 2^31 short of an i64's.
pub fn cross(ax: i32, ay: i32, bx: i32, by: i32) -> i64
    ensures { result ≡ ax *ℤ by -ℤ ay *ℤ bx }
{
    product(ax, by) - product(ay, bx)
}

// Exact, and within 2^62, so that another product can be taken from it.
fn product(a: i32, b: i32) -> i64
    ensures { (result ≡ a *ℤ b) × Between 4611686016279904256 4611686018427387904 result }
{
    (a as i64) * (b as i64)
}

// Half of `w`, rounded toward zero; of an even number the exact half (`proofs/Halves.antt`).
pub fn half(w: i64) -> i64
    ensures { result ≡ quot_z w (pos 2) }
{
    w / 2
}
