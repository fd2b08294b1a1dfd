// Reading as much as there is room for.
#![tactic(auto)]

ghost use Rattle.std.specs.Prelude.{◌≡◌, ℕ, ◌≤◌, ◌<◌, length, take, IfOk, OnErr};
ghost use Rattle.std.specs.Io.KnownBytes.{Consumes, IsAtEnd};

use std::io;
use std::io::Read;

// Reads until the list is full or a read gives no byte, and answers how many bytes stand at the front of the list. Where a read fails, those
// that were read before it stand there.
pub fn read_full<R: Read>(input: &mut R, list: &mut [u8]) -> io::Result<usize>
    ensures same_length { length list.new ≡ length list.old }
    ensures within { IfOk result (λ n. n ≤ length list.new) }
    ensures bytes { IfOk result (λ n. Consumes (R.remaining input.old) (R.remaining input.new) (take n list.new)) }
    ensures full { IfOk result (λ n. n < length list.new → IsAtEnd (R.remaining input.new)) }
    ensures none_lost { OnErr result ((n : ℕ) × (n ≤ length list.new)
        × Consumes (R.remaining input.old) (R.remaining input.new) (take n list.new)) }
{
    // Each turn says how far it went, so no range and no iterator counts here.
    let mut done = 0;
    while done < list.len() {
        match input.read(&mut list[done..]) {
            Ok(0) => return Ok(done),
            Ok(count) => done += count,
            Err(failed) => return Err(failed),
        }
    }
    Ok(done)
}
