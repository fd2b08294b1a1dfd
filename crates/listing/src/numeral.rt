// A word read as a whole number.
ghost use Rattle.std.specs.Prelude.{◌≡◌, ◌≤◌, ◌<◌, ◌+◌, ◌-◌, ◌*◌, ℕ, true, Some, MatchOption};
ghost use Rattle.listing.specs.Numeral.{digit, natural, numeral};

// The amount with one digit more behind it, if the byte is a digit and the amount fits.
fn with_digit(amount: u32, byte: u8) -> Option<u32>
    ensures { MatchOption result (digit byte ≡ true → 4294967296 ≤ amount * 10 + (byte - 48))
        (λ v. (digit byte ≡ true) × (v ≡ amount * 10 + (byte - 48))) }
{
    if !byte.is_ascii_digit() {
        return None;
    }
    amount.checked_mul(10)?.checked_add(u32::from(byte - b'0'))
}

// What decimal digits say. None if there is no digit or another byte, and none from 2^32 on: no number in range is that great.
fn natural(digits: &[u8]) -> Option<u32>
    ensures { MatchOption result ((v : ℕ) → natural digits.now ≡ Some v → 4294967296 ≤ v) (λ v. natural digits.now ≡ Some v) }
{
    if digits.is_empty() {
        return None;
    }
    let mut amount = 0;
    for byte in digits {
        amount = with_digit(amount, *byte)?;
    }
    Some(amount)
}

// Digits, behind one minus sign or none, of a number from -2,147,483,648 to 2,147,483,647.
pub(crate) fn numeral(word: &[u8]) -> Option<i32>
    ensures { result ≡ numeral word.now }
{
    match word.strip_prefix(b"-") {
        Some(digits) => 0i32.checked_sub_unsigned(natural(digits)?),
        None => 0i32.checked_add_unsigned(natural(word)?),
    }
}
