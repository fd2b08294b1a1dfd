// Numbers and bytes folded into a sum: each next number is added to 1,000,003 times the sum, of which the remainder by a prime is kept.
use fault::Refusal;

const PRIME: u64 = 1_000_000_000_039;

#[derive(Clone, Copy, Default)]
pub(crate) struct Sum(pub(crate) u64);

impl Sum {
    pub(crate) fn number(self, n: u64) -> Sum {
        Sum(((self.0 % PRIME) * 1_000_003 + n % PRIME) % PRIME)
    }

    // A number below zero is a 1 and what the opposites of its bits say.
    pub(crate) fn signed(self, v: i64) -> Sum {
        if v < 0 {
            self.number(1).number((!v).cast_unsigned())
        } else {
            self.number(v.cast_unsigned())
        }
    }

    pub(crate) fn refusal(self, refusal: Refusal) -> Sum {
        self.number(u64::from(u8::from(refusal.fault)))
            .number(refusal.place as u64)
    }

    pub(crate) fn bytes(self, list: &[u8]) -> Sum {
        list.iter()
            .fold(self, |sum, byte| sum.number(u64::from(*byte)))
    }
}
