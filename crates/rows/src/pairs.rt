// `pairs M N`: 2,000 pairs of M and N points, drawn with numbers from -3 to 3 or from -1 to 1: many ties, many traces that cross
// themselves, flat ones, turned ones. Each answer, and every byte that was lent, after each call, is folded into one sum. A second program,
// tests/second/second.c, draws the same pairs and folds what must come by a second implementation of 01, in another language and with no
// line in common; so an answer, a place or a lent byte that differs shows as another sum.
//
// A pair is put through this: both traces judged, the first best strip with a byte too few and with enough, then each next one until none
// is left, and the first twelve as one list; where it is accepted, every row of bytes 0 and 1 of the right length is offered as a strip.
use crate::drawn::{another, fill};
use crate::lists::{lend, part};
use crate::sums::Sum;
use fault::Refusal;
use std::io;
use std::io::Write;

// The sum, how many pairs were refused, how many best strips were listed, and how many strips the last accepted pair has.
#[derive(Clone, Copy, Default)]
struct Row {
    sum: Sum,
    refused: usize,
    listed: usize,
    strips: usize,
}

pub(crate) fn pairs(out: &mut impl Write, [m, n]: [usize; 2]) -> io::Result<()> {
    let mut row = Row::default();
    let mut seed = (m % 10 + 10 * (n % 10)) as u64;
    for _ in 0..2_000 {
        row.pair(m, n, seed);
        seed = another(seed);
    }
    let sum = row.sum;
    write!(
        out,
        " {} {} {} {}",
        row.strips, row.refused, row.listed, sum.0
    )
}

impl Row {
    // The pair that a seed gives.
    fn pair(&mut self, m: usize, n: usize, seed: u64) {
        let mut coords = [0i32; 24];
        fill(&mut coords, seed, 1 + 2 * (seed % 2));
        let middle = m.wrapping_mul(2);
        let end = middle.wrapping_add(n.wrapping_mul(2));
        let a = part(&coords, 0, middle);
        let b = part(&coords, middle, end);
        self.judged(a);
        self.judged(b);
        let steps = m.wrapping_add(n);
        if self.found(a, b, steps) {
            self.all_offered(a, b, steps);
        }
    }

    fn judged(&mut self, c: &[i32]) {
        self.sum = match trace::judge(c) {
            Ok(fit) => self.sum.number(0).signed(fit.area).number(fit.count as u64),
            Err(fault) => self.sum.number(u64::from(u8::from(fault))),
        };
    }

    // With a byte too few, and with enough. Whether the pair was accepted.
    fn found(&mut self, a: &[i32], b: &[i32], steps: usize) -> bool {
        let mut strip = [9u8; 16];
        let mut work = [9u8; 64];
        let mut lines = [9u8; 150];
        self.best(a, b, lend(&mut strip, steps.wrapping_sub(1)), &mut work);
        self.best(a, b, &mut strip, &mut work);
        let accepted = self.listed(a, b, &mut strip, &mut work);
        self.list_best(a, b, &mut lines, &mut work);
        accepted
    }

    fn best(&mut self, a: &[i32], b: &[i32], strip: &mut [u8], work: &mut [u8]) {
        let said = match joining::best(a, b, strip, work) {
            Ok(value) => self.sum.number(0).signed(value),
            Err(refusal) => self.sum.refusal(refusal),
        };
        self.sum = said.bytes(strip).bytes(work);
    }

    fn next(
        &mut self,
        a: &[i32],
        b: &[i32],
        strip: &mut [u8],
        work: &mut [u8],
    ) -> Result<Option<i64>, Refusal> {
        let answer = joining::next(a, b, strip, work);
        let said = match answer {
            Ok(Some(value)) => self.sum.number(0).signed(value),
            Ok(None) => self.sum.number(100),
            Err(refusal) => self.sum.refusal(refusal),
        };
        self.sum = said.bytes(strip).bytes(work);
        answer
    }

    // From the first best strip until none is left; no pair tried here has so many. Whether the pair was accepted.
    fn listed(&mut self, a: &[i32], b: &[i32], strip: &mut [u8], work: &mut [u8]) -> bool {
        for many in 1..5_001 {
            match self.next(a, b, strip, work) {
                Ok(Some(_)) => {}
                Ok(None) => {
                    self.listed = self.listed.saturating_add(many);
                    return true;
                }
                Err(_) => {
                    self.refused = self.refused.saturating_add(1);
                    return false;
                }
            }
        }
        false
    }

    // The first twelve.
    fn list_best(&mut self, a: &[i32], b: &[i32], lines: &mut [u8], work: &mut [u8]) {
        let said = match joining::list_best(a, b, lines, work, 12) {
            Ok(run) => {
                let told = self
                    .sum
                    .number(0)
                    .signed(run.value)
                    .number(run.count as u64);
                if run.more { told.number(1) } else { told }
            }
            Err(refusal) => self.sum.refusal(refusal),
        };
        self.sum = said.bytes(lines).bytes(work);
    }

    // Every number's binary digits, the lowest first, as far as all of them have room; those that are accepted are counted.
    fn all_offered(&mut self, a: &[i32], b: &[i32], steps: usize) {
        let mut digits = [0u8; 12];
        let strip = lend(&mut digits, steps);
        self.strips = 0;
        for number in 0..4_096 {
            if spell(number, strip) != 0 {
                return;
            }
            match strip::judge_strip(a, b, strip) {
                Ok(value) => {
                    self.sum = self.sum.signed(value);
                    self.strips = self.strips.saturating_add(1);
                }
                Err(refusal) => {
                    self.sum = self.sum.refusal(refusal);
                }
            }
        }
    }
}

// What is left of the number is answered.
fn spell(number: usize, digits: &mut [u8]) -> usize {
    let mut rest = number;
    for digit in digits {
        *digit = (rest % 2) as u8;
        rest /= 2;
    }
    rest
}
