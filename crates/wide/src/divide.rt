// Two words divided by one: long division by hand, with half words as digits.
ghost use Rattle.std.specs.Prelude.{◌≡◌, ◌+◌, ◌*◌, ◌^◌, ◌<◌, ◌≤◌};
ghost use Rattle.wide.specs.Step.{division_step};

use super::Wide;

// A half word is a digit, and this is their base.
const BASE: u64 = 0x1_0000_0000;

// The bits of the lower half of a word.
const HALF: u64 = 0xffff_ffff;

// A quotient of one word, and what the division leaves.
#[derive(Clone, Copy)]
pub(crate) struct Step {
    pub quotient: u64,
    pub rest: u64,
}

// One word by d, with no division where the quotient is 0.
pub(crate) fn word(x: u64, d: u64) -> Step
    requires { 0 < d }
    ensures { result ≡ division_step x d }
{
    if x < d {
        return Step {
            quotient: 0,
            rest: x,
        };
    }
    Step {
        quotient: x / d,
        rest: x % d,
    }
}

// One digit of a quotient, for a divisor with its top bit set. The upper half of d alone gives a guess,
// which is the digit or up to two above it. `there` is what the guess leaves, and `back` the guess times the
// half of d that it forgot, which is to be taken from that. Where there is too little, the guess was too
// high, and each d that is given back makes it one less.
fn digit(high: u64, low: u64, d: u64) -> Step
    requires { (2 ^ 63 ≤ d) × (high < d) × (low < 2 ^ 32) }
    ensures { result ≡ division_step (high * 2 ^ 32 + low) d }
{
    let guess = high / (d >> 32);
    let there = (high % (d >> 32)) * BASE + low;
    let back = guess * (d & HALF);
    if back <= there {
        return Step {
            quotient: guess,
            rest: there - back,
        };
    }
    let over = back - there;
    if over <= d {
        return Step {
            quotient: guess - 1,
            rest: d - over,
        };
    }
    Step {
        quotient: guess - 2,
        rest: d - (over - d),
    }
}

// A number of two words by d, for an upper word below d, so that the quotient is one word. Both are shifted until d has
// its top bit set, which leaves the quotient as it is; the rest is shifted back.
pub(crate) fn words(high: u64, low: u64, d: u64) -> Step
    requires { high < d }
    ensures { result ≡ division_step (high * 2 ^ 64 + low) d }
{
    let k = d.leading_zeros();
    let by = super::shl_word(d, k);
    let x = super::shl(Wide { high, low }, k);
    let first = digit(x.high, x.low >> 32, by);
    let second = digit(first.rest, x.low & HALF, by);
    Step {
        quotient: first.quotient * BASE + second.quotient,
        rest: second.rest >> k,
    }
}
