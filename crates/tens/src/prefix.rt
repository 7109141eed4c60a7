// The first digits of a decimal fraction, and what they make of it in a format: S's way, 27 digits and one division.
ghost use Rattle.std.specs.Prelude.{◌≡◌, ◌++◌, ◌^◌, ◌≤◌, ◌<◌, drop, replicate};
ghost use Rattle.wide.specs.Meaning.{value_of};
ghost use Rattle.tens.specs.Prefix.{first_raw, lead_of};
ghost use Rattle.tens.specs.Digits.{Small};
ghost use Rattle.fold.specs.Body.{digits_left};

use crate::Fraction;
use fold::body::Digits;
use wide::Wide;

// 2 x 5^27: 10^27 without 26 of its factors of two.
const DIVISOR: u64 = 14901161193847656250;

// The next `count` digits as one number, with zeros after the last: what a word holds of them.
fn group(digits: &mut Digits<'_>, count: u32) -> u64
    requires { (count ≤ 19) × Small (digits_left digits.old) }
    ensures value { result ≡ lead_of count (digits_left digits.old) }
    ensures rest { digits_left digits.new ≡ drop count (digits_left digits.old) }
{
    let mut value: u64 = 0;
    for _ in 0..count {
        value = value * 10 + digits.next().unwrap_or(0);
    }
    value
}

// The whole part of val / 10^27 times 2^frac.
// Its digits are one number by now: no method of `Fraction`, so what that knows of frac is a clause here.
fn first_raw(val: Wide, frac: u32) -> u64
    requires { (value_of val < 10 ^ 27) × (frac ≤ 64) }
    ensures { result ≡ first_raw frac (value_of val) }
{
    if frac < 26 {
        let less = wide::div(wide::shr(val, 26 - frac), DIVISOR);
        return less.quotient.low;
    }
    let more = wide::div(wide::shl(val, frac - 26), DIVISOR);
    more.quotient.low
}

impl<'a> Fraction<'a> {
    // The first 27 digits after the point.
    fn lead(&self) -> Wide
        ensures { value_of result ≡ lead_of 27 (replicate self.now.zeros 0 ++ digits_left self.now.digits) }
    {
        let mut digits = self.digits;
        let upper = group(&mut digits, 19 - self.zeros);
        let lower = group(&mut digits, 8);
        wide::add(wide::mul(upper, 100000000), lower.into())
    }

    // What the first 27 digits make of the fraction times 2^frac.
    pub(crate) fn first(&self) -> u64
        ensures { result ≡ first_raw self.now.frac
            (lead_of 27 (replicate self.now.zeros 0 ++ digits_left self.now.digits)) }
    {
        first_raw(self.lead(), self.frac)
    }
}
