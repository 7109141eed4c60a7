// Which side of the middle between two raws a decimal fraction lies on, digit by digit.
ghost use Rattle.std.specs.Prelude.{◌≡◌, ◌++◌, ◌+◌, ◌-◌, ◌*◌, ◌^◌, ◌≤◌, ◌<◌, replicate};
ghost use Rattle.wide.specs.Meaning.{value_of, Words};
ghost use Rattle.tens.specs.Order.{sink_of, order_ten};
ghost use Rattle.fold.specs.Body.{digits_left};

use crate::Fraction;
use fold::body::Digits;
use std::cmp::Ordering;
use wide::Wide;

// The middle above q, (2 q + 1) / 2^(frac + 1), as the comparison starts: ten times it, in units of 2^-64.
// It asks for q and frac and no digits: no method of `Fraction`, so what that knows of frac is a clause here.
fn middle(q: u64, frac: u32) -> Wide
    requires { (frac ≤ 64) × (q < 2 ^ frac) }
    ensures { value_of result ≡ (q * 10 + 5) * 2 ^ (64 - frac) }
{
    let ten = wide::add(wide::mul(q, 10), Wide::from(5u64));
    wide::shl(ten, 64 - frac)
}

// The zeros in front of the digits: each takes ten times the rest. Where that
// reaches ten times the unit, every digit is below it.
fn sink(start: Wide, zeros: u32) -> Wide
    ensures { value_of result ≡ sink_of zeros (value_of start) (2 ^ 64) }
{
    let mut rest = start;
    for _ in 0..zeros {
        if 0 < rest.high {
            return Wide { high: 10, low: 0 };
        }
        rest = wide::mul(rest.low, 10);
    }
    rest
}

// The digits against the middle: each against the whole part of what is left of ten times it.
fn walk(digits: Digits<'_>, start: Wide) -> Ordering
    requires { Words start }
    ensures { result ≡ order_ten (digits_left digits.entry) (value_of start) (2 ^ 64) }
{
    let mut rest = start;
    for digit in digits {
        if digit != rest.high {
            return digit.cmp(&rest.high);
        }
        rest = wide::mul(rest.low, 10);
    }
    // no digit is left: 0 against what is left of the middle
    0.cmp(&u128::from(rest))
}

impl<'a> Fraction<'a> {
    // The side of the middle above q that the fraction lies on.
    pub(crate) fn side(&self, q: u64) -> Ordering
        requires { q < 2 ^ self.now.frac }
        ensures { result ≡ order_ten (replicate self.now.zeros 0 ++ digits_left self.now.digits)
            ((q * 10 + 5) * 2 ^ (64 - self.now.frac)) (2 ^ 64) }
    {
        walk(self.digits, sink(middle(q, self.frac), self.zeros))
    }
}
