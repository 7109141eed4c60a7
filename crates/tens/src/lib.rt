// The raw of a decimal number: the digits before the point exactly, those after it rounded by the first 27 and one
// comparison. An inner function of the readers.
#![tactic(auto)]

ghost use Rattle.std.specs.Prelude.{◌≡◌, ℕ, ◌+◌, ◌*◌, ◌^◌, ◌≤◌, ◌<◌, length, replicate};
ghost use mathlib.Core.List.{◌++◌, Memᴰ};
ghost use Rattle.laws.specs.Nearest.{nearest_even};
ghost use Rattle.grammar.specs.Meaning.{raw_of, text_limit};
ghost use Rattle.grammar.specs.Naturals.{nat_of};
ghost use Rattle.fold.specs.Fold.{fold_of, folded_value};
ghost use Rattle.grammar.specs.Run.{body_of};
ghost use Rattle.fold.specs.Body.{digits_left};
ghost use Rattle.tens.specs.Digits.{IsDecimal, IsFraction};
ghost use Rattle.tens.specs.Point.{decimal};
ghost use Rattle.tens.specs.Tens.{beside_of};

use fold::Folded;
use fold::body::Digits;

mod order;
mod prefix;

// Zeros in front of the digits from which on a fraction is less than half a step of every format.
const NO_MORE: u64 = 20;

// Places from which on a power of ten is a whole number of 2^64.
const ALL_TURNS: u64 = 64;

// The raw of the number with these digits, `after` of them after the point, times ten to the exponent. The readers hand
// over what the scanner counted, and a format's fraction bits: the promise is over these numbers, `down` and `exp`
// apart as in `scan::Parsed`.
pub fn tens(body: &[u8], n: usize, after: usize, down: bool, exp: u64, frac: u32) -> Folded
    requires { (n ≡ length (body_of body.now)) × (after ≤ n) × ((d : ℕ) → Memᴰ d (body_of body.now) → d < 10)
        × (exp ≤ 2147483648) × (frac ≤ 64) × (length body.now ≤ text_limit) }
    ensures { result ≡ fold_of (raw_of 10 frac (decimal (body_of body.now) after down exp)) }
{
    let number = Number {
        digits: Digits::of(body),
        count: n,
        frac,
    };
    let places = after as u64;
    if down {
        return number.below(places + exp);
    }
    if places <= exp {
        return number.past(exp - places);
    }
    number.below(places - exp)
}

// A number by its digits, how many they are, and the fraction bits that it is asked for with.
#[derive(Clone, Copy)]
struct Number<'a> {
    digits: Digits<'a>,
    count: usize,
    frac: u32,
    ghost decimal: { IsDecimal (digits_left digits) count frac },
}

impl<'a> Number<'a> {
    // The point stands after all digits, with zeros between.
    fn past(&self, zeros: u64) -> Folded
        ensures { result ≡ fold_of
            (nat_of 10 (digits_left self.now.digits) * 10 ^ zeros * 2 ^ self.now.frac) }
    {
        let mut digits = self.digits;
        let all = digits.number(self.count, 10);
        lifted(all, zeros).scaled(u64::from(self.frac))
    }

    // The last `places` digits stand after the point, with zeros before them where there are fewer.
    fn below(&self, places: u64) -> Folded
        ensures { result ≡ fold_of
            (nearest_even (nat_of 10 (digits_left self.now.digits) * 2 ^ self.now.frac) (10 ^ places)) }
    {
        let mut digits = self.digits;
        let all = self.count as u64;
        if places <= all {
            let whole = digits.number(self.count - places as usize, 10);
            let fraction = Fraction {
                digits,
                zeros: 0,
                frac: self.frac,
            };
            return fraction.beside(whole);
        }
        let zeros = places - all;
        if NO_MORE <= zeros {
            return Folded::from(0);
        }
        let fraction = Fraction {
            digits,
            zeros: zeros as u32,
            frac: self.frac,
        };
        fraction.beside(Folded::from(0))
    }
}

// x * 10^zeros, whatever the number of zeros.
fn lifted(x: Folded, zeros: u64) -> Folded
    requires { x ≡ fold_of (folded_value x) }
    ensures { result ≡ fold_of (folded_value x * 10 ^ zeros) }
{
    if ALL_TURNS <= zeros {
        return x.scaled(ALL_TURNS);
    }
    let mut number = x;
    for _ in 0..zeros {
        number = number.times(10, 0);
    }
    number
}

// A decimal fraction: zeros, and then the digits that are left.
#[derive(Clone, Copy)]
struct Fraction<'a> {
    digits: Digits<'a>,
    zeros: u32,
    frac: u32,
    ghost decimal: { IsFraction (digits_left digits) zeros frac },
}

impl<'a> Fraction<'a> {
    // A whole number and the fraction beside it. The sum's last bit decides a tie.
    fn beside(&self, whole: Folded) -> Folded
        ensures { result ≡ fold_of (beside_of (folded_value whole)
            (replicate self.now.zeros 0 ++ digits_left self.now.digits) self.now.frac) }
    {
        let q = self.first();
        let side = self.side(q);
        let sum = whole.scaled(u64::from(self.frac)).plus(q);
        sum.rounded(side)
    }
}
