// Reading in radix 2, 8 and 16, where a digit is a whole number of bits: the digits are cut at the bit that the format
// and the exponent ask for, and no exponent is ever expanded. An inner function of the readers.
#![tactic(auto)]

ghost use Rattle.std.specs.Prelude.{◌≡◌, ◌+◌, ◌-◌, ◌*◌, ◌%◌, ◌^◌, ◌<◌, ◌≤◌};
ghost use Rattle.laws.specs.Nearest.{nearest_even};
ghost use Rattle.grammar.specs.Meaning.{raw_of};
ghost use Rattle.fold.specs.Fold.{fold_of};
ghost use Rattle.fold.specs.Body.{as_written, digits_left};
ghost use Rattle.bits.specs.Cut.{WholeBits, bits_number, cut_of};
ghost use Rattle.bits.specs.Bits.{Legal, Power};

use fold::Folded;
use fold::body::Digits;
use std::cmp::Ordering;

// The raw of a text that the scan accepted, whose digits stand in `body`: n of them, `after` of them after the point.
// n is a number of its own: `body` has gaps too, and the readers hand over what the scanner counted. Eight parameters,
// since the promise is over these: what `as_written` and `raw_of` take, `down` and `exp` apart as in `scan::Parsed`.
pub fn bits(
    body: &[u8],
    n: usize,
    after: usize,
    radix: u32,
    base: u32,
    down: bool,
    exp: u64,
    frac: u32,
) -> Folded
    requires { Legal body.now n after radix base exp frac }
    ensures { result ≡ fold_of (raw_of radix frac (as_written body.now after base down exp)) }
{
    let width = log2(radix);
    let number = Number {
        digits: Digits::of(body),
        count: n,
        width,
    };
    let places = width * (after as u64);
    let step = log2(base) * exp;
    if down {
        return number.scaled(u64::from(frac), places + step);
    }
    number.scaled(u64::from(frac) + step, places)
}

// Of 1, 2, 8 and 16.
fn log2(power: u32) -> u64
    requires { Power power }
    ensures { (power ≡ 2 ^ result) × (result ≤ 4) }
{
    u64::from(power.ilog2())
}

// 2^k in one word.
fn power(k: u64) -> u64
    requires { k < 64 }
    ensures { result ≡ 2 ^ k }
{
    1 << k
}

// A number by its digits, each of `width` bits, and how many they are.
#[derive(Clone, Copy)]
struct Number<'a> {
    digits: Digits<'a>,
    count: usize,
    width: u64,
    ghost whole: { WholeBits (digits_left digits) count width },
}

impl<'a> Number<'a> {
    // The number times 2^up over 2^down, rounded. Digits are cut only if more bits go than come.
    fn scaled(&self, up: u64, down: u64) -> Folded
        ensures { result ≡ fold_of
            (nearest_even (bits_number (digits_left self.now.digits) self.now.width * 2 ^ up) (2 ^ down)) }
    {
        if down <= up {
            let mut digits = self.digits;
            return digits
                .number(self.count, power(self.width))
                .scaled(up - down);
        }
        self.part(down - up)
    }

    // The number over 2^s, rounded. The cut leaves whole digits behind it, and 1 to `width` bits of the digit
    // before those.
    fn part(&self, s: u64) -> Folded
        requires { 0 < s }
        ensures { result ≡ fold_of (nearest_even (bits_number (digits_left self.now.digits) self.now.width) (2 ^ s)) }
    {
        let low = (s - 1) / self.width;
        let c = (s - 1) % self.width + 1;
        if self.count as u64 <= low {
            return Folded::from(0);
        }
        self.cut(self.count - low as usize - 1, c)
    }

    // The cut in the digit number `at`, with c of its bits behind it.
    fn cut(&self, at: usize, c: u64) -> Folded
        requires { (at < self.now.count) × (1 ≤ c) × (c ≤ self.now.width) }
        ensures { result ≡ fold_of (nearest_even (bits_number (digits_left self.now.digits) self.now.width)
            (2 ^ (self.now.width * (self.now.count - at - 1) + c))) }
    {
        let mut digits = self.digits;
        let head = digits.number(at, power(self.width));
        let digit = digits.next().unwrap_or(0);
        let rest = digits.any_nonzero();
        let whole = head.times(power(self.width - c), digit >> c);
        whole.rounded(half(digit, c, rest))
    }
}

// How c bits of a digit, and what comes after them, compare with one half. Where the bits are one half, any digit
// after them that is not 0 makes more of it.
fn half(digit: u64, c: u64, rest: bool) -> Ordering
    requires { (1 ≤ c) × (c ≤ 4) }
    ensures { result ≡ cut_of (digit % 2 ^ c) (2 ^ (c - 1)) rest }
{
    let bits = digit % power(c);
    let after = if rest {
        Ordering::Greater
    } else {
        Ordering::Equal
    };
    bits.cmp(&power(c - 1)).then(after)
}
