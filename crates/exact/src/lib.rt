// Exact results, once for both signs: an operand is a sign and a word, a result a sign and two words.
#![tactic(auto)]

ghost use Rattle.std.specs.Prelude.{◌≡◌, true, ◌+◌, ◌*◌, ◌^◌, ◌≤◌, ◌<◌, pos, neg_ℤ, ◌+ℤ◌, ◌*ℤ◌};
ghost use Rattle.std.specs.Int.Signed.{quot_z, rem_z};
ghost use Rattle.laws.specs.Floor.{floor as floor_of};
ghost use Rattle.format.specs.Meaning.{with_sign};
ghost use Rattle.wide.specs.Meaning.{value_of};
ghost use Rattle.exact.specs.Meaning.{number_of, exact_of};

pub use format::Exact;
use format::Raw;
use wide::Wide;

pub mod operand;

// An operand: its sign, and its magnitude. The flag is a sign, so this is no Option.
#[derive(Clone, Copy)]
pub struct Number {
    pub neg: bool,
    pub size: u64,
}

// A raw's number, apart.
pub fn of<R: Raw>(x: R) -> Number
    ensures { number_of result ≡ R.kind.number_of x }
{
    Number {
        neg: x.is_below(),
        size: x.magnitude(),
    }
}

pub fn negated(x: Number) -> Number
    ensures { number_of result ≡ neg_ℤ (number_of x) }
{
    Number {
        neg: !x.neg,
        size: x.size,
    }
}

// One word as a result.
impl From<Number> for Exact {
    ghost from_gives = { λ x r. exact_of r ≡ number_of x };

    fn from(x: Number) -> Exact {
        Exact::new(x.neg, x.size.into())
    }
}

// A number of 65 bits, with its sign.
impl From<Number> for i128 {
    ghost from_gives = { λ x n. n ≡ number_of x };

    #[tactic(auto, unfolding(format::specs::Meaning::with_sign))]
    fn from(x: Number) -> i128 {
        let size = i128::from(x.size);
        if x.neg { -size } else { size }
    }
}

// x + y
pub fn sum(x: Number, y: Number) -> Exact
    ensures { exact_of result ≡ number_of x +ℤ number_of y }
{
    (i128::from(x) + i128::from(y)).into()
}

// x * y / 2^frac, rounded toward minus infinity.
pub fn product(x: Number, y: Number, frac: u32) -> Exact
    ensures { exact_of result ≡ floor_of (number_of x *ℤ number_of y) (2 ^ frac) }
{
    floor(Exact::new(x.neg != y.neg, wide::mul(x.size, y.size)), frac)
}

// x / 2^k, rounded toward minus infinity.
pub fn floor(x: Exact, k: u32) -> Exact
    ensures { exact_of result ≡ floor_of (exact_of x) (2 ^ k) }
{
    if x.neg {
        floor_below(x.size(), k)
    } else {
        Exact::new(false, wide::shr(x.size(), k))
    }
}

// Below zero, down is away from zero: one more than what the magnitude less one holds of 2^k.
fn floor_below(size: Wide, k: u32) -> Exact
    ensures { exact_of result ≡ floor_of (with_sign true (value_of size)) (2 ^ k) }
{
    let one = Wide::from(1u64);
    if wide::less(size, one) {
        Exact::new(false, size)
    } else {
        let whole = wide::shr(wide::sub(size, one), k);
        Exact::new(true, wide::add(whole, one))
    }
}

// A word times 2^k. A whole word is left over for the shift, so nothing is lost. That k is at most 64 stands in a
// clause here and below, in no type: it is F of a format for a quotient, and a count modulo W for a shift.
pub fn scaled(size: u64, k: u32) -> Wide
    requires { k ≤ 64 }
    ensures { value_of result ≡ size * 2 ^ k }
{
    (u128::from(size) << k).into()
}

// x * 2^k.
pub fn shifted_left(x: Number, k: u32) -> Exact
    requires { k ≤ 64 }
    ensures { exact_of result ≡ number_of x *ℤ pos (2 ^ k) }
{
    Exact::new(x.neg, scaled(x.size, k))
}

// x * 2^frac / y, rounded toward zero. That y is not 0 stands in a clause, here and where else something is divided by
// it: callers know it of the raw (`arith::divided`) and take the raw apart in the call, so that a type for such a
// divisor would be made there to be taken apart here.
pub fn quotient(x: Number, y: Number, frac: u32) -> Exact
    requires { (0 < y.size) × (frac ≤ 64) }
    ensures { exact_of result ≡ quot_z (number_of x *ℤ pos (2 ^ frac)) (number_of y) }
{
    let division = wide::div(scaled(x.size, frac), y.size);
    Exact::new(x.neg != y.neg, division.quotient)
}

// What the division of x by y leaves, with the sign of x.
pub fn remainder(x: Number, y: Number) -> Exact
    requires { 0 < y.size }
    ensures { exact_of result ≡ rem_z (number_of x) (number_of y) }
{
    Exact::new(x.neg, (x.size % y.size).into())
}
