// More exact results, once for both signs: abs, signum, Euclidean division, mul_add, dist, mean.
// That a divisor is not 0 is asked as `exact::quotient` asks it, which says why.
#![tactic(auto)]

ghost use Rattle.std.specs.Prelude.{◌≡◌, ◌+◌, ◌*◌, ◌^◌, ◌≤◌, ◌<◌, pos, nat_abs, ◌+ℤ◌, ◌-ℤ◌, ◌*ℤ◌};
ghost use Rattle.laws.specs.Floor.{floor as floor_of};
ghost use Rattle.exact.specs.Meaning.{number_of, exact_of};
ghost use Rattle.results.specs.Meaning.{sign_of, rem_euclid, quot_euclid};

use exact::{Exact, Number};
use format::Format;
use wide::Wide;

pub fn abs(x: Number) -> Exact
    ensures { exact_of result ≡ pos (nat_abs (number_of x)) }
{
    Number { neg: false, ..x }.into()
}

// The sign of x, in units.
pub fn signum(x: Number, format: Format) -> Exact
    ensures { exact_of result ≡ sign_of (number_of x) *ℤ pos (2 ^ format.frac) }
{
    let size = x.size.min(1);
    units::in_steps(Number { size, ..x }, format)
}

pub fn rem_euclid(x: Number, y: Number) -> Exact
    requires { 0 < y.size }
    ensures { exact_of result ≡ rem_euclid (number_of x) (number_of y) }
{
    exact::of(units::modulo(x, y.size)).into()
}

// The floor by |y|, with the sign turned where y is negative, in units.
pub fn div_euclid(x: Number, y: Number, format: Format) -> Exact
    requires { 0 < y.size }
    ensures { exact_of result ≡ quot_euclid (number_of x) (number_of y) *ℤ pos (2 ^ format.frac) }
{
    let q = floor(x, y.size);
    let turned = Number {
        neg: q.neg != y.neg,
        ..q
    };
    units::in_steps(turned, format)
}

// Below zero, down is away from zero.
fn floor(x: Number, m: u64) -> Number
    requires { 0 < m }
    ensures { number_of result ≡ floor_of (number_of x) m }
{
    let size = if x.neg {
        x.size.div_ceil(m)
    } else {
        x.size / m
    };
    Number { size, ..x }
}

// The floor of the product, of two words, and a word. The product of two words leaves room for a word.
pub fn mul_add(x: Number, y: Number, z: Number, frac: u32) -> Exact
    ensures { exact_of result ≡ floor_of (number_of x *ℤ number_of y) (2 ^ frac) +ℤ number_of z }
{
    add(exact::product(x, y, frac), z)
}

// x + y: equal signs add, else the smaller is taken from the larger, whose sign stays.
// By sign and magnitude, and not as `exact::sum`: the floor of a product of two words can be past an `i128`.
fn add(x: Exact, y: Number) -> Exact
    requires { x.high * 2 ^ 64 + x.low + 2 ^ 64 ≤ 2 ^ 128 }
    ensures { exact_of result ≡ exact_of x +ℤ number_of y }
{
    let a = x.size();
    let b = Wide::from(y.size);
    if x.neg == y.neg {
        Exact::new(x.neg, wide::add(a, b))
    } else if wide::less(a, b) {
        Exact::new(y.neg, wide::sub(b, a))
    } else {
        Exact::new(x.neg, wide::sub(a, b))
    }
}

// |x - y|
pub fn dist(x: Number, y: Number) -> Exact
    ensures { exact_of result ≡ pos (nat_abs (number_of x -ℤ number_of y)) }
{
    let d = exact::sum(x, exact::negated(y));
    Exact { neg: false, ..d }
}

// Half of x + y, rounded toward minus infinity.
pub fn mean(x: Number, y: Number) -> Exact
    ensures { exact_of result ≡ floor_of (number_of x +ℤ number_of y) 2 }
{
    exact::floor(exact::sum(x, y), 1)
}
