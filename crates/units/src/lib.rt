// A number in units of 2^frac steps, in each rounding, once for both signs; and the result in steps.
#![tactic(auto)]

ghost use Rattle.std.specs.Prelude.{◌≡◌, true, ◌*◌, ◌/◌, ◌%◌, ◌^◌, ◌≤◌, ◌<◌, pos, ◌-ℤ◌, ◌*ℤ◌};
ghost use Rattle.std.specs.Ordering.{MatchOrdering};
ghost use Rattle.laws.specs.Floor.{floor as floor_of};
ghost use Rattle.laws.specs.Nearest.{nearest_even};
ghost use Rattle.format.specs.Meaning.{with_sign};
ghost use Rattle.exact.specs.Meaning.{number_of, exact_of};
ghost use Rattle.units.specs.Meaning.{nearest_away, floor_to, ceil_to, round_to, even_to, int_part, frac_part};

use exact::{Exact, Number};
use format::Format;
use std::cmp::Ordering;

// x down to a whole number of 2^frac.
pub fn floor(x: Number, format: Format) -> Exact
    ensures { exact_of result ≡ floor_to (number_of x) (2 ^ format.frac) }
{
    in_steps(below(x, format.frac), format)
}

// x up: down, with the sign turned before and after.
pub fn ceil(x: Number, format: Format) -> Exact
    ensures { exact_of result ≡ ceil_to (number_of x) (2 ^ format.frac) }
{
    let q = exact::negated(below(exact::negated(x), format.frac));
    in_steps(q, format)
}

// x to the nearest, ties away from zero.
pub fn round(x: Number, format: Format) -> Exact
    ensures { exact_of result ≡ round_to (number_of x) (2 ^ format.frac) }
{
    let size = nearest_away(x.size, format);
    in_steps(Number { size, ..x }, format)
}

// x to the nearest, ties to even.
pub fn round_ties_even(x: Number, format: Format) -> Exact
    ensures { exact_of result ≡ even_to (number_of x) (2 ^ format.frac) }
{
    let size = nearest_even(x.size, format);
    in_steps(Number { size, ..x }, format)
}

// The integer part: x down, and 0 where there are no integer bits. By two numbers, and `frac` too: their promises speak
// of every width up to 64, and a `Format` has one of four.
pub fn int(x: Number, width: u32, frac: u32) -> Exact
    requires { (frac ≤ width) × (width ≤ 64) }
    ensures { exact_of result ≡ int_part width frac (number_of x) }
{
    if frac == width {
        exact::of(0u64).into()
    } else {
        floor(x, Format { width: 64, frac })
    }
}

// What the integer part leaves: x itself where there are no integer bits.
pub fn frac(x: Number, width: u32, frac: u32) -> Exact
    requires { (frac ≤ width) × (width ≤ 64) }
    ensures { exact_of result ≡ frac_part width frac (number_of x) }
{
    if frac == width {
        x.into()
    } else {
        exact::of(modulo(x, 1u64 << frac)).into()
    }
}

// x units, in steps.
pub fn in_steps(x: Number, format: Format) -> Exact
    ensures { exact_of result ≡ number_of x *ℤ pos (2 ^ format.frac) }
{
    exact::shifted_left(x, format.frac)
}

// x less the greatest multiple of m that is not above it: what is left of the magnitude, and below zero what that lacks
// of m.
pub fn modulo(x: Number, m: u64) -> u64
    requires { 0 < m }
    ensures { pos result ≡ number_of x -ℤ floor_to (number_of x) m }
{
    let rest = x.size % m;
    if x.neg && rest != 0 { m - rest } else { rest }
}

// How many whole 2^frac are at or below x. Of a word, so that it is a `Number` again: `exact::floor` is the same of two
// words.
fn below(x: Number, frac: u32) -> Number
    ensures { number_of result ≡ floor_of (number_of x) (2 ^ frac) }
{
    let size = if x.neg {
        above(x.size, frac)
    } else {
        quotient(x.size, frac)
    };
    Number { size, ..x }
}

// Below zero, down is away from zero: one more than what the magnitude less one holds of 2^frac.
fn above(size: u64, frac: u32) -> u64
    ensures { with_sign true result ≡ floor_of (with_sign true size) (2 ^ frac) }
{
    if size == 0 {
        0
    } else {
        quotient(size - 1, frac) + 1
    }
}

fn nearest_away(size: u64, format: Format) -> u64
    ensures { result ≡ nearest_away size (2 ^ format.frac) }
{
    let q = quotient(size, format.frac);
    match beside_half(size, format) {
        Ordering::Less => q,
        Ordering::Equal | Ordering::Greater => q + 1,
    }
}

// Apart from `nearest_away` by the tie alone: as a closure, it would take a bound on q and a clause of its own. Apart
// from `float::rounding::nearest` too, which no format stands below: its count of places is from 1 to 63.
fn nearest_even(size: u64, format: Format) -> u64
    ensures { result ≡ nearest_even size (2 ^ format.frac) }
{
    let q = quotient(size, format.frac);
    match beside_half(size, format) {
        Ordering::Less => q,
        Ordering::Equal => q + q % 2,
        Ordering::Greater => q + 1,
    }
}

// Half of 2^64.
const HALF: u64 = 0x8000_0000_0000_0000;

// What is left of size, beside half of 2^frac: both as parts of 2^64, so that the rest is the high bits of a word.
fn beside_half(size: u64, format: Format) -> Ordering
    ensures { MatchOrdering result (size % 2 ^ format.frac * 2 < 2 ^ format.frac)
        (size % 2 ^ format.frac * 2 ≡ 2 ^ format.frac) (2 ^ format.frac < size % 2 ^ format.frac * 2) }
{
    let rest = size.unbounded_shl(64 - format.frac);
    rest.cmp(&HALF)
}

// size / 2^frac, for every frac.
fn quotient(size: u64, frac: u32) -> u64
    ensures { result ≡ size / 2 ^ frac }
{
    size.unbounded_shr(frac)
}
