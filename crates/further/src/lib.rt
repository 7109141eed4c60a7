// More arithmetic of the crate: the exact result in whole steps, then the manner of `format`.
// A format comes as its two numbers: each entry refuses what is none.
#![tactic(auto)]

ghost use Rattle.further.specs.Promise.{Abs, Signum, RemEuclid, DivEuclid, MulAdd, Dist, Mean};

use format::{Answered, Format, Manner, Raw};

// |a|
pub fn abs<R: Raw>(a: R, width: u32, frac: u32, manner: Manner) -> Answered<R>
    ensures { Abs R.kind a width frac manner result }
{
    format::settle(results::abs(exact::of(a)), width, frac, manner)
}

// -1, 0 or 1 by the sign of a, in units
pub fn signum<R: Raw>(a: R, width: u32, frac: u32, manner: Manner) -> Answered<R>
    ensures { Signum R.kind a width frac manner result }
{
    let format = Format::new(width, frac)?;
    format::fit(results::signum(exact::of(a), format), format, manner)
}

// What is left of a, not negative and below |b|; 31 for b = 0
pub fn rem_euclid<R: Raw>(a: R, b: R, width: u32, frac: u32, manner: Manner) -> Answered<R>
    ensures { RemEuclid R.kind a b width frac manner result }
{
    let format = arith::divided(b, width, frac)?;
    let rest = results::rem_euclid(exact::of(a), exact::of(b));
    format::fit(rest, format, manner)
}

// How many times b goes into a where what is left is not negative, in units; 31 for b = 0
pub fn div_euclid<R: Raw>(a: R, b: R, width: u32, frac: u32, manner: Manner) -> Answered<R>
    ensures { DivEuclid R.kind a b width frac manner result }
{
    let format = arith::divided(b, width, frac)?;
    let quotient = results::div_euclid(exact::of(a), exact::of(b), format);
    format::fit(quotient, format, manner)
}

// a * b / 2^frac, rounded toward minus infinity, plus c
pub fn mul_add<R: Raw>(a: R, b: R, c: R, width: u32, frac: u32, manner: Manner) -> Answered<R>
    ensures { MulAdd R.kind a b c width frac manner result }
{
    let x = results::mul_add(exact::of(a), exact::of(b), exact::of(c), frac);
    format::settle(x, width, frac, manner)
}

// |a - b|
pub fn dist<R: Raw>(a: R, b: R, width: u32, frac: u32, manner: Manner) -> Answered<R>
    ensures { Dist R.kind a b width frac manner result }
{
    format::settle(
        results::dist(exact::of(a), exact::of(b)),
        width,
        frac,
        manner,
    )
}

// (a + b) / 2, rounded toward minus infinity
pub fn mean<R: Raw>(a: R, b: R, width: u32, frac: u32, manner: Manner) -> Answered<R>
    ensures { Mean R.kind a b width frac manner result }
{
    format::settle(
        results::mean(exact::of(a), exact::of(b)),
        width,
        frac,
        manner,
    )
}
