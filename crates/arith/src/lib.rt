// Arithmetic of document 01, module 4: the exact result in whole steps, then the manner of `format`.
// `divided` is for the crate `further` too. A format comes as its two numbers: each entry refuses what is none.
#![tactic(auto)]

ghost use Rattle.std.specs.Prelude.{IfOk, IfErr};
ghost use Rattle.format.specs.Meaning.{Refuses};
ghost use Rattle.arith.specs.Promise.{Add, Sub, Neg, Mul, Div, Rem};
ghost use Rattle.arith.specs.Meaning.{division_fault, Divides};

use exact::operand::Operand;
use format::{Answered, Format, Manner, Raw, Refusal};

// a + b
pub fn add<R: Operand>(a: R, b: R, width: u32, frac: u32, manner: Manner) -> Answered<R>
    ensures { Add R.kind a b width frac manner result }
{
    format::settle(a.sum(b), width, frac, manner)
}

// a - b
pub fn sub<R: Operand>(a: R, b: R, width: u32, frac: u32, manner: Manner) -> Answered<R>
    ensures { Sub R.kind a b width frac manner result }
{
    format::settle(a.difference(b), width, frac, manner)
}

// -a
pub fn neg<R: Raw>(a: R, width: u32, frac: u32, manner: Manner) -> Answered<R>
    ensures { Neg R.kind a width frac manner result }
{
    let minus = exact::negated(exact::of(a));
    format::settle(minus.into(), width, frac, manner)
}

// a * b / 2^frac, rounded toward minus infinity
pub fn mul<R: Operand>(a: R, b: R, width: u32, frac: u32, manner: Manner) -> Answered<R>
    ensures { Mul R.kind a b width frac manner result }
{
    format::settle(a.product(b, frac), width, frac, manner)
}

// a * 2^frac / b, rounded toward zero; 31 for b = 0
pub fn div<R: Raw>(a: R, b: R, width: u32, frac: u32, manner: Manner) -> Answered<R>
    ensures { Div R.kind a b width frac manner result }
{
    let format = divided(b, width, frac)?;
    let quotient = exact::quotient(exact::of(a), exact::of(b), frac);
    format::fit(quotient, format, manner)
}

// What is left of a, with its sign; 31 for b = 0
pub fn rem<R: Raw>(a: R, b: R, width: u32, frac: u32, manner: Manner) -> Answered<R>
    ensures { Rem R.kind a b width frac manner result }
{
    let format = divided(b, width, frac)?;
    let rest = exact::remainder(exact::of(a), exact::of(b));
    format::fit(rest, format, manner)
}

// The format of a division by b: its own refusals first, then 31.
pub fn divided<R: Raw>(b: R, width: u32, frac: u32) -> Result<Format, Refusal>
    ensures ok { IfOk result (λ x. Divides width frac (R.kind.number_of b) x.width x.frac) }
    ensures err { IfErr result (Refuses (division_fault width frac (R.kind.number_of b))) }
{
    let format = Format::new(width, frac)?;
    if b.magnitude() == 0 {
        return Err(Refusal::ZeroDivisor);
    }
    Ok(format)
}
