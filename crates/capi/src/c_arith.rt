// tq_add_S to tq_shr_S: arithmetic on raws, in the manner that its number stands for.
// C has a name for each sign, and what is exported no type parameter: each is the one function at its sign.
ghost use Rattle.format.specs.Meaning.{signed_kind, unsigned_kind};
ghost use Rattle.arith.specs.Promise.{Add, Sub, Mul, Div, Rem, Neg};
ghost use Rattle.shift.specs.Promise.{Shl, Shr};
ghost use Rattle.capi.specs.Meaning.{manner_of};
ghost use Rattle.capi.specs.Promise.{Signed, Unsigned};

use crate::answer;
use crate::answer::{CSigned, CUnsigned};

#[unsafe(no_mangle)]
pub extern "C" fn tq_add_signed(a: i64, b: i64, width: u32, frac: u32, manner: u32) -> CSigned
    ensures { Signed (Add signed_kind a b width frac (manner_of manner)) result }
{
    arith::add(a, b, width, frac, answer::manner(manner)).into()
}

#[unsafe(no_mangle)]
pub extern "C" fn tq_sub_signed(a: i64, b: i64, width: u32, frac: u32, manner: u32) -> CSigned
    ensures { Signed (Sub signed_kind a b width frac (manner_of manner)) result }
{
    arith::sub(a, b, width, frac, answer::manner(manner)).into()
}

#[unsafe(no_mangle)]
pub extern "C" fn tq_mul_signed(a: i64, b: i64, width: u32, frac: u32, manner: u32) -> CSigned
    ensures { Signed (Mul signed_kind a b width frac (manner_of manner)) result }
{
    arith::mul(a, b, width, frac, answer::manner(manner)).into()
}

#[unsafe(no_mangle)]
pub extern "C" fn tq_div_signed(a: i64, b: i64, width: u32, frac: u32, manner: u32) -> CSigned
    ensures { Signed (Div signed_kind a b width frac (manner_of manner)) result }
{
    arith::div(a, b, width, frac, answer::manner(manner)).into()
}

#[unsafe(no_mangle)]
pub extern "C" fn tq_rem_signed(a: i64, b: i64, width: u32, frac: u32, manner: u32) -> CSigned
    ensures { Signed (Rem signed_kind a b width frac (manner_of manner)) result }
{
    arith::rem(a, b, width, frac, answer::manner(manner)).into()
}

#[unsafe(no_mangle)]
pub extern "C" fn tq_neg_signed(a: i64, width: u32, frac: u32, manner: u32) -> CSigned
    ensures { Signed (Neg signed_kind a width frac (manner_of manner)) result }
{
    arith::neg(a, width, frac, answer::manner(manner)).into()
}

#[unsafe(no_mangle)]
pub extern "C" fn tq_shl_signed(a: i64, count: u32, width: u32, frac: u32, manner: u32) -> CSigned
    ensures { Signed (Shl signed_kind a count width frac (manner_of manner)) result }
{
    shift::shl(a, count, width, frac, answer::manner(manner)).into()
}

#[unsafe(no_mangle)]
pub extern "C" fn tq_shr_signed(a: i64, count: u32, width: u32, frac: u32, manner: u32) -> CSigned
    ensures { Signed (Shr signed_kind a count width frac (manner_of manner)) result }
{
    shift::shr(a, count, width, frac, answer::manner(manner)).into()
}

#[unsafe(no_mangle)]
pub extern "C" fn tq_add_unsigned(a: u64, b: u64, width: u32, frac: u32, manner: u32) -> CUnsigned
    ensures { Unsigned (Add unsigned_kind a b width frac (manner_of manner)) result }
{
    arith::add(a, b, width, frac, answer::manner(manner)).into()
}

#[unsafe(no_mangle)]
pub extern "C" fn tq_sub_unsigned(a: u64, b: u64, width: u32, frac: u32, manner: u32) -> CUnsigned
    ensures { Unsigned (Sub unsigned_kind a b width frac (manner_of manner)) result }
{
    arith::sub(a, b, width, frac, answer::manner(manner)).into()
}

#[unsafe(no_mangle)]
pub extern "C" fn tq_mul_unsigned(a: u64, b: u64, width: u32, frac: u32, manner: u32) -> CUnsigned
    ensures { Unsigned (Mul unsigned_kind a b width frac (manner_of manner)) result }
{
    arith::mul(a, b, width, frac, answer::manner(manner)).into()
}

#[unsafe(no_mangle)]
pub extern "C" fn tq_div_unsigned(a: u64, b: u64, width: u32, frac: u32, manner: u32) -> CUnsigned
    ensures { Unsigned (Div unsigned_kind a b width frac (manner_of manner)) result }
{
    arith::div(a, b, width, frac, answer::manner(manner)).into()
}

#[unsafe(no_mangle)]
pub extern "C" fn tq_rem_unsigned(a: u64, b: u64, width: u32, frac: u32, manner: u32) -> CUnsigned
    ensures { Unsigned (Rem unsigned_kind a b width frac (manner_of manner)) result }
{
    arith::rem(a, b, width, frac, answer::manner(manner)).into()
}

#[unsafe(no_mangle)]
pub extern "C" fn tq_neg_unsigned(a: u64, width: u32, frac: u32, manner: u32) -> CUnsigned
    ensures { Unsigned (Neg unsigned_kind a width frac (manner_of manner)) result }
{
    arith::neg(a, width, frac, answer::manner(manner)).into()
}

#[unsafe(no_mangle)]
pub extern "C" fn tq_shl_unsigned(
    a: u64,
    count: u32,
    width: u32,
    frac: u32,
    manner: u32,
) -> CUnsigned
    ensures { Unsigned (Shl unsigned_kind a count width frac (manner_of manner)) result }
{
    shift::shl(a, count, width, frac, answer::manner(manner)).into()
}

#[unsafe(no_mangle)]
pub extern "C" fn tq_shr_unsigned(
    a: u64,
    count: u32,
    width: u32,
    frac: u32,
    manner: u32,
) -> CUnsigned
    ensures { Unsigned (Shr unsigned_kind a count width frac (manner_of manner)) result }
{
    shift::shr(a, count, width, frac, answer::manner(manner)).into()
}
