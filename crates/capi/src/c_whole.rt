// tq_floor_S to tq_frac_S: whole numbers of a format, in the manner that its number stands for.
// C has a name for each sign, and what is exported no type parameter: each is the one function at its sign.
ghost use Rattle.format.specs.Meaning.{signed_kind, unsigned_kind};
ghost use Rattle.whole.specs.Promise.{Floor, Ceil, Round, Even, Int, Frac};
ghost use Rattle.capi.specs.Meaning.{manner_of};
ghost use Rattle.capi.specs.Promise.{Signed, Unsigned};

use crate::answer;
use crate::answer::{CSigned, CUnsigned};

#[unsafe(no_mangle)]
pub extern "C" fn tq_floor_signed(a: i64, width: u32, frac: u32, manner: u32) -> CSigned
    ensures { Signed (Floor signed_kind a width frac (manner_of manner)) result }
{
    whole::floor(a, width, frac, answer::manner(manner)).into()
}

#[unsafe(no_mangle)]
pub extern "C" fn tq_ceil_signed(a: i64, width: u32, frac: u32, manner: u32) -> CSigned
    ensures { Signed (Ceil signed_kind a width frac (manner_of manner)) result }
{
    whole::ceil(a, width, frac, answer::manner(manner)).into()
}

#[unsafe(no_mangle)]
pub extern "C" fn tq_round_signed(a: i64, width: u32, frac: u32, manner: u32) -> CSigned
    ensures { Signed (Round signed_kind a width frac (manner_of manner)) result }
{
    whole::round(a, width, frac, answer::manner(manner)).into()
}

#[unsafe(no_mangle)]
pub extern "C" fn tq_round_ties_even_signed(a: i64, width: u32, frac: u32, manner: u32) -> CSigned
    ensures { Signed (Even signed_kind a width frac (manner_of manner)) result }
{
    whole::round_ties_even(a, width, frac, answer::manner(manner)).into()
}

#[unsafe(no_mangle)]
pub extern "C" fn tq_int_signed(a: i64, width: u32, frac: u32, manner: u32) -> CSigned
    ensures { Signed (Int signed_kind a width frac (manner_of manner)) result }
{
    whole::int(a, width, frac, answer::manner(manner)).into()
}

#[unsafe(no_mangle)]
pub extern "C" fn tq_frac_signed(a: i64, width: u32, frac: u32, manner: u32) -> CSigned
    ensures { Signed (Frac signed_kind a width frac (manner_of manner)) result }
{
    whole::frac(a, width, frac, answer::manner(manner)).into()
}

#[unsafe(no_mangle)]
pub extern "C" fn tq_floor_unsigned(a: u64, width: u32, frac: u32, manner: u32) -> CUnsigned
    ensures { Unsigned (Floor unsigned_kind a width frac (manner_of manner)) result }
{
    whole::floor(a, width, frac, answer::manner(manner)).into()
}

#[unsafe(no_mangle)]
pub extern "C" fn tq_ceil_unsigned(a: u64, width: u32, frac: u32, manner: u32) -> CUnsigned
    ensures { Unsigned (Ceil unsigned_kind a width frac (manner_of manner)) result }
{
    whole::ceil(a, width, frac, answer::manner(manner)).into()
}

#[unsafe(no_mangle)]
pub extern "C" fn tq_round_unsigned(a: u64, width: u32, frac: u32, manner: u32) -> CUnsigned
    ensures { Unsigned (Round unsigned_kind a width frac (manner_of manner)) result }
{
    whole::round(a, width, frac, answer::manner(manner)).into()
}

#[unsafe(no_mangle)]
pub extern "C" fn tq_round_ties_even_unsigned(
    a: u64,
    width: u32,
    frac: u32,
    manner: u32,
) -> CUnsigned
    ensures { Unsigned (Even unsigned_kind a width frac (manner_of manner)) result }
{
    whole::round_ties_even(a, width, frac, answer::manner(manner)).into()
}

#[unsafe(no_mangle)]
pub extern "C" fn tq_int_unsigned(a: u64, width: u32, frac: u32, manner: u32) -> CUnsigned
    ensures { Unsigned (Int unsigned_kind a width frac (manner_of manner)) result }
{
    whole::int(a, width, frac, answer::manner(manner)).into()
}

#[unsafe(no_mangle)]
pub extern "C" fn tq_frac_unsigned(a: u64, width: u32, frac: u32, manner: u32) -> CUnsigned
    ensures { Unsigned (Frac unsigned_kind a width frac (manner_of manner)) result }
{
    whole::frac(a, width, frac, answer::manner(manner)).into()
}
