// tq_from_f32_S and tq_from_f64_S: patterns into a format, in the manner that its number stands for.
// C has a name for each sign, and what is exported no type parameter: each is the one function at its sign.
ghost use Rattle.format.specs.Meaning.{signed_kind, unsigned_kind};
ghost use Rattle.from_float.specs.Promise.{F32, F64};
ghost use Rattle.capi.specs.Meaning.{manner_of};
ghost use Rattle.capi.specs.Promise.{Signed, Unsigned};

use crate::answer;
use crate::answer::{CSigned, CUnsigned};

#[unsafe(no_mangle)]
pub extern "C" fn tq_from_f32_signed(pattern: u32, width: u32, frac: u32, manner: u32) -> CSigned
    ensures { Signed (F32 signed_kind pattern width frac (manner_of manner)) result }
{
    from_float::from_f32::<i64>(pattern, width, frac, answer::manner(manner)).into()
}

#[unsafe(no_mangle)]
pub extern "C" fn tq_from_f64_signed(pattern: u64, width: u32, frac: u32, manner: u32) -> CSigned
    ensures { Signed (F64 signed_kind pattern width frac (manner_of manner)) result }
{
    from_float::from_f64::<i64>(pattern, width, frac, answer::manner(manner)).into()
}

#[unsafe(no_mangle)]
pub extern "C" fn tq_from_f32_unsigned(
    pattern: u32,
    width: u32,
    frac: u32,
    manner: u32,
) -> CUnsigned
    ensures { Unsigned (F32 unsigned_kind pattern width frac (manner_of manner)) result }
{
    from_float::from_f32::<u64>(pattern, width, frac, answer::manner(manner)).into()
}

#[unsafe(no_mangle)]
pub extern "C" fn tq_from_f64_unsigned(
    pattern: u64,
    width: u32,
    frac: u32,
    manner: u32,
) -> CUnsigned
    ensures { Unsigned (F64 unsigned_kind pattern width frac (manner_of manner)) result }
{
    from_float::from_f64::<u64>(pattern, width, frac, answer::manner(manner)).into()
}
