// tq_to_f32_S, tq_to_f64_S: the pattern of a raw's number.
// C has a name for each sign, and what is exported no type parameter: each is the one function at its sign.
ghost use Rattle.format.specs.Meaning.{signed_kind, unsigned_kind};
ghost use Rattle.to_float.specs.Promise.{ToF32, ToF64};
ghost use Rattle.capi.specs.Promise.{Unsigned};

use crate::answer::CUnsigned;

#[unsafe(no_mangle)]
pub extern "C" fn tq_to_f32_signed(raw: i64, width: u32, frac: u32) -> CUnsigned
    ensures { Unsigned (ToF32 signed_kind raw width frac) result }
{
    to_float::to_f32(raw, width, frac).into()
}

#[unsafe(no_mangle)]
pub extern "C" fn tq_to_f32_unsigned(raw: u64, width: u32, frac: u32) -> CUnsigned
    ensures { Unsigned (ToF32 unsigned_kind raw width frac) result }
{
    to_float::to_f32(raw, width, frac).into()
}

#[unsafe(no_mangle)]
pub extern "C" fn tq_to_f64_signed(raw: i64, width: u32, frac: u32) -> CUnsigned
    ensures { Unsigned (ToF64 signed_kind raw width frac) result }
{
    to_float::to_f64(raw, width, frac).into()
}

#[unsafe(no_mangle)]
pub extern "C" fn tq_to_f64_unsigned(raw: u64, width: u32, frac: u32) -> CUnsigned
    ensures { Unsigned (ToF64 unsigned_kind raw width frac) result }
{
    to_float::to_f64(raw, width, frac).into()
}
