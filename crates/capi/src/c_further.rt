// tq_abs_S to tq_mean_S: more arithmetic on raws, in the manner that its number stands for.
// C has a name for each sign, and what is exported no type parameter: each is the one function at its sign.
ghost use Rattle.format.specs.Meaning.{signed_kind, unsigned_kind};
ghost use Rattle.further.specs.Promise.{Abs, Signum, RemEuclid, DivEuclid, MulAdd, Dist, Mean};
ghost use Rattle.capi.specs.Meaning.{manner_of};
ghost use Rattle.capi.specs.Promise.{Signed, Unsigned};

use crate::answer;
use crate::answer::{CSigned, CUnsigned};

#[unsafe(no_mangle)]
pub extern "C" fn tq_abs_signed(a: i64, width: u32, frac: u32, manner: u32) -> CSigned
    ensures { Signed (Abs signed_kind a width frac (manner_of manner)) result }
{
    further::abs(a, width, frac, answer::manner(manner)).into()
}

#[unsafe(no_mangle)]
pub extern "C" fn tq_signum_signed(a: i64, width: u32, frac: u32, manner: u32) -> CSigned
    ensures { Signed (Signum signed_kind a width frac (manner_of manner)) result }
{
    further::signum(a, width, frac, answer::manner(manner)).into()
}

#[unsafe(no_mangle)]
pub extern "C" fn tq_rem_euclid_signed(
    a: i64,
    b: i64,
    width: u32,
    frac: u32,
    manner: u32,
) -> CSigned
    ensures { Signed (RemEuclid signed_kind a b width frac (manner_of manner)) result }
{
    further::rem_euclid(a, b, width, frac, answer::manner(manner)).into()
}

#[unsafe(no_mangle)]
pub extern "C" fn tq_div_euclid_signed(
    a: i64,
    b: i64,
    width: u32,
    frac: u32,
    manner: u32,
) -> CSigned
    ensures { Signed (DivEuclid signed_kind a b width frac (manner_of manner)) result }
{
    further::div_euclid(a, b, width, frac, answer::manner(manner)).into()
}

#[unsafe(no_mangle)]
pub extern "C" fn tq_mul_add_signed(
    a: i64,
    b: i64,
    c: i64,
    width: u32,
    frac: u32,
    manner: u32,
) -> CSigned
    ensures { Signed (MulAdd signed_kind a b c width frac (manner_of manner)) result }
{
    further::mul_add(a, b, c, width, frac, answer::manner(manner)).into()
}

#[unsafe(no_mangle)]
pub extern "C" fn tq_dist_signed(a: i64, b: i64, width: u32, frac: u32, manner: u32) -> CSigned
    ensures { Signed (Dist signed_kind a b width frac (manner_of manner)) result }
{
    further::dist(a, b, width, frac, answer::manner(manner)).into()
}

#[unsafe(no_mangle)]
pub extern "C" fn tq_mean_signed(a: i64, b: i64, width: u32, frac: u32, manner: u32) -> CSigned
    ensures { Signed (Mean signed_kind a b width frac (manner_of manner)) result }
{
    further::mean(a, b, width, frac, answer::manner(manner)).into()
}

#[unsafe(no_mangle)]
pub extern "C" fn tq_abs_unsigned(a: u64, width: u32, frac: u32, manner: u32) -> CUnsigned
    ensures { Unsigned (Abs unsigned_kind a width frac (manner_of manner)) result }
{
    further::abs(a, width, frac, answer::manner(manner)).into()
}

#[unsafe(no_mangle)]
pub extern "C" fn tq_signum_unsigned(a: u64, width: u32, frac: u32, manner: u32) -> CUnsigned
    ensures { Unsigned (Signum unsigned_kind a width frac (manner_of manner)) result }
{
    further::signum(a, width, frac, answer::manner(manner)).into()
}

#[unsafe(no_mangle)]
pub extern "C" fn tq_rem_euclid_unsigned(
    a: u64,
    b: u64,
    width: u32,
    frac: u32,
    manner: u32,
) -> CUnsigned
    ensures { Unsigned (RemEuclid unsigned_kind a b width frac (manner_of manner)) result }
{
    further::rem_euclid(a, b, width, frac, answer::manner(manner)).into()
}

#[unsafe(no_mangle)]
pub extern "C" fn tq_div_euclid_unsigned(
    a: u64,
    b: u64,
    width: u32,
    frac: u32,
    manner: u32,
) -> CUnsigned
    ensures { Unsigned (DivEuclid unsigned_kind a b width frac (manner_of manner)) result }
{
    further::div_euclid(a, b, width, frac, answer::manner(manner)).into()
}

#[unsafe(no_mangle)]
pub extern "C" fn tq_mul_add_unsigned(
    a: u64,
    b: u64,
    c: u64,
    width: u32,
    frac: u32,
    manner: u32,
) -> CUnsigned
    ensures { Unsigned (MulAdd unsigned_kind a b c width frac (manner_of manner)) result }
{
    further::mul_add(a, b, c, width, frac, answer::manner(manner)).into()
}

#[unsafe(no_mangle)]
pub extern "C" fn tq_dist_unsigned(a: u64, b: u64, width: u32, frac: u32, manner: u32) -> CUnsigned
    ensures { Unsigned (Dist unsigned_kind a b width frac (manner_of manner)) result }
{
    further::dist(a, b, width, frac, answer::manner(manner)).into()
}

#[unsafe(no_mangle)]
pub extern "C" fn tq_mean_unsigned(a: u64, b: u64, width: u32, frac: u32, manner: u32) -> CUnsigned
    ensures { Unsigned (Mean unsigned_kind a b width frac (manner_of manner)) result }
{
    further::mean(a, b, width, frac, answer::manner(manner)).into()
}
