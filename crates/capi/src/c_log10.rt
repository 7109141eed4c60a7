// tq_log10_signed, tq_log10_unsigned: the greatest k with 10^k at most the value.
// C has a name for each sign, and what is exported no type parameter: each is the one function at its sign.
ghost use Rattle.format.specs.Meaning.{signed_kind, unsigned_kind};
ghost use Rattle.log10.specs.Promise.{Log10};
ghost use Rattle.capi.specs.Promise.{Signed};

use crate::answer::CSigned;

#[unsafe(no_mangle)]
pub extern "C" fn tq_log10_signed(raw: i64, width: u32, frac: u32) -> CSigned
    ensures { Signed (Log10 signed_kind raw width frac) result }
{
    log10::log10(raw, width, frac).into()
}

#[unsafe(no_mangle)]
pub extern "C" fn tq_log10_unsigned(raw: u64, width: u32, frac: u32) -> CSigned
    ensures { Signed (Log10 unsigned_kind raw width frac) result }
{
    log10::log10(raw, width, frac).into()
}
