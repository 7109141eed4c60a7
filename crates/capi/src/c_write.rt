// tq_write_signed, tq_write_unsigned: the exact decimal text of a raw, into a lent buffer.
// C has a name for each sign, and what is exported no type parameter: each is the one function at its sign.
ghost use Rattle.format.specs.Meaning.{signed_kind, unsigned_kind};
ghost use Rattle.decimal.specs.Promise.{Write};
ghost use Rattle.capi.specs.Promise.{Unsigned};

use crate::answer::CUnsigned;

#[unsafe(no_mangle)]
pub extern "C" fn tq_write_signed(raw: i64, width: u32, frac: u32, out: &mut [u8]) -> CUnsigned
    ensures { Unsigned (λ a. Write signed_kind raw width frac out.old a out.new) result }
{
    decimal::write(raw, width, frac, out).into()
}

#[unsafe(no_mangle)]
pub extern "C" fn tq_write_unsigned(raw: u64, width: u32, frac: u32, out: &mut [u8]) -> CUnsigned
    ensures { Unsigned (λ a. Write unsigned_kind raw width frac out.old a out.new) result }
{
    decimal::write(raw, width, frac, out).into()
}
