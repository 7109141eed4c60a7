// tq_settle_signed, tq_settle_unsigned: an exact number, as a sign and two words, into a format.
// neg is 0 for a number that is not negative.
// C has a name for each sign, and what is exported no type parameter: each is the one function at its sign.
ghost use Rattle.format.specs.Meaning.{signed_kind, unsigned_kind};
ghost use Rattle.format.specs.Promise.{Settle};
ghost use Rattle.capi.specs.Meaning.{manner_of, some_of};
ghost use Rattle.capi.specs.Promise.{Signed, Unsigned};

use crate::answer;
use crate::answer::{CSigned, CUnsigned};
use format::Exact;

#[unsafe(no_mangle)]
pub extern "C" fn tq_settle_signed(
    neg: u32,
    high: u64,
    low: u64,
    width: u32,
    frac: u32,
    manner: u32,
) -> CSigned
    ensures { Signed (Settle signed_kind (some_of neg) high low width frac (manner_of manner)) result }
{
    let x = Exact {
        neg: neg != 0,
        high,
        low,
    };
    format::settle::<i64>(x, width, frac, answer::manner(manner)).into()
}

#[unsafe(no_mangle)]
pub extern "C" fn tq_settle_unsigned(
    neg: u32,
    high: u64,
    low: u64,
    width: u32,
    frac: u32,
    manner: u32,
) -> CUnsigned
    ensures { Unsigned (Settle unsigned_kind (some_of neg) high low width frac (manner_of manner)) result }
{
    let x = Exact {
        neg: neg != 0,
        high,
        low,
    };
    format::settle::<u64>(x, width, frac, answer::manner(manner)).into()
}
