// tq_convert_*: a raw of one format as a raw of another.
// C has a name for each sign, and what is exported no type parameter: each is the one function at its sign.
ghost use Rattle.format.specs.Meaning.{signed_kind, unsigned_kind};
ghost use Rattle.convert.specs.Promise.{Convert};
ghost use Rattle.capi.specs.Meaning.{manner_of};
ghost use Rattle.capi.specs.Promise.{Signed, Unsigned};

use crate::answer;
use crate::answer::{CSigned, CUnsigned};

#[unsafe(no_mangle)]
pub extern "C" fn tq_convert_signed_to_signed(
    raw: i64,
    from_width: u32,
    from_frac: u32,
    width: u32,
    frac: u32,
    manner: u32,
) -> CSigned
    ensures { Signed (Convert signed_kind signed_kind raw from_width from_frac width frac (manner_of manner)) result }
{
    convert::convert::<i64, i64>(
        raw,
        from_width,
        from_frac,
        width,
        frac,
        answer::manner(manner),
    )
    .into()
}

#[unsafe(no_mangle)]
pub extern "C" fn tq_convert_signed_to_unsigned(
    raw: i64,
    from_width: u32,
    from_frac: u32,
    width: u32,
    frac: u32,
    manner: u32,
) -> CUnsigned
    ensures { Unsigned (Convert signed_kind unsigned_kind
        raw from_width from_frac width frac (manner_of manner)) result }
{
    convert::convert::<i64, u64>(
        raw,
        from_width,
        from_frac,
        width,
        frac,
        answer::manner(manner),
    )
    .into()
}

#[unsafe(no_mangle)]
pub extern "C" fn tq_convert_unsigned_to_signed(
    raw: u64,
    from_width: u32,
    from_frac: u32,
    width: u32,
    frac: u32,
    manner: u32,
) -> CSigned
    ensures { Signed (Convert unsigned_kind signed_kind raw from_width from_frac width frac (manner_of manner)) result }
{
    convert::convert::<u64, i64>(
        raw,
        from_width,
        from_frac,
        width,
        frac,
        answer::manner(manner),
    )
    .into()
}

#[unsafe(no_mangle)]
pub extern "C" fn tq_convert_unsigned_to_unsigned(
    raw: u64,
    from_width: u32,
    from_frac: u32,
    width: u32,
    frac: u32,
    manner: u32,
) -> CUnsigned
    ensures { Unsigned (Convert unsigned_kind unsigned_kind
        raw from_width from_frac width frac (manner_of manner)) result }
{
    convert::convert::<u64, u64>(
        raw,
        from_width,
        from_frac,
        width,
        frac,
        answer::manner(manner),
    )
    .into()
}
