// tq_read_signed, tq_read_unsigned, tq_literal_signed, tq_literal_unsigned: a text to the nearest number of a format.
// C has a name for each sign, and what is exported no type parameter: each is the one function at its sign.
ghost use Rattle.format.specs.Meaning.{signed_kind, unsigned_kind};
ghost use Rattle.text.specs.Promise.{Read, Literal};
ghost use Rattle.capi.specs.Meaning.{manner_of};
ghost use Rattle.capi.specs.Promise.{Signed, Unsigned};

use crate::answer;
use crate::answer::{CSigned, CUnsigned};

#[unsafe(no_mangle)]
pub extern "C" fn tq_read_signed(
    text: &[u8],
    width: u32,
    frac: u32,
    radix: u32,
    manner: u32,
) -> CSigned
    ensures { Signed (Read signed_kind text.now width frac radix (manner_of manner)) result }
{
    text::read::<i64>(text, width, frac, radix, answer::manner(manner)).into()
}

#[unsafe(no_mangle)]
pub extern "C" fn tq_read_unsigned(
    text: &[u8],
    width: u32,
    frac: u32,
    radix: u32,
    manner: u32,
) -> CUnsigned
    ensures { Unsigned (Read unsigned_kind text.now width frac radix (manner_of manner)) result }
{
    text::read::<u64>(text, width, frac, radix, answer::manner(manner)).into()
}

#[unsafe(no_mangle)]
pub extern "C" fn tq_literal_signed(text: &[u8], width: u32, frac: u32) -> CSigned
    ensures { Signed (Literal signed_kind text.now width frac) result }
{
    text::read_literal::<i64>(text, width, frac).into()
}

#[unsafe(no_mangle)]
pub extern "C" fn tq_literal_unsigned(text: &[u8], width: u32, frac: u32) -> CUnsigned
    ensures { Unsigned (Literal unsigned_kind text.now width frac) result }
{
    text::read_literal::<u64>(text, width, frac).into()
}
