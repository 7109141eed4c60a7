// tq_swap_bytes_S, tq_to_be_bytes_S and the others: the bytes of a raw, in either order.
// C has a name for each sign, and what is exported no type parameter: each is the one function at its sign.
ghost use Rattle.format.specs.Meaning.{signed_kind, unsigned_kind};
ghost use Rattle.std.specs.Prelude.{pos};
ghost use Rattle.byte_order.specs.Meaning.{big_of, little_of};
ghost use Rattle.byte_order.specs.Promise.{Swap, Stored, FromBe, FromLe};
ghost use Rattle.capi.specs.Promise.{Signed, Unsigned};

use crate::answer::{CSigned, CUnsigned};

#[unsafe(no_mangle)]
pub extern "C" fn tq_swap_bytes_signed(a: i64, width: u32, frac: u32) -> CSigned
    ensures { Signed (Swap signed_kind a width frac) result }
{
    byte_order::swap_bytes(a, width, frac).into()
}

#[unsafe(no_mangle)]
pub extern "C" fn tq_to_be_bytes_signed(a: i64, width: u32, frac: u32, out: &mut [u8]) -> CUnsigned
    ensures { Unsigned (Stored (big_of width a) width frac out.old out.new) result }
{
    byte_order::to_be_bytes(a, width, frac, out).into()
}

#[unsafe(no_mangle)]
pub extern "C" fn tq_to_le_bytes_signed(a: i64, width: u32, frac: u32, out: &mut [u8]) -> CUnsigned
    ensures { Unsigned (Stored (little_of width a) width frac out.old out.new) result }
{
    byte_order::to_le_bytes(a, width, frac, out).into()
}

#[unsafe(no_mangle)]
pub extern "C" fn tq_from_be_bytes_signed(bytes: &[u8], width: u32, frac: u32) -> CSigned
    ensures { Signed (FromBe signed_kind bytes.now width frac) result }
{
    byte_order::from_be_bytes::<i64>(bytes, width, frac).into()
}

#[unsafe(no_mangle)]
pub extern "C" fn tq_from_le_bytes_signed(bytes: &[u8], width: u32, frac: u32) -> CSigned
    ensures { Signed (FromLe signed_kind bytes.now width frac) result }
{
    byte_order::from_le_bytes::<i64>(bytes, width, frac).into()
}

#[unsafe(no_mangle)]
pub extern "C" fn tq_swap_bytes_unsigned(a: u64, width: u32, frac: u32) -> CUnsigned
    ensures { Unsigned (Swap unsigned_kind a width frac) result }
{
    byte_order::swap_bytes(a, width, frac).into()
}

#[unsafe(no_mangle)]
pub extern "C" fn tq_to_be_bytes_unsigned(
    a: u64,
    width: u32,
    frac: u32,
    out: &mut [u8],
) -> CUnsigned
    ensures { Unsigned (Stored (big_of width (pos a)) width frac out.old out.new) result }
{
    byte_order::to_be_bytes(a, width, frac, out).into()
}

#[unsafe(no_mangle)]
pub extern "C" fn tq_to_le_bytes_unsigned(
    a: u64,
    width: u32,
    frac: u32,
    out: &mut [u8],
) -> CUnsigned
    ensures { Unsigned (Stored (little_of width (pos a)) width frac out.old out.new) result }
{
    byte_order::to_le_bytes(a, width, frac, out).into()
}

#[unsafe(no_mangle)]
pub extern "C" fn tq_from_be_bytes_unsigned(bytes: &[u8], width: u32, frac: u32) -> CUnsigned
    ensures { Unsigned (FromBe unsigned_kind bytes.now width frac) result }
{
    byte_order::from_be_bytes::<u64>(bytes, width, frac).into()
}

#[unsafe(no_mangle)]
pub extern "C" fn tq_from_le_bytes_unsigned(bytes: &[u8], width: u32, frac: u32) -> CUnsigned
    ensures { Unsigned (FromLe unsigned_kind bytes.now width frac) result }
{
    byte_order::from_le_bytes::<u64>(bytes, width, frac).into()
}
