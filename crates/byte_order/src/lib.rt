// Byte order of document 01, module 4: the low W bits of a raw as W / 8 bytes, swapped, written and read.
// A format comes as its two numbers: each entry refuses what is none.
#![tactic(auto)]

ghost use Rattle.byte_order.specs.Meaning.{little_of, big_of};
ghost use Rattle.byte_order.specs.Promise.{Swap, FromLe, FromBe, Stored};

mod bytes;
mod sized;

use format::{Answered, Format, Raw};

// The W / 8 bytes of a in the other order
pub fn swap_bytes<R: Raw>(a: R, width: u32, frac: u32) -> Answered<R>
    ensures { Swap R.kind a width frac result }
{
    let format = Format::new(width, frac)?;
    let low = bytes::low_bits(a, format);
    bytes::wrapped(bytes::turned(low, format), format)
}

// The W / 8 bytes of a to the front of the buffer, the highest first; 5 where they do not fit. The answer is how many.
pub fn to_be_bytes<R: Raw>(a: R, width: u32, frac: u32, out: &mut [u8]) -> Answered<u64>
    ensures { Stored (big_of width (R.kind.number_of a)) width frac out.old out.new result }
{
    let format = sized::at_most(width, frac, out.len())?;
    let word = bytes::low_bits(a, format).to_be_bytes();
    Ok(bytes::store(&word[8 - sized::size(width)..], out))
}

// The same with the lowest byte first
pub fn to_le_bytes<R: Raw>(a: R, width: u32, frac: u32, out: &mut [u8]) -> Answered<u64>
    ensures { Stored (little_of width (R.kind.number_of a)) width frac out.old out.new result }
{
    let format = sized::at_most(width, frac, out.len())?;
    let word = bytes::low_bits(a, format).to_le_bytes();
    Ok(bytes::store(&word[..sized::size(width)], out))
}

// The raw of W / 8 bytes, the first one highest; 5 for another number of bytes
pub fn from_be_bytes<R: Raw>(bytes: &[u8], width: u32, frac: u32) -> Answered<R>
    ensures { FromBe R.kind bytes.now width frac result }
{
    let format = sized::exactly(width, frac, bytes.len())?;
    let low = bytes::read(bytes);
    bytes::wrapped(bytes::turned(low, format), format)
}

// The same with the lowest byte first
pub fn from_le_bytes<R: Raw>(bytes: &[u8], width: u32, frac: u32) -> Answered<R>
    ensures { FromLe R.kind bytes.now width frac result }
{
    let format = sized::exactly(width, frac, bytes.len())?;
    bytes::wrapped(bytes::read(bytes), format)
}
