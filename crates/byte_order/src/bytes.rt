// The low W bits of a raw as bytes of a word, to a lent buffer and back.
ghost use Rattle.std.specs.Prelude.{◌≡◌, ◌/◌, ◌≤◌, ◌++◌, false, pos, length, drop};
ghost use Rattle.format.specs.Meaning.{answered, done, wrap};
ghost use Rattle.byte_order.specs.Meaning.{le_bytes, from_le, from_be, low_bits};

use format::{Answer, Answered, Format, Raw};

// The low W bits of a
pub(crate) fn low_bits<R: Raw>(a: R, format: Format) -> u64
    ensures { result ≡ low_bits format.width (R.kind.number_of a) }
{
    format::wrapped(exact::of(a).into(), format)
}

// The raw congruent to x.
pub(crate) fn wrapped<R: Raw>(x: u64, format: Format) -> Answered<R>
    ensures { result ≡ answered R.kind (done (wrap R.kind.sign format.width (pos x)) false) }
{
    Ok(format::wrapped::<R>(exact::of(x).into(), format).into())
}

// The W / 8 low bytes of x in the other order.
pub(crate) fn turned(x: u64, format: Format) -> u64
    ensures { result ≡ from_be 0 (le_bytes (format.width / 8) x) }
{
    x.swap_bytes() >> (64 - format.width)
}

// The number of these bytes, the first one lowest; `turned` makes of it that of the other order. Byte by byte from the
// last: a copy of so few into a word is a call.
pub(crate) fn read(bytes: &[u8]) -> u64
    requires { length bytes.now ≤ 8 }
    ensures { result ≡ from_le bytes.now }
{
    let mut word: u64 = 0;
    for byte in bytes.iter().rev() {
        word = word * 256 + u64::from(*byte);
    }
    word
}

// The bytes to the front of the buffer. The answer is how many.
pub(crate) fn store(bytes: &[u8], out: &mut [u8]) -> Answer<u64>
    requires { length bytes.now ≤ length out.now }
    ensures answer { result ≡ record { raw = length bytes.now; flag = false } }
    ensures buffer { out.new ≡ bytes.now ++ drop (length bytes.now) out.old }
{
    out[..bytes.len()].copy_from_slice(bytes);
    (bytes.len() as u64).into()
}
