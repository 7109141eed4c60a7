// The exact writer of document 01, module 6: a raw as the decimal text of its number.
// A format comes as its two numbers: each entry refuses what is none.
#![tactic(auto)]

ghost use Rattle.std.specs.Prelude.{◌≡◌, ◌<◌};
ghost use Rattle.decimal.specs.Meaning.{byte_of, raw_text};
ghost use Rattle.decimal.specs.Promise.{Write};
ghost use Rattle.decimal.specs.Laid.{laid};

use format::{Answered, Format, Raw, Refusal};
use layout::{Layout, PLACES};

mod fraction;
mod layout;
mod whole;

// The text of raw / 2^frac into `out`; done with the number of bytes written. Refused: 1 and 2 for the
// format, then 5 where `out` is shorter than the text. Nothing is written before the length is known.
// By a test of the length: behind `out.get_mut(..count)`, tried, a proof knows how long `out` is and not its bytes.
pub fn write<R: Raw>(raw: R, width: u32, frac: u32, out: &mut [u8]) -> Answered<u64>
    ensures { Write R.kind raw width frac out.old result out.new }
{
    let format = Format::new(width, frac)?;
    let mut places = [0; PLACES];
    let text = laid_out(&mut places, raw, format).into_text();
    if out.len() < text.len() {
        return Err(Refusal::WrongLength);
    }
    let count = text.len();
    out[..count].copy_from_slice(text);
    Ok((count as u64).into())
}

// The text in its layout.
fn laid_out<'a, R: Raw>(places: &'a mut [u8; PLACES], raw: R, format: Format) -> Layout<'a>
    ensures { laid result ≡ raw_text (R.kind.number_of raw) format.frac }
{
    let neg = raw.is_below();
    let size = raw.magnitude();
    let mut text = Layout::new(places);
    fraction::write(&mut text, size, format);
    whole::write(&mut text, size, format.frac);
    if neg {
        text.prepend(b'-');
    }
    text
}

// A digit as a byte: `char::from_digit` would be an Option of a char, to be opened and narrowed.
fn byte(digit: u64) -> u8
    requires { digit < 10 }
    ensures { result ≡ byte_of digit }
{
    digit as u8 + b'0'
}
