// A text to the nearest number of a format (document 01, module 2; S's src/from_str.rs). The scanner finds
// the digits; `bits` or `tens`, by the radix, makes the nearest raw of them, a number of any size that is
// carried folded into one word; the format settles it. A negative number is taken in an unsigned format where
// it rounds to 0. A format comes as its two numbers: each entry refuses what is none.
#![tactic(auto)]

ghost use Rattle.std.specs.Prelude.{◌≡◌};
ghost use Rattle.format.specs.Meaning.{answered};
ghost use Rattle.text.specs.Promise.{Read, Literal};
ghost use Rattle.text.specs.Read.{Readable, number_outcome};

use format::{Answered, Exact, Format, Manner, Raw};
use scan::Parsed;

mod early;
mod magnitude;

// The plain reader: a text in a radix, in a manner.
pub fn read<R: Raw>(text: &[u8], width: u32, frac: u32, radix: u32, manner: Manner) -> Answered<R>
    ensures { Read R.kind text.now width frac radix manner result }
{
    let format = early::plain(width, frac, radix, text.len())?;
    let p = scan::plain(text, radix)?;
    settled(text, p, radix, format, manner)
}

// The literal reader: strict, and the text says its radix.
pub fn read_literal<R: Raw>(text: &[u8], width: u32, frac: u32) -> Answered<R>
    ensures { Literal R.kind text.now width frac result }
{
    let format = early::literal(width, frac, text.len())?;
    let written = scan::literal::literal(text, R::signed());
    let p = written.found?;
    settled(text, p, written.radix, format, Manner::Strict)
}

// What the scanner found, into the format.
fn settled<R: Raw>(
    text: &[u8],
    p: Parsed,
    radix: u32,
    format: Format,
    manner: Manner,
) -> Answered<R>
    requires { Readable text.now p radix format.frac }
    ensures { result ≡ answered R.kind (number_outcome manner R.kind.sign format.width format.frac radix text.now p) }
{
    let magnitude = magnitude::magnitude(text, p, radix, format.frac);
    format::fit(Exact::new(p.neg, magnitude.into()), format, manner)
}
