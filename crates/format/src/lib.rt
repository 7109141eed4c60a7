// Formats, manners and answers, and `settle`: an exact number into a format in a manner.
#![tactic(auto)]

ghost use Rattle.std.specs.Prelude.{◌≡◌, true, false, ◌+◌, ◌*◌, ◌^◌, ◌≤◌};
ghost use Rattle.wide.specs.Meaning.{value_of};
ghost use Rattle.format.specs.Meaning.{settle, exact, answered, with_sign, wrap};
ghost use Rattle.format.specs.Promise.{IsWidth, Check, Settle};

mod place;
pub mod raw;
pub mod refusal;
pub mod shape;

pub use raw::Raw;
pub use refusal::Refusal;
pub use shape::Format;
use wide::Wide;

// How a result that may not fit is answered (01, "Domain and numbers").
#[derive(Clone, Copy, Debug, PartialEq, Eq)]
pub enum Manner {
    Strict,
    Saturating,
    Wrapping,
    Overflowing,
}

// An answer that is no refusal: the raw with its flag. Counts and patterns are answered so too, with the flag clear.
#[derive(Clone, Copy, Debug, PartialEq, Eq)]
pub struct Answer<R> {
    pub raw: R,
    pub flag: bool,
}

// A raw with the flag clear.
impl<R> From<R> for Answer<R> {
    ghost from_gives = { λ raw answer. answer ≡ record { raw = raw; flag = false } };

    fn from(raw: R) -> Answer<R> {
        Answer { raw, flag: false }
    }
}

// What a public function answers: an answer, or the refusal.
pub type Answered<R> = Result<Answer<R>, Refusal>;

// A whole number before it is in a format: its sign, and its magnitude as two words. The words stand apart, and in no
// `Wide`: C hands over three fields (`tq_settle_signed`), of which the promise `Settle` speaks.
#[derive(Clone, Copy, Debug, PartialEq, Eq)]
pub struct Exact {
    pub neg: bool,
    pub high: u64,
    pub low: u64,
}

// A number of 128 bits with its sign.
impl From<i128> for Exact {
    ghost from_gives = { λ n x. exact x.neg x.high x.low ≡ n };

    fn from(n: i128) -> Exact {
        Exact::new(n < 0, n.unsigned_abs().into())
    }
}

impl Exact {
    // The number of this sign and magnitude.
    pub fn new(neg: bool, size: Wide) -> Exact
        ensures { exact result.neg result.high result.low ≡ with_sign neg (value_of size) }
    {
        Exact {
            neg,
            high: size.high,
            low: size.low,
        }
    }

    // Its magnitude.
    pub fn size(self) -> Wide
        ensures { value_of result ≡ self.high * 2 ^ 64 + self.low }
    {
        Wide {
            high: self.high,
            low: self.low,
        }
    }
}

// Whether there is such a format: 1 where the width is none of the four, then 2 where the fraction bits are above it.
pub fn check(width: u32, frac: u32) -> Result<(), Refusal>
    ensures { Check width frac result }
{
    if !is_width(width) {
        return Err(Refusal::WrongWidth);
    }
    if width < frac {
        return Err(Refusal::WrongFrac);
    }
    Ok(())
}

// Whether a width is one of the four.
pub fn is_width(width: u32) -> bool
    ensures { IsWidth width result }
{
    matches!(width, 8 | 16 | 32 | 64)
}

// The number into the format, in the manner; 1 or 2 where the format is none.
#[inline(always)]
pub fn settle<R: Raw>(x: Exact, width: u32, frac: u32, manner: Manner) -> Answered<R>
    ensures { Settle R.kind x.neg x.high x.low width frac manner result }
{
    let format = Format::new(width, frac)?;
    fit(x, format, manner)
}

// The same where the format is known to be one. Inlined, as `settle` is: a call would hand the number and the answer
// over in memory, and take twice the time of a sum.
#[inline(always)]
pub fn fit<R: Raw>(x: Exact, format: Format, manner: Manner) -> Answered<R>
    ensures { result ≡ answered R.kind (settle manner R.kind.sign format.width (exact x.neg x.high x.low)) }
{
    let end = R::end(x.neg, format);
    let within = place::within(x.high, x.low, end);
    match manner {
        Manner::Strict => {
            let size = within.ok_or(Refusal::Overflow)?;
            Ok(R::with_sign(x.neg, size, format).into())
        }
        Manner::Saturating => {
            let size = within.unwrap_or(end);
            Ok(R::with_sign(x.neg, size, format).into())
        }
        Manner::Wrapping => Ok(wrapped::<R>(x, format).into()),
        Manner::Overflowing => Ok(Answer {
            raw: wrapped(x, format),
            flag: within.is_none(),
        }),
    }
}

// The raw of the format that is congruent to the number: what wrapping makes of it.
pub fn wrapped<R: Raw>(x: Exact, format: Format) -> R
    ensures { result ≡ R.kind.raw_of (wrap R.kind.sign format.width (exact x.neg x.high x.low)) }
{
    R::of_residue(place::residue(x.neg, x.low, format), format)
}
