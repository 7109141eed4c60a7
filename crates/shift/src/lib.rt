// Shifts of document 01, module 4: the raw times or over a power of two,
// wrapped; the count alone is refused or flagged.
// A format comes as its two numbers: each entry refuses what is none.
#![tactic(auto)]

ghost use Rattle.std.specs.Prelude.{◌≡◌, IfOk, IfErr};
ghost use Rattle.format.specs.Meaning.{answered, done, wrap, exact, LetsThrough, Refuses};
ghost use Rattle.shift.specs.Meaning.{count_flag};
ghost use Rattle.shift.specs.Refusals.{shift_fault};
ghost use Rattle.shift.specs.Promise.{Shl, Shr};

use format::{Answer, Answered, Exact, Format, Manner, Raw, Refusal};

// a * 2^n, wrapped, for n the count modulo the width
pub fn shl<R: Raw>(a: R, count: u32, width: u32, frac: u32, manner: Manner) -> Answered<R>
    ensures { Shl R.kind a count width frac manner result }
{
    let format = counted(count, width, frac, manner)?;
    let shifted = exact::shifted_left(exact::of(a), count % format.width);
    wrapped(shifted, count, format, manner)
}

// a / 2^n rounded toward minus infinity, wrapped, for n the count modulo the width
pub fn shr<R: Raw>(a: R, count: u32, width: u32, frac: u32, manner: Manner) -> Answered<R>
    ensures { Shr R.kind a count width frac manner result }
{
    let format = counted(count, width, frac, manner)?;
    let shifted = exact::floor(exact::of(a).into(), count % format.width);
    wrapped(shifted, count, format, manner)
}

// The format of a shift by count: its own refusals first, then 10 for a count past the width, in the strict manner and
// in the saturating one, which shifts have not.
fn counted(count: u32, width: u32, frac: u32, manner: Manner) -> Result<Format, Refusal>
    ensures ok { IfOk result (λ x. LetsThrough (shift_fault manner width frac count) width frac x.width x.frac) }
    ensures err { IfErr result (Refuses (shift_fault manner width frac count)) }
{
    let format = Format::new(width, frac)?;
    if count < width {
        return Ok(format);
    }
    match manner {
        Manner::Strict | Manner::Saturating => Err(Refusal::Overflow),
        Manner::Wrapping | Manner::Overflowing => Ok(format),
    }
}

// The number wrapped, with the flag of the count in place of the one that says whether the number fits.
fn wrapped<R: Raw>(x: Exact, count: u32, format: Format, manner: Manner) -> Answered<R>
    ensures { result ≡ answered R.kind
        (done (wrap R.kind.sign format.width (exact x.neg x.high x.low)) (count_flag manner format.width count)) }
{
    Ok(Answer {
        raw: format::wrapped(x, format),
        flag: flagged(count, format, manner),
    })
}

// The flag of a shift: it speaks of the count alone.
fn flagged(count: u32, format: Format, manner: Manner) -> bool
    ensures { result ≡ count_flag manner format.width count }
{
    matches!(manner, Manner::Overflowing) && count >= format.width
}
