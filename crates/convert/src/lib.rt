// Format to format (document 01, module 5): the number is kept, extra fraction
// bits are dropped, then the manner of `format`.
#![tactic(auto)]

ghost use Rattle.std.specs.Prelude.{IfOk, IfErr};
ghost use Rattle.format.specs.Meaning.{LetsThrough, Refuses};
ghost use Rattle.convert.specs.Meaning.{formats_fault};
ghost use Rattle.convert.specs.Promise.{Convert};

use format::{Answered, Format, Manner, Raw, Refusal};

pub mod source;

// The number of a raw in another format, signed or not. The formats come as numbers: what is none is refused here.
pub fn convert<S: source::Source, T: Raw>(
    raw: S,
    from_width: u32,
    from_frac: u32,
    width: u32,
    frac: u32,
    manner: Manner,
) -> Answered<T>
    ensures { Convert S.kind T.kind raw from_width from_frac width frac manner result }
{
    let format = formats(from_width, from_frac, width, frac)?;
    let steps = source::steps(raw, from_frac, format);
    format::fit(steps, format, manner)
}

// The format to convert to: 1 where either width is none, before 2 where either has more fraction bits than its width.
fn formats(from_width: u32, from_frac: u32, width: u32, frac: u32) -> Result<Format, Refusal>
    ensures ok { IfOk result
        (λ x. LetsThrough (formats_fault from_width from_frac width frac) width frac x.width x.frac) }
    ensures err { IfErr result (Refuses (formats_fault from_width from_frac width frac)) }
{
    if !format::is_width(from_width) || !format::is_width(width) {
        return Err(Refusal::WrongWidth);
    }
    if from_width < from_frac || width < frac {
        return Err(Refusal::WrongFrac);
    }
    Ok(Format { width, frac })
}
