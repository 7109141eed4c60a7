// The numbers of a format as f32 and f64 patterns, carried as u32 and u64 integers: nearest, ties to even.
// A format comes as its two numbers: each entry refuses what is none.
#![tactic(auto)]

ghost use Rattle.std.specs.Prelude.{◌≡◌};
ghost use Rattle.format.specs.Meaning.{answered, unsigned_kind};
ghost use Rattle.float.specs.Formats.{binary_of};
ghost use Rattle.float.specs.Parts.{Roomy};
ghost use Rattle.to_float.specs.Meaning.{to_float_of};
ghost use Rattle.to_float.specs.Promise.{ToF32, ToF64};

mod encode;

use encode::Encoder;
use float::pattern::Binary;
use format::{Answered, Format, Raw};

// The pattern of a raw's number, as the answer's value. C has both names, over one body.
pub fn to_f32<R: Raw>(raw: R, width: u32, frac: u32) -> Answered<u64>
    ensures { ToF32 R.kind raw width frac result }
{
    to(Binary::F32, raw, width, frac)
}

pub fn to_f64<R: Raw>(raw: R, width: u32, frac: u32) -> Answered<u64>
    ensures { ToF64 R.kind raw width frac result }
{
    to(Binary::F64, raw, width, frac)
}

fn to<R: Raw>(binary: Binary, raw: R, width: u32, frac: u32) -> Answered<u64>
    requires { Roomy binary.precision binary.field }
    ensures { result ≡ answered unsigned_kind (to_float_of (binary_of binary) width frac (R.kind.number_of raw)) }
{
    let format = Format::new(width, frac)?;
    let encoder = Encoder { binary, format };
    let size = raw.magnitude();
    let neg = raw.is_below();
    Ok(encoder.encode(neg, size).into())
}
