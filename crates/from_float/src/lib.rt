// f32 and f64 patterns, carried as u32 and u64 integers, into a format: nearest, ties to even.
// A format comes as its two numbers: each entry refuses what is none.
#![tactic(auto)]

ghost use Rattle.std.specs.Prelude.{◌≡◌};
ghost use Rattle.format.specs.Meaning.{answered};
ghost use Rattle.float.specs.Formats.{binary_of};
ghost use Rattle.from_float.specs.Meaning.{from_float_of};
ghost use Rattle.from_float.specs.Promise.{F32, F64};

mod refusal;

use float::pattern::Binary;
use format::{Answered, Exact, Format, Manner, Raw};

// C has both names, over one body.
pub fn from_f32<R: Raw>(pattern: u32, width: u32, frac: u32, manner: Manner) -> Answered<R>
    ensures { F32 R.kind pattern width frac manner result }
{
    from(Binary::F32, u64::from(pattern), width, frac, manner)
}

pub fn from_f64<R: Raw>(pattern: u64, width: u32, frac: u32, manner: Manner) -> Answered<R>
    ensures { F64 R.kind pattern width frac manner result }
{
    from(Binary::F64, pattern, width, frac, manner)
}

// Rounded first, and fitted then. Inlined: a call would hand the answer over in memory, and take a third more time.
#[inline(always)]
fn from<R: Raw>(binary: Binary, pattern: u64, width: u32, frac: u32, manner: Manner) -> Answered<R>
    ensures { result ≡ answered R.kind (from_float_of (binary_of binary) manner R.kind.sign width frac pattern) }
{
    let format = Format::new(width, frac)?;
    refusal::of_pattern(binary, pattern, manner)?;
    let magnitude = binary.magnitude(pattern, format);
    let exact = Exact::new(binary.negative(pattern), magnitude);
    format::fit(exact, format, manner)
}
