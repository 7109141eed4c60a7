// Whole numbers of a format: a raw rounded to units of 2^F steps, and its two parts; then the manner of `format`.
// A format comes as its two numbers: each entry refuses what is none.
#![tactic(auto)]

ghost use Rattle.std.specs.Prelude.{◌≡◌};
ghost use Rattle.exact.specs.Meaning.{number_of, exact_of};
ghost use Rattle.units.specs.Meaning.{int_part, frac_part};
ghost use Rattle.whole.specs.Promise.{Floor, Ceil, Round, Even, Int, Frac};
ghost use Rattle.whole.specs.Step.{StepFitted};

use exact::Number;
use format::{Answered, Exact, Format, Manner, Raw};

// The units at or below a
pub fn floor<R: Raw>(a: R, width: u32, frac: u32, manner: Manner) -> Answered<R>
    ensures { Floor R.kind a width frac manner result }
{
    stepped(a, width, frac, manner, units::floor)
}

// The units at or above a
pub fn ceil<R: Raw>(a: R, width: u32, frac: u32, manner: Manner) -> Answered<R>
    ensures { Ceil R.kind a width frac manner result }
{
    stepped(a, width, frac, manner, units::ceil)
}

// The units nearest to a, ties away from zero
pub fn round<R: Raw>(a: R, width: u32, frac: u32, manner: Manner) -> Answered<R>
    ensures { Round R.kind a width frac manner result }
{
    stepped(a, width, frac, manner, units::round)
}

// The units nearest to a, ties to even
pub fn round_ties_even<R: Raw>(a: R, width: u32, frac: u32, manner: Manner) -> Answered<R>
    ensures { Even R.kind a width frac manner result }
{
    stepped(a, width, frac, manner, units::round_ties_even)
}

// The integer part; 0 where the format has no integer bits
pub fn int<R: Raw>(a: R, width: u32, frac: u32, manner: Manner) -> Answered<R>
    ensures { Int R.kind a width frac manner result }
{
    stepped(a, width, frac, manner, int_in)
}

// What the integer part leaves of a
pub fn frac<R: Raw>(a: R, width: u32, frac: u32, manner: Manner) -> Answered<R>
    ensures { Frac R.kind a width frac manner result }
{
    stepped(a, width, frac, manner, frac_in)
}

// The two parts by a `Format`, as `stepped` hands it over; those of `units` are promised of every width up to 64.
fn int_in(x: Number, format: Format) -> Exact
    ensures { exact_of result ≡ int_part format.width format.frac (number_of x) }
{
    units::int(x, format.width, format.frac)
}

fn frac_in(x: Number, format: Format) -> Exact
    ensures { exact_of result ≡ frac_part format.width format.frac (number_of x) }
{
    units::frac(x, format.width, format.frac)
}

// What the step makes of a in its format, in the manner
fn stepped<R: Raw, F: FnOnce(Number, Format) -> Exact>(
    a: R,
    width: u32,
    frac: u32,
    manner: Manner,
    step: F,
) -> Answered<R>
    requires { F.IsAlwaysCallable step }
    ensures { StepFitted R.kind (F.post step) a width frac manner result }
{
    let format = Format::new(width, frac)?;
    format::fit(step(exact::of(a), format), format, manner)
}
