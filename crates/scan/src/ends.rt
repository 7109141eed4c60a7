// The end of the text, before the mark and after it: a text with no digits
// is none, nor is a mark with no digit after it.
ghost use Rattle.std.specs.Prelude.{◌≡◌};
ghost use Rattle.scan.specs.Found.{no_digits, unmarked_of, exp_end_of};

use crate::{Found, Parsed};
use format::Refusal;

#[tactic(auto, unfolding(crate::specs::Found::no_digits))]
fn no_digits(p: Parsed) -> bool
    ensures { result ≡ no_digits p }
{
    p.whole.digits == 0 && p.frac.digits == 0
}

// Before the mark: a text with no digits is none.
#[tactic(auto, unfolding(crate::specs::Found::unmarked_of))]
pub(crate) fn unmarked(p: Parsed) -> Found
    ensures { result ≡ unmarked_of p }
{
    if no_digits(p) {
        return Err(Refusal::NoDigits);
    }
    Ok(p)
}

// The end of the exponent: a text with no digits is none, nor is a mark with no digit after it. `seen` and `e` as the
// last `exponent::exp_step` left them.
#[tactic(auto, unfolding(crate::specs::Found::exp_end_of))]
pub(crate) fn exp_end(p: Parsed, seen: bool, e: u64) -> Found
    ensures { result ≡ exp_end_of p seen e }
{
    if no_digits(p) {
        return Err(Refusal::NoDigits);
    }
    if seen {
        return Ok(Parsed { exp: e, ..p });
    }
    Err(Refusal::ExpNoDigits)
}
