// The exponent of a text, a byte at a time: a digit takes it further, a `_` that is skipped leaves it, anything else
// is refused. An inner function of the scanner.
#![tactic(auto)]

ghost use Rattle.std.specs.Prelude.{◌≡◌, ◌≤◌};
ghost use Rattle.grammar.specs.Meaning.{exp_limit};
ghost use Rattle.exponent.specs.Exponent.{exp_digit, exp_other, exp_step_of};

use format::Refusal;
use grammar::byte;
use grammar::byte::Class;

// A step of the exponent: what it is after the byte, or a refusal.
pub type ExpStep = Result<u64, Refusal>;

// The largest magnitude of an exponent, an i32's.
fn exp_limit(down: bool) -> u64
    ensures { result ≡ exp_limit down }
{
    if down { 2147483648 } else { 2147483647 }
}

#[tactic(auto, unfolding(crate::specs::Exponent::exp_digit))]
fn exp_digit(down: bool, e: u64, d: u32) -> ExpStep
    requires { e ≤ 2147483648 }
    ensures { result ≡ exp_digit down e d }
{
    let next = e * 10 + u64::from(d);
    if next <= exp_limit(down) {
        Ok(next)
    } else {
        Err(Refusal::ExpOverflow)
    }
}

#[tactic(auto, unfolding(crate::specs::Exponent::exp_other, crate::specs::Exponent::exp_under))]
fn exp_other(class: Class, skip: bool, seen: bool, e: u64) -> ExpStep
    ensures { result ≡ exp_other class skip seen e }
{
    match class {
        Class::Sign => Err(Refusal::MisplacedSign),
        Class::Mark(_) => Err(Refusal::TooManyExp),
        Class::Underscore if skip && seen => Ok(e),
        Class::Underscore if skip => Err(Refusal::MisplacedUnderscore),
        Class::Point | Class::Underscore | Class::Other => Err(Refusal::ExpInvalidDigit),
    }
}

// One byte of the exponent, whose digits are decimal in every radix. `radix` and `skip` are scan's `Reader` taken apart
// here alone, as in `run::run_at`, which says why. `seen` and `e` are two parameters, and no Option: the promise is
// `exp_step_of`, which has both, as it has `down` beside `e` (`scan::Parsed` says why).
#[tactic(auto, unfolding(crate::specs::Exponent::exp_step_of, grammar::specs::Class::digit))]
pub fn exp_step(b: u8, radix: u32, skip: bool, seen: bool, down: bool, e: u64) -> ExpStep
    requires { e ≤ 2147483648 }
    ensures { result ≡ exp_step_of skip radix seen down e b }
{
    match byte::digit(b, 10) {
        Some(d) => exp_digit(down, e, d),
        None => exp_other(byte::class_of(b, radix), skip, seen, e),
    }
}
