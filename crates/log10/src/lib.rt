// The logarithm of document 01, module 3: the greatest k with 10^k <= raw / 2^F.
// A format comes as its two numbers: the entry refuses what is none.
#![tactic(auto)]

ghost use Rattle.std.specs.Prelude.{◌≡◌, ◌+◌, ◌-◌, ◌*◌, ◌^◌, ◌≤◌, ◌<◌, pos, ◌-ℤ◌};
ghost use Rattle.log10.specs.Meaning.{reaches, log10_of};
ghost use Rattle.log10.specs.Promise.{Log10};

mod fives;

use format::{Answered, Format, Raw, Refusal};

// The greatest k with 10^k <= raw / 2^frac; below one, k is negative. Refused: 1 and 2 for the format, then 32 for zero
// or a negative number.
pub fn log10<R: Raw>(raw: R, width: u32, frac: u32) -> Answered<i64>
    ensures { Log10 R.kind raw width frac result }
{
    let format = Format::new(width, frac)?;
    let size = raw.magnitude();
    let below = raw.is_below();
    if below || size == 0 {
        return Err(Refusal::NotPositive);
    }
    Ok(of_positive(size, format).into())
}

// k of a value above zero, on either side of one: the raw's leading zeros give a guess, which is k or one less, and one
// comparison with the next power of ten tells which. Guesses count from 10^-20, the least power that a raw can need.
fn of_positive(raw: u64, format: Format) -> i64
    requires { 0 < raw }
    ensures { result ≡ log10_of raw format.frac }
{
    let guess = guess(raw.leading_zeros(), format.frac);
    let power = guess + u32::from(next_reached(raw, format.frac, guess));
    i64::from(power) - 20
}

// The greatest power of ten that is at most 2^(63 - zeros - frac), the value of the raw's highest bit: 1233 / 4096 is
// just below the logarithm of 2.
fn guess(zeros: u32, frac: u32) -> u32
    requires { (zeros < 64) × (frac ≤ 64) }
    ensures { (10 ^ result * 2 ^ 64 ≤ 2 ^ (127 - (zeros + frac)) * 10 ^ 20)
        × (2 ^ (127 - (zeros + frac)) * 10 ^ 20 < 10 ^ (result + 1) * 2 ^ 64)
        × (result < 39) × (20 ≤ frac + result) × (frac + result < 84) }
{
    (20 * 4096 + 1233 * (63 - zeros) - 1233 * frac) / 4096
}

// Whether raw / 2^F reaches 10^(guess - 19), the power above the guess. Ten is five times two: the fives stand on the
// side where they are whole, and the twos are part of the shift, so that no raw and no F needs more than a word.
fn next_reached(raw: u64, frac: u32, guess: u32) -> bool
    requires { (guess < 39) × (20 ≤ frac + guess) × (frac + guess < 84)
        × (raw * 5 ^ (19 - guess) < 2 ^ 64) }
    ensures { result ≡ reaches raw frac (pos guess -ℤ pos 19) }
{
    let (below, above) = fives::fives(guess);
    raw * below / 2 >> (frac + guess - 20) >= above
}
