// One output: the exact sum, rounded once, held once.
ghost use Rattle.std.specs.Prelude.{◌≡◌, ◌*◌, ◌^◌, ◌≤◌, nat_abs, ◌*ℤ◌, length};
ghost use Rattle.filter.specs.Meaning.{most_taps, sum_of, rounded, level_of};
ghost use Rattle.filter.specs.Sum.{held_of};

use super::taps::Taps;

// An output, and whether holding changed it: no Option, since a clipped output has its value too.
#[derive(Clone, Copy)]
pub(crate) struct Held {
    pub value: i16,
    pub clipped: bool,
}

// The exact product of a tap and a sample: at most 2^30 either way.
fn product(tap: i16, sample: i16) -> i64
    ensures { result ≡ tap *ℤ sample }
{
    i64::from(i32::from(tap) * i32::from(sample))
}

// The exact sum of the products. By the tap's place: over a `zip` the compiler takes two products a turn in place of
// four, and a turn so short takes up to twice its time where the code stands badly.
fn dot(taps: &[i16], line: &[i16]) -> i64
    requires few_taps { length taps.now ≤ most_taps }
    requires enough_samples { length taps.now ≤ length line.now }
    ensures value { result ≡ sum_of taps.now line.now }
    ensures bound { nat_abs result ≤ most_taps * 2 ^ 30 }
{
    let mut sum: i64 = 0;
    for (i, tap) in taps.iter().enumerate() {
        sum += product(*tap, line[i]);
    }
    sum
}

// P / 2^15 to the nearest, ties to even: half a step less one is added, and one more where the whole part is odd.
// The shifts copy the sign, so they go down.
fn round(p: i64) -> i64
    requires { nat_abs p ≤ most_taps * 2 ^ 30 }
    ensures { result ≡ rounded p }
{
    let odd = (p >> 15) & 1;
    (p + 16383 + odd) >> 15
}

// The output before it is held.
pub fn level(taps: &[i16], line: &[i16]) -> i64
    requires few_taps { length taps.now ≤ most_taps }
    requires enough_samples { length taps.now ≤ length line.now }
    ensures { result ≡ level_of taps.now line.now }
{
    round(dot(taps, line))
}

// A number held to the range of a sample, and whether that changed it, which `clamp` does not tell.
fn hold(y: i64) -> Held
    ensures { result ≡ held_of y }
{
    let value = y.clamp(-32768, 32767) as i16;
    Held {
        value,
        clipped: i64::from(value) != y,
    }
}

// The output for a line of samples, with its clip flag.
pub(crate) fn output(taps: &Taps<'_>, line: &[i16]) -> Held
    requires { length line.now ≡ most_taps }
    ensures { result ≡ held_of (level_of taps.now line.now) }
{
    hold(level(taps.raws(), line))
}
