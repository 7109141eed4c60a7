// The digits before the point.
ghost use Rattle.std.specs.Prelude.{◌≡◌, ◌++◌, ◌+◌, ◌/◌, ◌^◌, ◌≤◌, ◌<◌};
ghost use Rattle.decimal.specs.Meaning.{whole_text};
ghost use Rattle.decimal.specs.Laid.{laid};

use crate::layout::Layout;

// The digits of the whole part before the text. One place is left for a sign.
pub(crate) fn write(text: &mut Layout, magnitude: u64, frac: u32)
    requires { 20 < text.old.start }
    ensures room { 0 < text.new.start }
    ensures text { laid text.new ≡ whole_text (magnitude / 2 ^ frac) ++ laid text.old }
{
    digits(text, part(magnitude, frac));
}

// The whole part: with 64 fraction bits or more there is none.
fn part(magnitude: u64, frac: u32) -> u64
    ensures { result ≡ magnitude / 2 ^ frac }
{
    magnitude.unbounded_shr(frac)
}

// The digits of n, from the last one to the first.
fn digits(text: &mut Layout, n: u64)
    requires { 20 < text.old.start }
    ensures room { 0 < text.new.start }
    ensures text { laid text.new ≡ whole_text n ++ laid text.old }
{
    let mut rest = n;
    // no index is counted: it runs on what is left
    while 10 <= rest {
        text.prepend(crate::byte(rest % 10));
        rest /= 10;
    }
    text.prepend(crate::byte(rest));
}
