// The point and the digits after it.
ghost use Rattle.std.specs.Prelude.{◌≡◌, ◌++◌, ◌-◌, ◌*◌, ◌%◌, ◌^◌, ◌≤◌};
ghost use Rattle.decimal.specs.Meaning.{fraction_text};
ghost use Rattle.decimal.specs.Laid.{laid};
ghost use Rattle.decimal.specs.Layout.{Ends, word_text};

use crate::layout::{Layout, POINT};
use format::Format;

// The point and the digits of the fraction behind the text, nothing for 0.
pub(crate) fn write(text: &mut Layout, magnitude: u64, format: Format)
    requires { text.old.end ≤ POINT }
    ensures start { text.new.start ≡ text.old.start }
    ensures text { laid text.new ≡ laid text.old ++ fraction_text format.frac (magnitude % 2 ^ format.frac) }
{
    digits(text, scaled(magnitude, format), format.frac);
}

// The fraction as a fraction of 64 bits: the shift drops the whole part.
fn scaled(magnitude: u64, format: Format) -> u64
    ensures { result ≡ magnitude % 2 ^ format.frac * 2 ^ (64 - format.frac) }
{
    magnitude.unbounded_shl(64 - format.frac)
}

// The digits of fraction / 2^64, two at a time: the word above a hundred times what is left, until nothing is left.
// Where the number of digits is odd, the last pair has a zero to spare. `frac` is there for the clauses, which say by
// it how many digits there are.
fn digits(text: &mut Layout, fraction: u64, frac: u32)
    requires bits { frac ≤ 64 }
    requires room { text.old.end ≤ POINT }
    requires ends { Ends frac (2 ^ 64) fraction }
    ensures start { text.new.start ≡ text.old.start }
    ensures text { laid text.new ≡ laid text.old ++ word_text frac fraction }
{
    if fraction == 0 {
        return;
    }
    text.append(b'.');
    let mut rest = fraction;
    // no index is counted: it runs on what is left
    while rest != 0 {
        let next = wide::mul(rest, 100);
        text.append(crate::byte(next.high / 10));
        text.append(crate::byte(next.high % 10));
        rest = next.low;
    }
    text.drop_zero();
}
