// What both signs share: a number's magnitude against the limit on its side, and its residue modulo 2^W.
ghost use Rattle.std.specs.Prelude.{◌≡◌};
ghost use Rattle.format.specs.Place.{residue as residue_of, within_of};

use crate::shape::Format;

// The magnitude of two words, where it is within the limit.
pub(crate) fn within(high: u64, low: u64, limit: u64) -> Option<u64>
    ensures { result ≡ within_of high low limit }
{
    let inside = low <= limit;
    if high == 0 && inside { Some(low) } else { None }
}

// The number modulo 2^W. The high word does not matter: 2^64 is a whole number of 2^W.
pub(crate) fn residue(neg: bool, low: u64, format: Format) -> u64
    ensures { result ≡ residue_of neg low format.width }
{
    let all = format.top();
    if neg {
        low.wrapping_neg() & all
    } else {
        low & all
    }
}
