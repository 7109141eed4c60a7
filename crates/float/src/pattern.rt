// What a pattern says: its sign, its biased exponent E and its trailing significand T
// are parts of one number, by shifts and masks.
ghost use Rattle.std.specs.Prelude.{◌≡◌, ◌-◌, ◌^◌, ◌≤◌};
ghost use Rattle.float.specs.Parts.{Small};

use crate::{bits, rounding};
use format::Format;
use wide::Wide;

// E of an infinity or a NaN.
pub fn last(field: u32) -> u32
    requires { field ≤ 11 }
    ensures { result ≡ 2 ^ field - 1 }
{
    (1 << field) - 1
}

// A format of patterns that one word holds: the precision p and the width of the exponent field.
#[derive(Clone, Copy)]
pub struct Binary {
    pub precision: u32,
    pub field: u32,
    pub ghost small: { Small precision field },
}

impl Binary {
    ghost use Rattle.std.specs.Prelude.{◌+◌, ◌<◌};
    ghost use Rattle.float.specs.Meaning.{negative as negativeOf, biased as biasedOf};
    ghost use Rattle.float.specs.Meaning.{trailing as trailingOf, least as leastOf};
    ghost use Rattle.float.specs.Parts.{Significand, magnitude_of};
    ghost use Rattle.float.specs.Formats.{binary_of};
    ghost use Rattle.float.specs.Folds.{Folds};

    pub const F32: Self = Binary {
        precision: 24,
        field: 8,
    };

    pub const F64: Self = Binary {
        precision: 53,
        field: 11,
    };

    // The sign's bit.
    pub fn sign(self) -> u64
        ensures { result ≡ 2 ^ (self.field + (self.precision - 1)) }
    {
        bits::power(self.field + (self.precision - 1))
    }

    pub fn negative(self, pattern: u64) -> bool
        ensures { result ≡ negativeOf (binary_of self) pattern }
    {
        self.sign() <= pattern
    }

    #[tactic(auto, using(format::specs::Place::masked))]
    pub fn biased(self, pattern: u64) -> u32
        ensures { result ≡ biasedOf (binary_of self) pattern }
    {
        // `as`: after the mask there is nothing that a `try_from` could refuse
        ((pattern >> (self.precision - 1)) & bits::ones(self.field)) as u32
    }

    #[tactic(auto, using(format::specs::Place::masked))]
    pub fn trailing(self, pattern: u64) -> u64
        ensures { result ≡ trailingOf (binary_of self) pattern }
    {
        pattern & bits::ones(self.precision - 1)
    }

    // The magnitude x 2^F, rounded: an infinity counts as 2^64, which is past every format.
    pub fn magnitude(self, pattern: u64, format: Format) -> Wide
        ensures { Folds (magnitude_of (binary_of self) format.frac pattern) result }
    {
        let e = self.biased(pattern);
        if e == last(self.field) {
            return Wide { high: 1, low: 0 };
        }
        let m = self.significand(e, self.trailing(pattern));
        // how far it stands above the least positive number: a subnormal one as the first normal ones
        let place = e.saturating_sub(1);
        rounding::scaled(m, format.frac + place, self.least())
    }

    // T with the leading one before it, which a subnormal number has not.
    fn significand(self, e: u32, t: u64) -> u64
        requires { t < 2 ^ (self.precision - 1) }
        ensures { Significand self.precision e t result }
    {
        if e == 0 {
            return t;
        }
        bits::power(self.precision - 1) + t
    }

    // The least positive number is 2^-least.
    pub fn least(self) -> u32
        ensures { result ≡ leastOf (binary_of self) }
    {
        last(self.field - 1) + self.precision - 2
    }
}
