// A raw in the code: an i64 in a signed format, a u64 in an unsigned one. What the two differ in, for a format to
// settle a number and for the arithmetic above to take one apart; everything else stands once for both.
ghost use Rattle.std.specs.Prelude.{◌≡◌, ◌≤◌, ◌<◌, ◌^◌, pos};
ghost use Rattle.std.specs.Int.{w64};
ghost use Rattle.std.specs.Int.Signed.{lt_z};
ghost use Rattle.std.proofs.Common.{SFits};
ghost use Rattle.format.specs.Meaning.{Kind, signed_kind, unsigned_kind, sign_by, with_sign};
ghost use Rattle.format.specs.Place.{residue_raw};
ghost use Rattle.format.specs.Promise.{Magnitude};
ghost use Rattle.format.specs.Theorems.{limit};

use crate::shape::Format;

pub trait Raw: Copy {
    ghost kind: { Kind Self };

    // Whether its formats are signed.
    fn signed() -> bool
        ensures { sign_by result ≡ kind.sign };

    // The magnitude of the end of the range on that side.
    fn end(neg: bool, format: Format) -> u64
        ensures { result ≡ limit kind.sign format.width neg };

    // The raw of this sign and magnitude.
    fn with_sign(neg: bool, magnitude: u64, format: Format) -> Self
        requires { magnitude ≤ limit kind.sign format.width neg }
        ensures { result ≡ kind.raw_of (with_sign neg magnitude) };

    // The raw that a residue modulo 2^W stands for.
    fn of_residue(bits: u64, format: Format) -> Self
        requires { bits < 2 ^ format.width }
        ensures { result ≡ kind.raw_of (residue_raw kind.sign bits format.width) };

    // Whether its number is below 0.
    fn is_below(self) -> bool
        ensures { result ≡ lt_z (kind.number_of self) (pos 0) };

    // |x|, of every raw: -2^63 has one too.
    fn magnitude(self) -> u64
        ensures { Magnitude (kind.number_of self) result };
}

impl Raw for u64 {
    ghost kind = { unsigned_kind };

    fn signed() -> bool {
        false
    }

    fn end(neg: bool, format: Format) -> u64 {
        if neg { 0 } else { format.top() }
    }

    fn with_sign(_neg: bool, magnitude: u64, _format: Format) -> u64 {
        magnitude
    }

    fn of_residue(bits: u64, _format: Format) -> u64 {
        bits
    }

    fn is_below(self) -> bool {
        false
    }

    fn magnitude(self) -> u64 {
        self
    }
}

impl Raw for i64 {
    ghost kind = { signed_kind };

    fn signed() -> bool {
        true
    }

    fn end(neg: bool, format: Format) -> u64 {
        let half = format.half();
        if neg { half } else { half - 1 }
    }

    fn with_sign(neg: bool, magnitude: u64, _format: Format) -> i64 {
        with_sign(neg, magnitude)
    }

    fn of_residue(bits: u64, format: Format) -> i64 {
        // the two cases of the definition; sign extension by two shifts has fewer words and is no plainer
        if bits < format.half() {
            with_sign(false, bits)
        } else {
            with_sign(true, format.top() - bits + 1)
        }
    }

    fn is_below(self) -> bool {
        self < 0
    }

    fn magnitude(self) -> u64 {
        self.unsigned_abs()
    }
}

// A magnitude with its sign; so -2^63, which has no positive counterpart, is reached too.
#[tactic(auto, unfolding(crate::specs::Meaning::with_sign))]
pub fn with_sign(neg: bool, magnitude: u64) -> i64
    requires { SFits w64 (with_sign neg magnitude) }
    ensures { result ≡ with_sign neg magnitude }
{
    if neg {
        -i128::from(magnitude) as i64
    } else {
        magnitude as i64
    }
}
