// A raw in the steps of another format: a shift to the left is a sign and two
// words, a shift to the right stays in the word.
ghost use Rattle.std.specs.Prelude.{◌≡◌, ◌^◌};
ghost use Rattle.laws.specs.Floor.{floor};
ghost use Rattle.exact.specs.Meaning.{exact_of};
ghost use Rattle.convert.specs.Meaning.{steps_of};

use format::{Exact, Format, Raw};

pub trait Source: Raw {
    // The raw over 2^bits, rounded toward minus infinity.
    fn dropped(self, bits: u32) -> Self
        ensures { Self.kind.number_of result ≡ floor (Self.kind.number_of self) (2 ^ bits) };
}

// The shift copies the sign, so it rounds toward minus infinity. All 64 bits gone leave the sign.
impl Source for i64 {
    fn dropped(self, bits: u32) -> i64 {
        self.unbounded_shr(bits)
    }
}

impl Source for u64 {
    fn dropped(self, bits: u32) -> u64 {
        self.unbounded_shr(bits)
    }
}

pub(crate) fn steps<S: Source>(raw: S, from_frac: u32, format: Format) -> Exact
    ensures { exact_of result ≡ steps_of from_frac format.frac (S.kind.number_of raw) }
{
    if from_frac <= format.frac {
        return exact::shifted_left(exact::of(raw), format.frac - from_frac);
    }
    exact::of(raw.dropped(from_frac - format.frac)).into()
}
