// The pattern of a number of a fixed-point format, as one number: such a number is 0 or normal,
// so nothing is subnormal and nothing overflows.
ghost use Rattle.std.specs.Prelude.{◌≡◌, ◌*◌, ◌^◌, ◌≤◌};
ghost use Rattle.float.specs.Parts.{Roomy};

use float::pattern::Binary;
use float::rounding;
use format::Format;

// A format of numbers, and a format of patterns with room for each of them.
#[derive(Clone, Copy)]
pub(crate) struct Encoder {
    pub binary: Binary,
    pub format: Format,
    pub ghost room: { Roomy binary.precision binary.field },
}

impl Encoder {
    ghost use Rattle.laws.specs.Nearest.{nearest_even};
    ghost use Rattle.float.specs.Formats.{binary_of};
    ghost use Rattle.to_float.specs.Meaning.{pattern_of};
    ghost use Rattle.to_float.specs.Encoding.{Digits, Encoded, place_of};

    // Of the number with this sign and the magnitude size / 2^F.
    pub(crate) fn encode(self, neg: bool, size: u64) -> u64
        ensures { result ≡ pattern_of (binary_of self.binary) neg size self.format.frac }
    {
        let magnitude = self.of_magnitude(size);
        if neg {
            return self.binary.sign() + magnitude;
        }
        magnitude
    }

    // The significand is added to its place. Its leading one counts as one more in the exponent, so the place is that
    // much lower; and where rounding carries to 2^p, the carry goes into the exponent by itself.
    fn of_magnitude(self, size: u64) -> u64
        ensures { Encoded self.binary.precision self.binary.field size self.format.frac result }
    {
        if size == 0 {
            return 0;
        }
        let digits = 64 - size.leading_zeros();
        let place = u64::from(self.place(digits));
        (place << (self.binary.precision - 1)) + self.significand(size, digits)
    }

    // Where the significand's last digit stands, in steps of the least positive number.
    fn place(self, digits: u32) -> u32
        requires { digits ≤ 64 }
        ensures { result ≡ place_of self.binary.precision self.binary.field self.format.frac digits }
    {
        digits + (self.binary.least() - self.format.frac) - self.binary.precision
    }

    // The p leading of the digits, rounded: 2^(p-1) to 2^p.
    fn significand(self, size: u64, digits: u32) -> u64
        requires { Digits size digits }
        ensures { result ≡ nearest_even (size * 2 ^ self.binary.precision) (2 ^ digits) }
    {
        if digits <= self.binary.precision {
            return size << (self.binary.precision - digits);
        }
        rounding::nearest(size, digits - self.binary.precision)
    }
}
