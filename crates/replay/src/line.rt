// A line: the letter of its kind, then numbers, and last a text.
ghost use Rattle.std.specs.Prelude.{◌≤◌};

use crate::hex::Text;
use crate::kind::Kind;

// The format stands in every line. What follows is the kind's own: reader.rt, logarithm.rt.
pub(crate) const SIGNED: usize = 0;

pub(crate) const WIDTH: usize = 1;

pub(crate) const FRAC: usize = 2;

// How many numbers a line has at most; what follows is the text.
const NUMBERS: usize = 8;

// A number by its magnitude, as the raws of both signs are compared. The flag is a sign, so this is no Option.
#[derive(Clone, Copy, PartialEq, Eq)]
pub(crate) struct Number {
    pub below: bool,
    pub size: u64,
}

// `at` counts the fields before the one that comes: none before the kind's letter.
#[derive(Drop)]
pub(crate) struct Line {
    pub kind: Kind,
    pub numbers: [Number; NUMBERS],
    pub text: Text,
    pub at: usize,
    ghost inside: { at ≤ 9 },
}

impl Line {
    pub(crate) fn new() -> Line {
        Line {
            kind: Kind::Other,
            numbers: [Number::ZERO; NUMBERS],
            text: Text::new(),
            at: 0,
        }
    }

    // A new line: of the one before nothing counts any more. The room of the text is not zeroed: most lines are short.
    pub(crate) fn clear(&mut self) {
        self.kind = Kind::Other;
        self.numbers = [Number::ZERO; NUMBERS];
        self.text.clear();
        self.at = 0;
    }

    // The next field. Further blanks, as a comment has, stay in the last.
    pub(crate) fn next(&mut self) {
        if self.at <= NUMBERS {
            self.at += 1;
        }
    }

    // One more byte of a field: the letter, a sign or a digit of a number, a digit of the text.
    pub(crate) fn put(&mut self, b: u8) {
        if self.at == 0 {
            self.kind = Kind::from(b);
        } else if self.at <= NUMBERS {
            let number = self.numbers[self.at - 1];
            self.numbers[self.at - 1] = number.longer(b);
        } else {
            self.text.put(b);
        }
    }
}

impl Number {
    // What a field that is not there is.
    pub(crate) const ZERO: Number = Number {
        below: false,
        size: 0,
    };

    // The number with one digit more, or a sign. Beyond a word, where no stored number is, it is some other.
    fn longer(self, b: u8) -> Number {
        if b == b'-' {
            return Number {
                below: true,
                ..self
            };
        }
        let digit = u64::from(b.saturating_sub(b'0'));
        let size = self
            .size
            .checked_mul(10)
            .map_or(0, |tens| tens.wrapping_add(digit));
        Number { size, ..self }
    }

    // As a number of 32 bits, or the greatest, which is no width, no place of the point and no radix.
    pub(crate) fn small(self) -> u32 {
        u32::try_from(self.size).unwrap_or(u32::MAX)
    }
}
