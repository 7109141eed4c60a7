// A number of any size, folded into one word: what it is modulo 2^64, and whether it is past that. No format needs more
// of it. body.rt walks the digits of a text and folds them. Inner functions of the readers.
#![tactic(auto)]

ghost use Rattle.std.specs.Prelude.{◌≡◌, ◌+◌, ◌*◌, ◌^◌, ◌<◌};
ghost use Rattle.wide.specs.Meaning.{value_of};
ghost use Rattle.fold.specs.Fold.{fold_of, folded_value};
ghost use Rattle.fold.specs.Round.{round_by};

use std::cmp::Ordering;
use wide::Wide;

pub mod body;

// Both parts count wherever it is past a word, so it is no Option: a wrapped raw is made of `low`.
#[derive(Clone, Copy)]
pub struct Folded {
    pub low: u64,
    pub over: bool,
}

// A number of one word.
impl From<u64> for Folded {
    ghost from_gives = { λ word x. x ≡ fold_of word };

    fn from(word: u64) -> Folded {
        Folded {
            low: word,
            over: false,
        }
    }
}

// Two words that a format settles to the same: past one word there is a second.
impl From<Folded> for Wide {
    ghost from_gives = { λ x w. value_of w ≡ folded_value x };

    fn from(x: Folded) -> Wide {
        Wide {
            high: u64::from(x.over),
            low: x.low,
        }
    }
}

impl Folded {
    // self * m + d, which two words hold. Once past 2^64, a number stays past it.
    pub fn times(self, m: u64, d: u64) -> Folded
        requires { 0 < m }
        ensures { result ≡ fold_of (folded_value self * m + d) }
    {
        let sum = wide::add(wide::mul(self.low, m), d.into());
        Folded {
            low: sum.low,
            over: self.over || 0 < sum.high,
        }
    }

    // self + b.
    pub fn plus(self, b: u64) -> Folded
        ensures { result ≡ fold_of (folded_value self + b) }
    {
        self.times(1, b)
    }

    // self * 2^k, for every k.
    pub fn scaled(self, k: u64) -> Folded
        ensures { result ≡ fold_of (folded_value self * 2 ^ k) }
    {
        if k < 64 {
            return self.times(wide::shl_word(1, k as u32), 0);
        }
        Folded {
            low: 0,
            over: self.over || 0 < self.low,
        }
    }

    // The number or the next, by how the fraction that was cut off compares with one
    // half. The number's own last bit decides a tie.
    pub fn rounded(self, how: Ordering) -> Folded
        ensures { result ≡ fold_of (round_by how (folded_value self)) }
    {
        let carry = match how {
            Ordering::Less => 0,
            Ordering::Equal => self.low % 2,
            Ordering::Greater => 1,
        };
        self.plus(carry)
    }
}
