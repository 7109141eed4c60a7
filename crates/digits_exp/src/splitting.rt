// A split of the second layer at a digit count.
ghost use Rattle.std.specs.Prelude.{◌≡◌, take, drop};
ghost use Rattle.digits_exp.specs.Meaning.{StandsExp};
ghost use Rattle.digits_exp.specs.Inner.{Held, cut_of};

use super::view::View;
use super::{Counts, DigitsExp};

// Zeros and two views of a text.
#[derive(Clone, Copy)]
pub(crate) struct Whole<'a> {
    pub(crate) text: &'a [u8],
    pub(crate) digits: DigitsExp,
    ghost one: { Held text.now digits.part1 },
    ghost two: { Held text.now digits.part2 },
}

// How many digits the first `mid` take of each of the four.
fn cut(d: DigitsExp, mid: usize) -> Counts
    ensures { result ≡ cut_of d mid }
{
    let after = mid.saturating_sub(d.leading_zeros);
    let beyond = after.saturating_sub(d.part1.digits);
    let past = beyond.saturating_sub(d.part2.digits);
    Counts {
        front: mid.min(d.leading_zeros),
        one: after.min(d.part1.digits),
        two: beyond.min(d.part2.digits),
        behind: past.min(d.trailing_zeros),
    }
}

impl<'a> Whole<'a> {
    ghost use Rattle.digits_exp.specs.Views.{exp_digits};

    // The first `mid` digits: all where there are fewer.
    pub(crate) fn upto(self, mid: usize) -> DigitsExp
        ensures { StandsExp self.entry.text.now result (take mid (exp_digits self.entry)) }
    {
        let Whole { text, digits: d } = self;
        let c = cut(d, mid);
        DigitsExp {
            leading_zeros: c.front,
            part1: View { text, at: d.part1 }.keep(c.one),
            part2: View { text, at: d.part2 }.keep(c.two),
            trailing_zeros: c.behind,
        }
    }

    // The digits after the first `mid`: none where there are fewer.
    pub(crate) fn from(self, mid: usize) -> DigitsExp
        ensures { StandsExp self.entry.text.now result (drop mid (exp_digits self.entry)) }
    {
        let Whole { text, digits: d } = self;
        let c = cut(d, mid);
        DigitsExp {
            leading_zeros: d.leading_zeros - c.front,
            part1: View { text, at: d.part1 }.skip(c.one),
            part2: View { text, at: d.part2 }.skip(c.two),
            trailing_zeros: d.trailing_zeros - c.behind,
        }
    }
}
