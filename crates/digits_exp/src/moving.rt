// An exponent moves digits between integer and fraction; then the zeros at the outer ends are dropped.
ghost use Rattle.std.specs.Prelude.{◌≡◌, cond, ◌++◌, eqb};
ghost use Rattle.laws.specs.Text.{zeros};
ghost use Rattle.digits.specs.Meaning.{is_zero, drop_while, drop_back};
ghost use Rattle.digits_exp.specs.Meaning.{StandsExp, right_int, right_frac, left_int, left_frac};
ghost use Rattle.digits_exp.specs.Inner.{Held, StandsPair, Moved};

use super::view::View;
use super::{DigitsExp, IntFrac, Span};

// Two views of a text, one after the other: where an exponent moves digits, of the integer and of the fraction.
#[derive(Clone, Copy)]
pub(crate) struct Pair<'a> {
    pub(crate) text: &'a [u8],
    pub(crate) a: Span,
    pub(crate) b: Span,
    ghost a_held: { Held text.now a },
    ghost b_held: { Held text.now b },
}

// `extra`, or 0 where neither view has a digit: zeros alone are no digits of an integer or a fraction.
fn if_digits(a: Span, b: Span, extra: usize) -> usize
    ensures { result ≡ cond (eqb a.digits 0) (cond (eqb b.digits 0) 0 extra) extra }
{
    if a.digits == 0 && b.digits == 0 {
        0
    } else {
        extra
    }
}

impl<'a> Pair<'a> {
    ghost use Rattle.digits_exp.specs.Views.{pair_digits};

    // Both without the zeros in front: where the first is all zeros, the second takes its place (S's `new2`, its first
    // half).
    fn strip_front(self) -> (Span, Span)
        ensures { StandsPair self.entry.text.now result (drop_while is_zero (pair_digits self.entry)) }
    {
        let Pair { text, a, b } = self;
        let left = View { text, at: a }.without_leading_zeros();
        if left.digits == 0 {
            return (
                View { text, at: b }.without_leading_zeros(),
                Span::default(),
            );
        }
        (left, b)
    }

    // The same from behind (S's `new2`, its second half).
    fn strip_back(self) -> (Span, Span)
        ensures { StandsPair self.entry.text.now result (drop_back is_zero (pair_digits self.entry)) }
    {
        let Pair { text, a, b } = self;
        let left = View { text, at: b }.without_trailing_zeros();
        if left.digits == 0 {
            return (
                View { text, at: a }.without_trailing_zeros(),
                Span::default(),
            );
        }
        (a, left)
    }

    // Both and `extra` zeros behind, without the zeros in front: the digits of an integer.
    fn int_with(self, extra: usize) -> DigitsExp
        ensures { StandsExp self.entry.text.now result (drop_while is_zero (pair_digits self.entry ++ zeros extra)) }
    {
        let (part1, part2) = self.strip_front();
        DigitsExp {
            leading_zeros: 0,
            part1,
            part2,
            trailing_zeros: if_digits(part1, part2, extra),
        }
    }

    // `extra` zeros in front and both, without the zeros behind: the digits of a fraction.
    fn frac_with(self, extra: usize) -> DigitsExp
        ensures { StandsExp self.entry.text.now result (drop_back is_zero (zeros extra ++ pair_digits self.entry)) }
    {
        let (part1, part2) = self.strip_back();
        DigitsExp {
            leading_zeros: if_digits(part1, part2, extra),
            part1,
            part2,
            trailing_zeros: 0,
        }
    }

    // The point n places to the right: the first n digits of the fraction go to the integer, with zeros behind them
    // where there are fewer.
    pub(crate) fn move_right(self, n: usize) -> IntFrac
        ensures { Moved self.entry.text.now result (right_int n) (right_frac n) self.entry.a self.entry.b }
    {
        let Pair { text, a, b } = self;
        if b.digits <= n {
            return IntFrac {
                int: self.int_with(n - b.digits),
                frac: DigitsExp::default(),
            };
        }
        let frac = View { text, at: b };
        let moved = frac.keep(n);
        let int = Pair { text, a, b: moved }.int_with(0);
        let (a, b) = (Span::default(), frac.skip(n));
        let frac = Pair { text, a, b }.frac_with(0);
        IntFrac { int, frac }
    }

    // The point n places to the left: the last n digits of the integer go to the fraction, with zeros in front of them
    // where there are fewer.
    pub(crate) fn move_left(self, n: usize) -> IntFrac
        ensures { Moved self.entry.text.now result (left_int n) (left_frac n) self.entry.a self.entry.b }
    {
        let Pair { text, a, b } = self;
        if a.digits <= n {
            return IntFrac {
                int: DigitsExp::default(),
                frac: self.frac_with(n - a.digits),
            };
        }
        let int = View { text, at: a };
        let moved = int.skip(a.digits - n);
        let frac = Pair { text, a: moved, b }.frac_with(0);
        let (a, b) = (int.keep(a.digits - n), Span::default());
        let int = Pair { text, a, b }.int_with(0);
        IntFrac { int, frac }
    }
}
