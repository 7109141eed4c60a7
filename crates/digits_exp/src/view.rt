// A view of a text: its parts, and itself without the zeros at an end. Each stands as two places of that text.
ghost use Rattle.std.specs.Prelude.{◌≡◌, ◌∷◌, ◌<◌, ◌≤◌, length, take, drop};
ghost use Rattle.laws.specs.Lists.{part};
ghost use Rattle.digits.specs.Meaning.{is_zero, digits_of, drop_while, drop_back};
ghost use Rattle.digits_exp.specs.Meaning.{Stands};
ghost use Rattle.digits_exp.specs.Inner.{Held};

use super::{Span, part};
use digits::count;

// A span of a text, which is a view there with its digit count.
#[derive(Clone, Copy)]
pub(crate) struct View<'a> {
    pub(crate) text: &'a [u8],
    pub(crate) at: Span,
    ghost held: { Held text.now at },
}

// The view of the text from `from` up to `to`.
pub(crate) fn trim(text: &[u8], from: usize, to: usize) -> Span
    ensures { Stands text.now result (digits_of (part text.now from to)) }
{
    let run = part::between(text, from, to);
    let start = from + count::unds_front(run);
    let view = digits::new(run);
    Span {
        from: start,
        to: start + view.len(),
        digits: digits::len(view),
    }
}

impl<'a> View<'a> {
    ghost use Rattle.digits_exp.specs.Views.{view_digits};

    fn bytes(self) -> &'a [u8]
        ensures { result.now ≡ part self.entry.text.now self.entry.at.from self.entry.at.to }
    {
        super::view_of(self.text, self.at)
    }

    // S's `split_at` of a view, the first part. Its two panics are ruled out: `mid` is not 0, and not past the end.
    fn split_upto(self, mid: usize) -> Span
        requires { (0 < mid) × (mid ≤ length (view_digits self)) }
        ensures { Stands self.entry.text.now result (take mid (view_digits self.entry)) }
    {
        let from = self.at.from;
        trim(self.text, from, from + count::place(self.bytes(), mid))
    }

    // The second part.
    fn split_from(self, mid: usize) -> Span
        requires { (0 < mid) × (mid ≤ length (view_digits self)) }
        ensures { Stands self.entry.text.now result (drop mid (view_digits self.entry)) }
    {
        let start = self.at.from + count::place(self.bytes(), mid);
        trim(self.text, start, self.at.to)
    }

    // The first n of its digits: it has as many.
    pub(crate) fn keep(self, n: usize) -> Span
        requires { n ≤ self.at.digits }
        ensures { Stands self.entry.text.now result (take n (view_digits self.entry)) }
    {
        if n == 0 {
            Span::default()
        } else {
            self.split_upto(n)
        }
    }

    // The view without the first n of its digits.
    pub(crate) fn skip(self, n: usize) -> Span
        requires { n ≤ self.at.digits }
        ensures { Stands self.entry.text.now result (drop n (view_digits self.entry)) }
    {
        if n == 0 { self.at } else { self.split_from(n) }
    }

    // The view without the zeros in front.
    pub(crate) fn without_leading_zeros(self) -> Span
        ensures { Stands self.entry.text.now result (drop_while is_zero (view_digits self.entry)) }
    {
        self.skip(digits::leading_zeros(self.bytes()))
    }

    // The view without the zeros behind.
    pub(crate) fn without_trailing_zeros(self) -> Span
        ensures { Stands self.entry.text.now result (drop_back is_zero (view_digits self.entry)) }
    {
        let zeros = digits::trailing_zeros(self.bytes());
        self.keep(self.at.digits - zeros)
    }

    // The first digit of a view that has one: its first byte, since no view starts with `_`.
    pub(crate) fn first_digit(self) -> u8
        requires { 0 < self.at.digits }
        ensures { result ∷ drop 1 (view_digits self.entry) ≡ view_digits self.entry }
    {
        self.bytes()[0]
    }
}
