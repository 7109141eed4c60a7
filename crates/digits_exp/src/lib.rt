// The second layer (S's `DigitsExp`): some leading zeros, two views, some trailing zeros. A view stands here as two
// places of the lent text with its digit count. Zeros are counts: no exponent is ever written out. No crate calls
// these functions: they are entries for users, the digit views that document 01, module 1 asks for.
#![tactic(auto)]

ghost use Rattle.std.specs.Prelude.{◌^◌, ◌<◌, length};
ghost use Rattle.digits_exp.specs.Meaning.{IsExp, digits_exp_of};
ghost use Rattle.digits_exp.specs.Promise.{ViewOf, NewIntFrac, LenExp, SplitAt, SplitFirst};

mod moving;
mod part;
mod splitting;
mod view;

use moving::Pair;
use splitting::Whole;
use view::View;

// A view: the text from `from` up to `to`, and how many digits it has. Plain, since `view_of` answers for any span:
// `View` has the text and the invariant. Apart from `run::Run`, the scanner's: a crate under both would hold nothing
// else.
#[derive(Clone, Copy, Default)]
pub struct Span {
    pub from: usize,
    pub to: usize,
    pub digits: usize,
}

// Plain too, since the promises (`IsExp`, `StandsExp`) speak of a text beside it: `Whole` has both and the invariant.
#[derive(Clone, Copy, Default)]
pub struct DigitsExp {
    pub leading_zeros: usize,
    pub part1: Span,
    pub part2: Span,
    pub trailing_zeros: usize,
}

// The digits of a number: those of its integer and those of its fraction.
#[derive(Clone, Copy)]
pub struct IntFrac {
    pub int: DigitsExp,
    pub frac: DigitsExp,
}

// How many digits a split takes of each: of the zeros in front, of either view, and of the zeros behind.
#[derive(Clone, Copy)]
pub struct Counts {
    pub front: usize,
    pub one: usize,
    pub two: usize,
    pub behind: usize,
}

// The view at a span, as the part of the text that it is.
pub fn view_of(text: &[u8], s: Span) -> &[u8]
    ensures { ViewOf text.now s result.now }
{
    part::between(text, s.from, s.to)
}

// The digits of integer and fraction after the exponent has moved the point, without the zeros in front of the one and
// behind the other. The integer is the run of the text from `int_from` up to `int_to`, and so the fraction.
pub fn new_int_frac(
    text: &[u8],
    int_from: usize,
    int_to: usize,
    frac_from: usize,
    frac_to: usize,
    exp: i32,
) -> IntFrac
    ensures { NewIntFrac text.now int_from int_to frac_from frac_to exp result }
{
    let a = view::trim(text, int_from, int_to);
    let b = view::trim(text, frac_from, frac_to);
    let both = Pair { text, a, b };
    let n = exp.unsigned_abs() as usize;
    if exp < 0 {
        both.move_left(n)
    } else {
        both.move_right(n)
    }
}

// How many digits there are. Whoever calls it shows that the count fits. The text stands beside the record, as in S, so
// that the record is one of this text is no fact of its type.
pub fn len(text: &[u8], d: DigitsExp) -> usize
    requires { IsExp text.now d × (length (digits_exp_of text.now d) < 2 ^ 64) }
    ensures { LenExp text.now d result }
{
    d.leading_zeros + d.part1.digits + d.part2.digits + d.trailing_zeros
}

// The first `mid` digits and the others.
pub fn split_at(text: &[u8], d: DigitsExp, mid: usize) -> (DigitsExp, DigitsExp)
    requires { IsExp text.now d }
    ensures { SplitAt text.now d mid result }
{
    let whole = Whole { text, digits: d };
    (whole.upto(mid), whole.from(mid))
}

// The first digit and the others, if there is one: a zero in front, a digit of either view, or a zero behind.
pub fn split_first(text: &[u8], mut d: DigitsExp) -> Option<(u8, DigitsExp)>
    requires { IsExp text.now d }
    ensures { SplitFirst text.now d result }
{
    if 0 < d.leading_zeros {
        d.leading_zeros -= 1;
        return Some((b'0', d));
    }
    if 0 < d.part1.digits {
        let part1 = View { text, at: d.part1 };
        d.part1 = part1.skip(1);
        return Some((part1.first_digit(), d));
    }
    if 0 < d.part2.digits {
        let part2 = View { text, at: d.part2 };
        d.part2 = part2.skip(1);
        return Some((part2.first_digit(), d));
    }
    if 0 < d.trailing_zeros {
        d.trailing_zeros -= 1;
        return Some((b'0', d));
    }
    None
}
