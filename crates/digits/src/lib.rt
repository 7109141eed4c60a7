// Digit views (S's `DigitsUnds`): a view is a part of the lent text with no `_` at either end. Every function takes any
// run, also one that is no view. Those that no crate calls are entries for users: document 01, module 1 asks for views.
#![tactic(auto)]

ghost use Rattle.digits.specs.Promise.{New, Upto, From, AfterFirst, BeforeLast};
ghost use Rattle.digits.specs.Promise.{Len, First, Last, LeadingZeros, TrailingZeros};
ghost use Rattle.digits.specs.Promise.{WithoutLeadingZeros, WithoutTrailingZeros};

pub mod count;
pub mod part;

// The view of a run: the run without the `_` at either end.
pub fn new(bytes: &[u8]) -> &[u8]
    ensures { New bytes.entry result }
{
    let rest = part::rest(bytes, count::unds_front(bytes));
    part::head(rest, rest.len() - count::unds_behind(rest))
}

// How many digits a view has: its `_` do not count. A loop, since every reading passes here: `filter(..).count()` takes
// twice the time.
pub fn len(view: &[u8]) -> usize
    ensures { Len view.now result }
{
    let mut digits = 0;
    for b in view {
        if *b != b'_' {
            digits += 1;
        }
    }
    digits
}

// The view of the first `mid` digits: all digits where there are fewer. S's `split_at`, its first view.
pub fn upto(view: &[u8], mid: usize) -> &[u8]
    ensures { Upto view.entry mid result }
{
    new(part::head(view, count::place(view, mid)))
}

// The view of the digits after the first `mid`: no digits where there are fewer. S's `split_at`, its second view.
pub fn from(view: &[u8], mid: usize) -> &[u8]
    ensures { From view.entry mid result }
{
    new(part::rest(view, count::place(view, mid)))
}

// The first digit, if there is one, and the view without it.
pub fn first(view: &[u8]) -> Option<u8>
    ensures { First view.now result }
{
    new(view).first().copied()
}

pub fn after_first(view: &[u8]) -> &[u8]
    ensures { AfterFirst view.entry result }
{
    from(view, 1)
}

// The last digit, if there is one, and the view without it.
pub fn last(view: &[u8]) -> Option<u8>
    ensures { Last view.now result }
{
    new(view).last().copied()
}

pub fn before_last(view: &[u8]) -> &[u8]
    ensures { BeforeLast view.entry result }
{
    upto(view, len(view).saturating_sub(1))
}

// How many of the digits in front are `0`.
pub fn leading_zeros(view: &[u8]) -> usize
    ensures { LeadingZeros view.now result }
{
    let digits = view.iter().filter(|b| **b != b'_');
    digits.take_while(|b| **b == b'0').count()
}

// How many of the digits behind are `0`.
pub fn trailing_zeros(view: &[u8]) -> usize
    ensures { TrailingZeros view.now result }
{
    let from_behind = view.iter().rev().filter(|b| **b != b'_');
    from_behind.take_while(|b| **b == b'0').count()
}

// The view without the digits `0` in front.
pub fn without_leading_zeros(view: &[u8]) -> &[u8]
    ensures { WithoutLeadingZeros view.entry result }
{
    from(view, leading_zeros(view))
}

// The view without the digits `0` behind.
pub fn without_trailing_zeros(view: &[u8]) -> &[u8]
    ensures { WithoutTrailingZeros view.entry result }
{
    upto(view, len(view) - trailing_zeros(view))
}
