// The digits of a text: the bytes from the first digit to the last, without `_` and the point between them.
ghost use Rattle.std.specs.Prelude.{◌≡◌, ◌<◌, take, drop};
ghost use Rattle.std.specs.Iterator.{YieldsFirst, item_count};
ghost use Rattle.grammar.specs.Naturals.{nat_of};
ghost use Rattle.grammar.specs.Run.{body_of};
ghost use Rattle.fold.specs.Fold.{fold_of};
ghost use Rattle.fold.specs.Body.{is_gap, digits_left, any_of};

use crate::Folded;

// The digits that are still to come.
#[derive(Clone, Copy, Drop)]
pub struct Digits<'a> {
    rest: &'a [u8],
}

// A byte that is no digit and stands between two.
fn is_gap(b: u8) -> bool
    ensures { result ≡ is_gap b }
{
    matches!(b, b'_' | b'.')
}

impl<'a> Iterator for Digits<'a> {
    type Item = u64;

    ghost next_gives = { YieldsFirst digits_left };

    ghost remaining = { item_count digits_left };

    fn next(&mut self) -> Option<u64> {
        // no index is counted: the slice that is left is what `digits_left` reads
        while let Some((byte, rest)) = self.rest.split_first() {
            self.rest = rest;
            if !is_gap(*byte) {
                return Some(u64::from(grammar::byte::digit_of(*byte)));
            }
        }
        None
    }
}

impl<'a> Digits<'a> {
    // All of a text's.
    pub fn of(body: &'a [u8]) -> Digits<'a>
        ensures { digits_left result ≡ body_of body.now }
    {
        Digits { rest: body }
    }

    // The next `count` digits as one number in the radix.
    pub fn number(&mut self, count: usize, radix: u64) -> Folded
        requires { 0 < radix }
        ensures value { result ≡ fold_of (nat_of radix (take count (digits_left self.old))) }
        ensures rest { digits_left self.new ≡ drop count (digits_left self.old) }
    {
        // no chain, and no `for`, over `self.take(count)`: tried, and what it leaves in `self` has no proof
        let mut number = Folded::from(0);
        for _ in 0..count {
            let Some(digit) = self.next() else {
                break;
            };
            number = number.times(radix, digit);
        }
        number
    }

    // Whether any of them is not 0.
    pub fn any_nonzero(mut self) -> bool
        ensures { result ≡ any_of (digits_left self.entry) }
    {
        self.any(|digit| digit != 0)
    }
}
