// Sums, differences and products of raws: of a number of 128 bits with a sign, which holds all of them but the product
// of two unsigned ones. So there is no branch on a sign.
ghost use Rattle.std.specs.Prelude.{◌≡◌, ◌^◌, ◌<◌, nat_abs, neg_ℤ, ◌+ℤ◌, ◌*ℤ◌};
ghost use Rattle.laws.specs.Floor.{floor as floor_of};
ghost use Rattle.exact.specs.Meaning.{exact_of};

use format::{Exact, Raw};

pub trait Operand: Raw {
    // Its number.
    fn number(self) -> i128
        ensures number { result ≡ Self.kind.number_of self }
        ensures bound { nat_abs result < 2 ^ 64 };

    fn sum(self, other: Self) -> Exact
        ensures { exact_of result ≡ Self.kind.number_of self +ℤ Self.kind.number_of other }
    {
        (self.number() + other.number()).into()
    }

    fn difference(self, other: Self) -> Exact
        ensures { exact_of result ≡ Self.kind.number_of self +ℤ neg_ℤ (Self.kind.number_of other) }
    {
        (self.number() - other.number()).into()
    }

    // The product over 2^frac, rounded toward minus infinity.
    fn product(self, other: Self, frac: u32) -> Exact
        ensures { exact_of result ≡ floor_of (Self.kind.number_of self *ℤ Self.kind.number_of other) (2 ^ frac) };
}

impl Operand for i64 {
    fn number(self) -> i128 {
        i128::from(self)
    }

    fn product(self, other: i64, frac: u32) -> Exact {
        (i128::from(self) * i128::from(other))
            .unbounded_shr(frac)
            .into()
    }
}

impl Operand for u64 {
    fn number(self) -> i128 {
        self.into()
    }

    fn product(self, other: u64, frac: u32) -> Exact {
        crate::product(crate::of(self), crate::of(other), frac)
    }
}
