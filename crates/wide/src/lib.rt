// Numbers of up to 128 bits as two words of 64, at the width that reading, arithmetic and conversion need (S: `u128`
// and src/int256.rs). Two words and no `u128`, since document 01 asks for pairs of words, C hands a number over as two
// (`tq_settle_signed`, `tq_settle_unsigned`), and the theorems of specs/ speak of them (`same-value`); what is computed
// is computed on a `u128`, but for the division of two words (divide.rt). Inner functions: the crates above meet what
// they require.
#![tactic(auto)]

ghost use Rattle.std.specs.Prelude.{◌≡◌, ◌+◌, ◌*◌, ◌^◌, ◌<◌, ◌≤◌};
ghost use Rattle.wide.specs.Meaning.{value_of};
ghost use Rattle.wide.specs.Promise.{Product, Sum, Difference, Less, Divided, ShiftedLeft, ShiftedRight, Scaled};

mod divide;

// A number of up to 128 bits.
#[derive(Clone, Copy)]
pub struct Wide {
    pub high: u64,
    pub low: u64,
}

// A quotient and what the division leaves.
#[derive(Clone, Copy)]
pub struct Quotient {
    pub quotient: Wide,
    pub rest: u64,
}

// A word.
impl From<u64> for Wide {
    ghost from_gives = { λ low x. value_of x ≡ low };

    fn from(low: u64) -> Wide {
        Wide { high: 0, low }
    }
}

// Both ways between the two words and the number that they stand for.
impl From<u128> for Wide {
    ghost from_gives = { λ n x. value_of x ≡ n };

    fn from(n: u128) -> Wide {
        Wide {
            high: (n >> 64) as u64,
            low: (n & LOW) as u64,
        }
    }
}

impl From<Wide> for u128 {
    ghost from_gives = { λ x n. n ≡ value_of x };

    fn from(x: Wide) -> u128 {
        u128::from(x.high) << 64 | u128::from(x.low)
    }
}

// The bits of the lower word.
const LOW: u128 = 0xffff_ffff_ffff_ffff;

// a * b
pub fn mul(a: u64, b: u64) -> Wide
    ensures { Product a b result }
{
    (u128::from(a) * u128::from(b)).into()
}

// x + y
pub fn add(x: Wide, y: Wide) -> Wide
    requires { value_of x + value_of y < 2 ^ 128 }
    ensures { Sum x y result }
{
    (u128::from(x) + u128::from(y)).into()
}

// x - y
pub fn sub(x: Wide, y: Wide) -> Wide
    requires { value_of y ≤ value_of x }
    ensures { Difference x y result }
{
    (u128::from(x) - u128::from(y)).into()
}

// Whether x is below y. A derived order compares the two fields, and each caller would owe the lemma that this is the
// order of the numbers.
pub fn less(x: Wide, y: Wide) -> bool
    ensures { Less x y result }
{
    u128::from(x) < u128::from(y)
}

// x / d and x % d. One machine division where x is one word; else the upper word first, and what that leaves goes
// before the lower word into the second step. No division of a `u128`: that is a call into the C compiler's library.
pub fn div(x: Wide, d: u64) -> Quotient
    requires { 0 < d }
    ensures { Divided x d result }
{
    if x.high == 0 {
        return Quotient {
            quotient: (x.low / d).into(),
            rest: x.low % d,
        };
    }
    let top = divide::word(x.high, d);
    let step = divide::words(top.rest, x.low, d);
    Quotient {
        quotient: Wide {
            high: top.quotient,
            low: step.quotient,
        },
        rest: step.rest,
    }
}

// x * 2^k without the bits that leave 128, for every k.
pub fn shl(x: Wide, k: u32) -> Wide
    ensures { ShiftedLeft x k result }
{
    u128::from(x).unbounded_shl(k).into()
}

// x / 2^k, for every k.
pub fn shr(x: Wide, k: u32) -> Wide
    ensures { ShiftedRight x k result }
{
    u128::from(x).unbounded_shr(k).into()
}

// x * 2^k in one word, where a word holds it: a shift that loses nothing is a product.
pub fn shl_word(x: u64, k: u32) -> u64
    requires { (k < 64) × (x * 2 ^ k < 2 ^ 64) }
    ensures { Scaled x k result }
{
    x << k
}
