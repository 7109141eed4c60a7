// The scanner of literals: the sign, the prefix, then the digits (S's `lit`).
ghost use Rattle.std.specs.Prelude.{◌≡◌, ◌≤◌, length, drop};
ghost use Rattle.format.specs.Meaning.{sign_by};
ghost use Rattle.grammar.specs.Meaning.{literal_minus, prefix_radix, after_prefix};
ghost use Rattle.scan.specs.Literal.{FindsLiteral};

use crate::Found;
use crate::reader::Reader;
use digits::count;

// What a literal is, and its radix. The radix stands beside the Result: `FindsLiteral` says that of a refused text too.
#[derive(Clone, Copy)]
pub struct Written {
    pub radix: u32,
    pub found: Found,
}

// Whether the literal has a sign of its own: signed formats take `-`.
fn minus(text: &[u8], signed: bool) -> bool
    ensures { result ≡ literal_minus (sign_by signed) text.now }
{
    signed && matches!(text, [b'-', ..])
}

// The radix that the prefix in front of a text says: 10 where there is none.
#[tactic(auto, unfolding(grammar::specs::Meaning::prefix_radix, grammar::specs::Meaning::prefix_mark))]
fn prefix_radix(text: &[u8]) -> u32
    ensures { result ≡ prefix_radix text.now }
{
    match text {
        [b'0', b'b', ..] => 2,
        [b'0', b'o', ..] => 8,
        [b'0', b'x', ..] => 16,
        _ => 10,
    }
}

// Where the digits start, the prefix in front being of this radix.
fn digits_at(text: &[u8], radix: u32) -> usize
    requires { radix ≡ prefix_radix text.now }
    ensures { (result ≤ length text.now) × (drop result text.now ≡ after_prefix text.now) }
{
    if radix == 10 {
        0
    } else {
        2 + count::unds_front(&text[2..])
    }
}

pub fn literal(text: &[u8], signed: bool) -> Written
    ensures { FindsLiteral (sign_by signed) text.now result }
{
    let neg = minus(text, signed);
    let from = usize::from(neg);
    let body = &text[from..];
    let radix = prefix_radix(body);
    let reader = Reader { radix, skip: true };
    Written {
        radix,
        found: reader.whole(text, from + digits_at(body, radix), neg),
    }
}
