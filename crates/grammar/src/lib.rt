// What a text means (docs/GRAMMAR.md): the radixes, the longest text, the
// classes of bytes.
#![tactic(auto)]

ghost use Rattle.grammar.specs.Promise.{IsRadix};

pub mod byte;

// The longest text that is read.
pub const TEXT_LIMIT: usize = 4096;

// Whether a radix is one of the four.
#[tactic(auto, using(laws::specs::Rules::tests), unfolding(crate::specs::Meaning::is_radix))]
pub fn is_radix(radix: u32) -> bool
    ensures { IsRadix radix result }
{
    matches!(radix, 2 | 8 | 10 | 16)
}
