// What a pattern is refused for, after its format: a NaN, or an infinity outside the saturating manner (30).
ghost use Rattle.std.specs.Prelude.{◌≡◌, IfOk, IfErr};
ghost use Rattle.format.specs.Meaning.{Refuses};
ghost use Rattle.float.specs.Formats.{binary_of};
ghost use Rattle.from_float.specs.Parts.{infinite_fault, pattern_fault};

use float::pattern::{self, Binary};
use format::{Manner, Refusal};

// An infinity or a NaN: E is the last one there is.
#[tactic(auto, unfolding(crate::specs::Parts::pattern_fault, format::specs::Meaning::named))]
pub(crate) fn of_pattern(binary: Binary, pattern: u64, manner: Manner) -> Result<(), Refusal>
    ensures ok { IfOk result (λ x. pattern_fault (binary_of binary) manner pattern ≡ 0) }
    ensures err { IfErr result (Refuses (pattern_fault (binary_of binary) manner pattern)) }
{
    if binary.biased(pattern) == pattern::last(binary.field) {
        if binary.trailing(pattern) == 0 {
            return of_infinity(manner);
        }
        return Err(Refusal::NotANumber);
    }
    Ok(())
}

#[tactic(auto, unfolding(crate::specs::Parts::infinite_fault, format::specs::Meaning::named))]
fn of_infinity(manner: Manner) -> Result<(), Refusal>
    ensures ok { IfOk result (λ x. infinite_fault manner ≡ 0) }
    ensures err { IfErr result (Refuses (infinite_fault manner)) }
{
    match manner {
        Manner::Saturating => Ok(()),
        Manner::Strict | Manner::Wrapping | Manner::Overflowing => Err(Refusal::NotANumber),
    }
}
