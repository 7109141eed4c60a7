// What a block is refused for, before any work.
ghost use Rattle.std.specs.Prelude.{◌≡◌, length};
ghost use Rattle.format.specs.Meaning.{checked};
ghost use Rattle.filter.specs.Meaning.{block_fault};

use super::taps::Taps;
use format::Refusal;

// 5 where samples, outputs and clip bytes are not as many each, then what is refused of the taps.
pub(crate) fn block<'a>(
    taps: &'a [i16],
    samples: usize,
    outputs: usize,
    clips: usize,
) -> Result<Taps<'a>, Refusal>
    ensures { result ≡ checked (block_fault (length taps.now) samples outputs clips) taps.now }
{
    if samples != outputs || samples != clips {
        return Err(Refusal::WrongLength);
    }
    Taps::new(taps)
}
