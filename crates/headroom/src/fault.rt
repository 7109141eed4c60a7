// What the check is refused for, before any work.
ghost use Rattle.std.specs.Prelude.{◌≡◌, length};
ghost use Rattle.format.specs.Meaning.{checked};
ghost use Rattle.headroom.specs.Meaning.{head_fault};

use filter::taps::Taps;
use format::Refusal;

// 5 where the witness has not a place for each tap, then what the filter refuses of the taps.
pub(crate) fn headroom<'a>(taps: &'a [i16], places: usize) -> Result<Taps<'a>, Refusal>
    ensures { result ≡ checked (head_fault (length taps.now) places) taps.now }
{
    if taps.len() != places {
        return Err(Refusal::WrongLength);
    }
    Taps::new(taps)
}
