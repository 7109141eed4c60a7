// A block of samples through the filter.
ghost use Rattle.std.specs.Prelude.{length, ◌≡◌};
ghost use Rattle.filter.specs.Block.{Through};

use super::line::Window;
use super::sum;
use super::taps::Taps;

// Each sample into the line, its output and its clip byte into their places. The number of outputs that clipped.
// The lists stand apart, as the C interface lends them. By the sample's place: of what a `zip` with `iter_mut` writes,
// std's clauses say only how many places there are.
pub(crate) fn through(
    taps: &Taps<'_>,
    line: &mut Window,
    samples: &[i16],
    outputs: &mut [i16],
    clips: &mut [u8],
) -> u64
    requires outputs_len { length outputs.old ≡ length samples.now }
    requires clips_len { length clips.old ≡ length samples.now }
    ensures { Through taps.now line.old samples.now line.new outputs.new clips.new result }
{
    let mut count: u64 = 0;
    for (i, x) in samples.iter().enumerate() {
        line.push(*x);
        let held = sum::output(taps, line.line());
        outputs[i] = held.value;
        clips[i] = u8::from(held.clipped);
        count += u64::from(held.clipped);
    }
    count
}
