// tq_filter, tq_headroom: a block through the filter, and whether a set of taps can ever clip.
ghost use Rattle.filter.specs.Meaning.{state_of};
ghost use Rattle.filter.specs.Promise.{Runs};
ghost use Rattle.headroom.specs.Promise.{Heads};
ghost use Rattle.capi.specs.Promise.{Unsigned};

use crate::answer::CUnsigned;

// Slices apart: C lends them so.
#[unsafe(no_mangle)]
pub extern "C" fn tq_filter(
    taps: &[i16],
    state: &mut [i16; 64],
    samples: &[i16],
    outputs: &mut [i16],
    clips: &mut [u8],
) -> CUnsigned
    ensures { Unsigned (λ a. Runs
        taps.now (state_of state.old) samples.now
        outputs.old clips.old
        a (state_of state.new) outputs.new clips.new) result }
{
    filter::run(taps, state, samples, outputs, clips).into()
}

#[unsafe(no_mangle)]
pub extern "C" fn tq_headroom(taps: &[i16], witness: &mut [i16]) -> CUnsigned
    ensures { Unsigned (λ a. Heads taps.now witness.old a witness.new) result }
{
    headroom::headroom(taps, witness).into()
}
