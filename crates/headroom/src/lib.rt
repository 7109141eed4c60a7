// The headroom check (01, module 8): can any samples make these taps clip? Taps and samples
// are I1F15 raws; the newest sample stands first.
#![tactic(auto)]

ghost use Rattle.headroom.specs.Promise.{Heads};

mod fault;
mod peak;

use format::Answered;

// Whether any samples can make these taps clip: the verdict, and with 1 or 2 the samples that do, newest first.
pub fn headroom(taps: &[i16], witness: &mut [i16]) -> Answered<u64>
    ensures { Heads taps.now witness.old result witness.new }
{
    let taps = fault::headroom(taps, witness.len())?;
    Ok(peak::number(peak::verdict(&taps, witness)).into())
}
