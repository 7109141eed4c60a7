// The filter (01, module 7). Taps and samples are I1F15 raws; the newest sample stands first.
#![tactic(auto)]

ghost use Rattle.filter.specs.Meaning.{state_of};
ghost use Rattle.filter.specs.Promise.{Silent, Steps, Runs};

mod block;
mod fault;
mod line;
pub mod sum;
pub mod taps;

use format::{Answer, Answered};
use line::Window;
use taps::Taps;

// The most taps, and the samples that the state holds.
pub const TAPS: usize = 64;

// The last samples, newest first.
#[derive(Clone, Copy)]
pub struct State {
    pub samples: [i16; TAPS],
}

// One step: the output with its clip flag, or the refusal; and the state after it, which a refusal has too, so that no
// Result holds it.
#[derive(Clone, Copy)]
pub struct Stepped {
    pub answer: Answered<i64>,
    pub state: State,
}

// The state at the start: all 0.
pub fn silent() -> State
    ensures { Silent result }
{
    State {
        samples: [0i16; TAPS],
    }
}

// One sample through the filter.
pub fn step(taps: &[i16], state: State, x: i16) -> Stepped
    ensures { Steps taps.now state x result }
{
    match Taps::new(taps) {
        Err(refusal) => Stepped {
            answer: Err(refusal),
            state,
        },
        Ok(taps) => {
            let mut samples = state.samples;
            line::push(&mut samples, x);
            let held = sum::output(&taps, &samples[..]);
            Stepped {
                answer: Ok(Answer {
                    raw: i64::from(held.value),
                    flag: held.clipped,
                }),
                state: State { samples },
            }
        }
    }
}

// A block of samples through the filter: an output and a clip byte, 0 or 1, for each.
// The value is the number of outputs that clipped. The lists stand apart, as C lends them.
pub fn run(
    taps: &[i16],
    state: &mut [i16; TAPS],
    samples: &[i16],
    outputs: &mut [i16],
    clips: &mut [u8],
) -> Answered<u64>
    ensures { Runs taps.now (state_of state.old) samples.now outputs.old clips.old result
        (state_of state.new) outputs.new clips.new }
{
    let taps = fault::block(taps, samples.len(), outputs.len(), clips.len())?;
    let mut line = Window::silent();
    line.lay(state);
    let count = block::through(&taps, &mut line, samples, outputs, clips);
    state.copy_from_slice(line.line());
    Ok(count.into())
}
