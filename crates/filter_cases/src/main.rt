// Document 01's headroom cases as runs, and 02's: the verdict, and where it is 1 or 2 the witness, newest
// first, and how many outputs clip on it, fed oldest first from silence.
#![tactic(auto)]

use format::Answer;
use std::io;

fn main(rt: HostRuntime) -> io::Result<()> {
    case(&rt, "32767", [32767])?;
    case(&rt, "-32768", [-32768])?;
    case(&rt, "32767 1", [32767, 1])?;
    case(&rt, "32767 2", [32767, 2])?;
    case(&rt, "16384 -16384", [16384, -16384])?;
    case(&rt, "16385 -16383", [16385, -16383])
}

fn case<const N: usize>(rt: &impl Print, name: &str, taps: [i16; N]) -> io::Result<()> {
    print!(rt; "{name}:")?;
    let mut witness = [0i16; N];
    match headroom::headroom(&taps, &mut witness) {
        Ok(Answer { raw: 0, .. }) => println!(rt; " verdict 0"),
        Ok(verdict) => {
            print!(rt; " verdict {}", verdict.raw)?;
            clipped(rt, &taps, witness)
        }
        Err(refusal) => println!(rt; " refused {}", refusal.number()),
    }
}

// The witness, and how many of the outputs clip.
fn clipped<const N: usize>(rt: &impl Print, taps: &[i16; N], witness: [i16; N]) -> io::Result<()> {
    for x in &witness {
        print!(rt; " {x}")?;
    }
    let mut fed = witness;
    fed.reverse();
    let mut state = filter::silent().samples;
    match filter::run(taps, &mut state, &fed, &mut [0i16; N], &mut [0u8; N]) {
        Ok(count) => println!(rt; ", clipped {}", count.raw),
        Err(refusal) => println!(rt; ", refused {}", refusal.number()),
    }
}
