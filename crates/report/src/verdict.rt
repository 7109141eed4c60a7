// The verdict in words with its number; where samples clip, such samples, newest first, and the sum that they reach.
use super::{out, taps};
use filter::TAPS;
use std::io;

// A product of two I1F15 numbers has 30 fraction bits.
const SUM_WIDTH: u32 = 64;

const SUM_FRAC: u32 = 30;

pub(crate) fn show(rt: &impl Print, taps: &[i16]) -> io::Result<()> {
    let mut witness = [0i16; TAPS];
    let n = TAPS.min(taps.len());
    judged(rt, taps, &mut witness[..n])
}

fn judged(rt: &impl Print, taps: &[i16], witness: &mut [i16]) -> io::Result<()> {
    let Ok(verdict) = headroom::headroom(taps, witness) else {
        return Ok(());
    };
    rt.println(in_words(verdict.raw))?;
    if verdict.raw != 0 {
        driven(rt, taps, witness)?;
    }
    Ok(())
}

// Verdicts are numbers here, as `headroom` answers them and C is handed them.
fn in_words(verdict: u64) -> &'static str {
    match verdict {
        0 => "verdict 0: no samples clip",
        1 => "verdict 1: some samples clip high",
        _ => "verdict 2: no samples clip high, some clip low",
    }
}

// The samples, and their sum.
fn driven(rt: &impl Print, taps: &[i16], witness: &[i16]) -> io::Result<()> {
    taps::samples(rt, witness)?;
    rt.print("sum: ")?;
    out::value(rt, sum(taps, witness), SUM_WIDTH, SUM_FRAC)?;
    rt.println("")
}

// The exact sum of the products: no sum of 64 of them comes near the ends of 64 bits.
fn sum(taps: &[i16], samples: &[i16]) -> i64 {
    taps.iter()
        .zip(samples)
        .map(|(tap, sample)| i64::from(*tap) * i64::from(*sample))
        .fold(0, i64::saturating_add)
}
