// Runs document 01's cases of the logarithm and writes each answer: W, F, the raw, and k or the refusal.
#![tactic(auto)]

use format::Raw;
use std::fmt::Display;
use std::io;

fn main(rt: HostRuntime) -> io::Result<()> {
    // W = F = 8: raws 1 and 2 give -3, 3 to 25 give -2, 26 gives -1.
    for raw in 1..27_u64 {
        case(&rt, raw, 8, 8)?;
    }
    ends(&rt)?;
    whole(&rt)?;
    refusals(&rt)
}

// k runs from -1 down to -3, -5, -10, -20.
fn ends(rt: &impl Print) -> io::Result<()> {
    case(rt, 255_u64, 8, 8)?;
    case(rt, 1_u64, 16, 16)?;
    case(rt, 65535_u64, 16, 16)?;
    case(rt, 1_u64, 32, 32)?;
    case(rt, 4294967295_u64, 32, 32)?;
    case(rt, 1_u64, 64, 64)?;
    case(rt, u64::MAX, 64, 64)
}

// Whole numbers, one and the step below it in I1F15's width, and a raw that the format could not hold.
fn whole(rt: &impl Print) -> io::Result<()> {
    case(rt, 1_i64, 16, 0)?;
    case(rt, 9_i64, 16, 0)?;
    case(rt, 10_i64, 16, 0)?;
    case(rt, 99_i64, 16, 0)?;
    case(rt, 100_i64, 16, 0)?;
    case(rt, i64::MAX, 64, 0)?;
    case(rt, u64::MAX, 64, 0)?;
    case(rt, 32768_i64, 16, 15)?;
    case(rt, 32767_i64, 16, 15)?;
    case(rt, 300_u64, 8, 8)
}

// 1, then 2, then 32 for zero and for negative numbers.
fn refusals(rt: &impl Print) -> io::Result<()> {
    case(rt, 0_u64, 7, 8)?;
    case(rt, 0_u64, 8, 9)?;
    case(rt, 0_u64, 8, 8)?;
    case(rt, 0_i64, 8, 8)?;
    case(rt, -1_i64, 8, 8)?;
    case(rt, i64::MIN, 64, 0)
}

fn case<R: Raw + Display>(rt: &impl Print, raw: R, width: u32, frac: u32) -> io::Result<()> {
    print!(rt; "W {width} F {frac} raw {raw}: ")?;
    match log10::log10(raw, width, frac) {
        Ok(answer) => println!(rt; "k {}", answer.raw),
        Err(refusal) => println!(rt; "refused {}", refusal.number()),
    }
}
