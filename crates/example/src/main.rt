// The library from Rattle: a gain is read from text and doubled, and the sum is held at full scale.
#![tactic(auto)]

use format::Manner;
use std::io;

fn main(rt: HostRuntime) -> io::Result<()> {
    let Ok(gain) = text::read_literal::<i64>(b"0.75", 16, 15) else {
        return println!(rt; "not a number of I1F15");
    };
    println!(rt; "gain {}", gain.raw)?;
    let Ok(twice) = arith::add(gain.raw, gain.raw, 16, 15, Manner::Saturating) else {
        return Ok(());
    };
    println!(rt; "twice {}", twice.raw)
}
