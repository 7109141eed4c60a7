// Writing, then reading, gives the same raw: proved of the functions from their
// promises alone, for every format, raw and manner.
#![tactic(auto)]

mod again;

use format::{Answered, Manner, Raw};
use std::io;

fn main(rt: HostRuntime) -> io::Result<()> {
    let mut out = [0u8; 67];
    show(&rt, again::again(1i64, 16, 15, Manner::Strict, &mut out))?;
    show(
        &rt,
        again::again(i64::from(i16::MIN), 16, 15, Manner::Strict, &mut out),
    )?;
    show(
        &rt,
        again::again(i64::MIN, 64, 64, Manner::Wrapping, &mut out),
    )?;
    show(
        &rt,
        again::again(i64::from(i8::MAX), 8, 9, Manner::Strict, &mut out),
    )?;
    show(
        &rt,
        again::again(u64::MAX, 64, 64, Manner::Saturating, &mut out),
    )?;
    show(
        &rt,
        again::again(u64::from(u8::MAX), 8, 3, Manner::Overflowing, &mut out),
    )
}

fn show<R: Raw>(rt: &impl Print, answered: Answered<R>) -> io::Result<()> {
    match answered {
        Ok(answer) => println!(rt; "{} again", answer.raw.magnitude()),
        Err(refusal) => println!(rt; "{} refused", refusal.number()),
    }
}
