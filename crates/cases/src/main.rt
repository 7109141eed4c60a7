// Document 01's cases as runs. The file `stdout` beside src/ is written from the document, not by this program.
#![tactic(auto)]

mod reading;

use format::{Exact, Manner};
use std::io;

fn main(rt: HostRuntime) -> io::Result<()> {
    manners(&rt)?;
    reading::plain(&rt)?;
    reading::literals(&rt)
}

// The cases that the manner alone decides: the number of steps, already rounded, into the format.
fn manners(rt: &impl Print) -> io::Result<()> {
    narrow(rt)?;
    wider(rt)
}

fn narrow(rt: &impl Print) -> io::Result<()> {
    shown::answer(
        rt,
        b"W 8 signed F 4, 7.96875 is 128 steps, strict",
        format::settle::<i64>(steps(128), 8, 4, Manner::Strict),
    )?;
    shown::answer(
        rt,
        b"W 8 signed F 4, -8.03125 is -128 steps, strict",
        format::settle::<i64>(below(128), 8, 4, Manner::Strict),
    )?;
    shown::answer(
        rt,
        b"W 8 signed F 0, 127.5 is 128 steps, wrapping",
        format::settle::<i64>(steps(128), 8, 0, Manner::Wrapping),
    )?;
    shown::answer(
        rt,
        b"W 8 signed F 0, 127.5 is 128 steps, saturating",
        format::settle::<i64>(steps(128), 8, 0, Manner::Saturating),
    )?;
    shown::answer(
        rt,
        b"W 8 signed F 0, 127.5 is 128 steps, overflowing",
        format::settle::<i64>(steps(128), 8, 0, Manner::Overflowing),
    )?;
    shown::answer(
        rt,
        b"W 8 unsigned F 0, -0.4 is -0 steps, strict",
        format::settle::<u64>(below(0), 8, 0, Manner::Strict),
    )?;
    shown::answer(
        rt,
        b"W 8 unsigned F 0, -0.6 is -1 steps, strict",
        format::settle::<u64>(below(1), 8, 0, Manner::Strict),
    )
}

fn wider(rt: &impl Print) -> io::Result<()> {
    shown::answer(
        rt,
        b"I1F15, -1 is -32768 steps, strict",
        format::settle::<i64>(below(32768), 16, 15, Manner::Strict),
    )?;
    shown::answer(
        rt,
        b"I1F15, 1 is 32768 steps, strict",
        format::settle::<i64>(steps(32768), 16, 15, Manner::Strict),
    )?;
    shown::answer(
        rt,
        b"I1F15, 0.99998 is 32767 steps, strict",
        format::settle::<i64>(steps(32767), 16, 15, Manner::Strict),
    )?;
    shown::answer(
        rt,
        b"W 32 F 16 signed, maximum plus one step, wrapping",
        format::settle::<i64>(steps(2147483648), 32, 16, Manner::Wrapping),
    )
}

// A number of steps, and one below 0.
fn steps(low: u64) -> Exact {
    Exact::new(false, low.into())
}

fn below(low: u64) -> Exact {
    Exact::new(true, low.into())
}
