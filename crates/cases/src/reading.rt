// Document 01's cases of reading, and two that it rules out.
use format::Manner;
use std::io;

pub fn plain(rt: &impl Print) -> io::Result<()> {
    four_fraction_bits(rt)?;
    no_fraction_bits(rt)?;
    taps(rt)?;
    ties(rt)
}

fn four_fraction_bits(rt: &impl Print) -> io::Result<()> {
    shown::answer(
        rt,
        b"W 8 signed F 4, 7.96875, strict",
        text::read::<i64>(b"7.96875", 8, 4, 10, Manner::Strict),
    )?;
    shown::answer(
        rt,
        b"W 8 signed F 4, -8.03125, strict",
        text::read::<i64>(b"-8.03125", 8, 4, 10, Manner::Strict),
    )?;
    shown::answer(
        rt,
        b"W 8 signed F 4, 0.03125, strict",
        text::read::<i64>(b"0.03125", 8, 4, 10, Manner::Strict),
    )?;
    shown::answer(
        rt,
        b"W 8 signed F 4, 0.09375, strict",
        text::read::<i64>(b"0.09375", 8, 4, 10, Manner::Strict),
    )
}

fn no_fraction_bits(rt: &impl Print) -> io::Result<()> {
    shown::answer(
        rt,
        b"W 8 signed F 0, 127.5, strict",
        text::read::<i64>(b"127.5", 8, 0, 10, Manner::Strict),
    )?;
    shown::answer(
        rt,
        b"W 8 signed F 0, 127.5, wrapping",
        text::read::<i64>(b"127.5", 8, 0, 10, Manner::Wrapping),
    )?;
    shown::answer(
        rt,
        b"W 8 signed F 0, 127.5, saturating",
        text::read::<i64>(b"127.5", 8, 0, 10, Manner::Saturating),
    )?;
    shown::answer(
        rt,
        b"W 8 signed F 0, -128.5, strict",
        text::read::<i64>(b"-128.5", 8, 0, 10, Manner::Strict),
    )?;
    shown::answer(
        rt,
        b"W 8 unsigned F 0, -0.4, strict",
        text::read::<u64>(b"-0.4", 8, 0, 10, Manner::Strict),
    )?;
    shown::answer(
        rt,
        b"W 8 unsigned F 0, -0.6, strict",
        text::read::<u64>(b"-0.6", 8, 0, 10, Manner::Strict),
    )
}

fn taps(rt: &impl Print) -> io::Result<()> {
    shown::answer(
        rt,
        b"I1F15, -1, strict",
        text::read::<i64>(b"-1", 16, 15, 10, Manner::Strict),
    )?;
    shown::answer(
        rt,
        b"I1F15, 1, strict",
        text::read::<i64>(b"1", 16, 15, 10, Manner::Strict),
    )?;
    shown::answer(
        rt,
        b"I1F15, 0.99998, strict",
        text::read::<i64>(b"0.99998", 16, 15, 10, Manner::Strict),
    )?;
    shown::answer(
        rt,
        b"I1F15, 0.99999, strict",
        text::read::<i64>(b"0.99999", 16, 15, 10, Manner::Strict),
    )
}

// The odd bit is in the integer.
fn ties(rt: &impl Print) -> io::Result<()> {
    shown::answer(
        rt,
        b"W 8 signed F 0, 1.5, strict",
        text::read::<i64>(b"1.5", 8, 0, 10, Manner::Strict),
    )?;
    shown::answer(
        rt,
        b"W 8 signed F 0, 2.5, strict",
        text::read::<i64>(b"2.5", 8, 0, 10, Manner::Strict),
    )
}

pub fn literals(rt: &impl Print) -> io::Result<()> {
    shown::answer(
        rt,
        b"I1F15, literal +1",
        text::read_literal::<i64>(b"+1", 16, 15),
    )?;
    shown::answer(
        rt,
        b"I1F15, literal 0x-1",
        text::read_literal::<i64>(b"0x-1", 16, 15),
    )?;
    shown::answer(
        rt,
        b"I1F15, empty literal",
        text::read_literal::<i64>(b"", 16, 15),
    )?;
    shown::answer(
        rt,
        b"I1F15, literal -",
        text::read_literal::<i64>(b"-", 16, 15),
    )?;
    shown::answer(
        rt,
        b"W 16 unsigned F 15, literal -",
        text::read_literal::<u64>(b"-", 16, 15),
    )?;
    shown::answer(
        rt,
        b"I1F15, literal 0X1",
        text::read_literal::<i64>(b"0X1", 16, 15),
    )?;
    shown::answer(
        rt,
        b"I1F15, literal -0x_0.8",
        text::read_literal::<i64>(b"-0x_0.8", 16, 15),
    )
}
