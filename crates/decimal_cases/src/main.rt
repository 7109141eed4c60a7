// Writes document 01's case, the ends of every format, every raw of W = 8 with every F, and buffers of several lengths.
// The file `stdout` beside src/ is computed by oracle/decimal_cases.py, not by this program.
#![tactic(auto)]

ghost use Rattle.std.specs.Prelude.{◌≤◌};

use format::{Answered, Raw};
use std::io;

fn main(rt: HostRuntime) -> io::Result<()> {
    line(&rt, 1i64, 16, 15)?;
    ends(&rt, 8, i8::MIN, i8::MAX, u8::MAX)?;
    ends(&rt, 16, i16::MIN, i16::MAX, u16::MAX)?;
    ends(&rt, 32, i32::MIN, i32::MAX, u32::MAX)?;
    ends(&rt, 64, i64::MIN, i64::MAX, u64::MAX)?;
    every_frac(&rt)?;
    buffers(&rt)?;
    refusals(&rt)
}

// The ends of the formats of one width.
fn ends<I: Into<i64>, U: Into<u64>>(
    rt: &impl Print,
    width: u32,
    low: I,
    high: I,
    top: U,
) -> io::Result<()>
    requires { width ≤ 64 }
{
    let (low, high, top) = (low.into(), high.into(), top.into());
    for frac in 0..=width {
        line(rt, low, width, frac)?;
        line(rt, high, width, frac)?;
        line(rt, top, width, frac)?;
    }
    Ok(())
}

// Every raw of W = 8, unsigned and then signed.
fn every_frac(rt: &impl Print) -> io::Result<()> {
    for frac in 0..=8 {
        every_raw(rt, frac)?;
    }
    Ok(())
}

fn every_raw(rt: &impl Print, frac: u32) -> io::Result<()> {
    for byte in 0..=255u8 {
        line(rt, u64::from(byte), 8, frac)?;
        line(rt, i64::from(byte.cast_signed()), 8, frac)?;
    }
    Ok(())
}

fn line<R: Raw>(rt: &impl Print, raw: R, width: u32, frac: u32) -> io::Result<()> {
    let mut text = [0u8; 67];
    let answer = decimal::write(raw, width, frac, &mut text[..]);
    show(rt, answer, &text[..])
}

// Document 01's case into buffers with room to spare, of exactly its length, one byte less, and none.
fn buffers(rt: &impl Print) -> io::Result<()> {
    let mut spare = [42u8; 20];
    into(rt, &mut spare[..])?;
    let mut exact = [42u8; 17];
    into(rt, &mut exact[..])?;
    let mut less = [42u8; 16];
    into(rt, &mut less[..])?;
    into(rt, &mut less[..0])
}

// The text that was written, or the refusal, and the buffer after it.
fn into(rt: &impl Print, out: &mut [u8]) -> io::Result<()> {
    let answer = decimal::write(1i64, 16, 15, out);
    show(rt, answer, out)?;
    rt.write_all(out)?;
    rt.println("")
}

// 1, then 2, then 5.
fn refusals(rt: &impl Print) -> io::Result<()> {
    let mut none = [0u8; 1];
    show(rt, decimal::write(1i64, 15, 16, &mut none[..0]), b"")?;
    show(rt, decimal::write(1i64, 16, 17, &mut none[..0]), b"")?;
    show(rt, decimal::write(1u64, 16, 16, &mut none[..0]), b"")
}

// The bytes that were written, or the refusal.
fn show(rt: &impl Print, answer: Answered<u64>, text: &[u8]) -> io::Result<()> {
    match answer {
        Ok(written) => rt.write_all(text.get(..written.raw as usize).unwrap_or(b""))?,
        Err(refusal) => print!(rt; "refused {}", refusal.number())?,
    }
    rt.println("")
}
