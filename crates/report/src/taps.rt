// The taps, each with the line that it stands on; and samples.
use super::out;
use fitting_list::Entry;
use std::io;

// I1F15. `value_lines` has the two as well; it is an inner crate of the fitting file, on which `report` does not stand.
const WIDTH: u32 = 16;

const FRAC: u32 = 15;

pub(crate) fn show(rt: &impl Print, list: &[Entry]) -> io::Result<()> {
    for (i, entry) in list.iter().enumerate() {
        print!(rt; "tap {} line {}", i + 1, entry.line)?;
        level(rt, entry.raw)?;
    }
    Ok(())
}

// Newest first.
pub(crate) fn samples(rt: &impl Print, list: &[i16]) -> io::Result<()> {
    for (i, raw) in list.iter().enumerate() {
        print!(rt; "sample {}", i + 1)?;
        level(rt, *raw)?;
    }
    Ok(())
}

fn level(rt: &impl Print, raw: i16) -> io::Result<()> {
    rt.print(": ")?;
    out::value(rt, i64::from(raw), WIDTH, FRAC)?;
    rt.println("")
}
