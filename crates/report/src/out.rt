// Pieces of a line on the standard output.
use std::io;

// The most bytes of a line of the file that are shown.
const SHOWN: usize = 80;

// The longest text of the writer for I1F15 and for a sum.
const LONGEST: usize = 67;

// A raw, exactly, through the writer.
pub(crate) fn value(rt: &impl Print, raw: i64, width: u32, frac: u32) -> io::Result<()> {
    let mut buf = [0u8; LONGEST];
    match decimal::write(raw, width, frac, &mut buf) {
        Ok(written) => rt.write_all(buf.get(..written.raw as usize).unwrap_or(b"")),
        Err(_) => Ok(()),
    }
}

// A line of the file on one line: a byte that cannot be printed, or a backslash, as its number, `\x0d`.
pub(crate) fn quoted(rt: &impl Print, line: &[u8]) -> io::Result<()> {
    for b in line.iter().take(SHOWN) {
        byte(rt, *b)?;
    }
    if line.len() > SHOWN {
        rt.print("..")?;
    }
    Ok(())
}

fn byte(rt: &impl Print, b: u8) -> io::Result<()> {
    if plain(b) {
        rt.write_all(&[b])
    } else {
        print!(rt; "\\x{b:02x}")
    }
}

fn plain(b: u8) -> bool {
    matches!(b, b' '..=b'~') && b != b'\\'
}
