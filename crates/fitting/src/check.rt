// What is refused before anything is written: 4, 41, 5, 40 in this order.
ghost use Rattle.std.specs.Prelude.{◌≡◌};
ghost use Rattle.format.specs.Meaning.{checked};
ghost use Rattle.fitting.specs.Meaning.{room_fault};
ghost use Rattle.fitting.specs.Room.{checked_of};

use crate::FILE_LIMIT;
use filter::TAPS;
use format::Refusal;

// Lists of unequal length, or fewer places than values; then no value.
fn room(
    values: usize,
    lines: usize,
    raws: usize,
    answers: usize,
    taps: usize,
) -> Result<(), Refusal>
    ensures { result ≡ checked (room_fault values lines raws answers taps) tt }
{
    if lines != raws || lines != answers || lines < values || taps < values {
        return Err(Refusal::WrongLength);
    }
    if values == 0 {
        return Err(Refusal::WrongTaps);
    }
    Ok(())
}

// The number of values, or the refusal.
pub fn check(
    file: &[u8],
    lines: usize,
    raws: usize,
    answers: usize,
    taps: usize,
) -> Result<u32, Refusal>
    ensures { result ≡ checked_of file.now lines raws answers taps }
{
    if FILE_LIMIT < file.len() {
        return Err(Refusal::TooLong);
    }
    let values = value_lines::count(file);
    if TAPS < values {
        return Err(Refusal::TooManyValues);
    }
    room(values, lines, raws, answers, taps)?;
    Ok(values as u32)
}
