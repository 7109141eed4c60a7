// The questions to the readers: kinds p, a plain text, and l, a literal.
use crate::answer::{self, Stored};
use crate::line::{FRAC, Line, WIDTH};
use format::{Manner, Raw};

// The fields between the format and the text.
const RADIX: usize = 3;

const MANNER: usize = 4;

const NUMBER: usize = 5;

const FLAG: usize = 6;

const VALUE: usize = 7;

pub(crate) fn plain<R: Raw>(line: &Line) -> bool {
    let text = line.text.bytes();
    let width = line.numbers[WIDTH].small();
    let frac = line.numbers[FRAC].small();
    let radix = line.numbers[RADIX].small();
    let manner = manner(line.numbers[MANNER].size);
    answer::differs(
        stored(line),
        text::read::<R>(text, width, frac, radix, manner),
    )
}

// A literal has its radix within it, and is read in one manner.
pub(crate) fn literal<R: Raw>(line: &Line) -> bool {
    let text = line.text.bytes();
    let width = line.numbers[WIDTH].small();
    let frac = line.numbers[FRAC].small();
    answer::differs(stored(line), text::read_literal::<R>(text, width, frac))
}

fn stored(line: &Line) -> Stored {
    Stored {
        number: line.numbers[NUMBER].size,
        flag: line.numbers[FLAG].size,
        value: line.numbers[VALUE],
    }
}

fn manner(number: u64) -> Manner {
    match number {
        0 => Manner::Strict,
        1 => Manner::Saturating,
        2 => Manner::Wrapping,
        _ => Manner::Overflowing,
    }
}
