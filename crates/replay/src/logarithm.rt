// The question of the logarithm: kind g.
use crate::answer::{self, Stored};
use crate::line::{FRAC, Line, WIDTH};
use format::{Exact, Manner, Raw};

// The fields after the format.
const NUMBER: usize = 3;

const VALUE: usize = 4;

const RAW: usize = 5;

// A signed raw that is no word has no answer. Of an unsigned one a sign is passed over.
pub(crate) fn log10<R: Raw>(line: &Line) -> bool {
    let width = line.numbers[WIDTH].small();
    let frac = line.numbers[FRAC].small();
    let raw = line.numbers[RAW];
    let x = Exact::new(R::signed() && raw.below, raw.size.into());
    match format::settle::<R>(x, 64, 0, Manner::Strict) {
        Ok(word) => answer::differs(stored(line), log10::log10(word.raw, width, frac)),
        Err(_) => true,
    }
}

// No flag is stored: a logarithm has none set.
fn stored(line: &Line) -> Stored {
    Stored {
        number: line.numbers[NUMBER].size,
        flag: 0,
        value: line.numbers[VALUE],
    }
}
