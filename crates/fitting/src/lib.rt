// The fitting file (01, module 9): its value lines as a list of line number,
// raw and answer, and the taps if none is refused.
#![tactic(auto)]

ghost use Rattle.std.specs.Prelude.{◌≡◌};
ghost use Rattle.fitting.specs.Promise.{Reads};
ghost use Rattle.fitting.specs.declared.FileRefusal.TheVariants.{Whole};

use format::Refusal;

pub mod check;
pub mod judge;

// The longest file.
pub const FILE_LIMIT: usize = 16384;

// How many values a file holds; or why it is refused.
pub type FileAnswer = Result<u32, FileRefusal>;

// A refusal of the whole file; or 42, with the number of the first refused line and the number of its refusal: a
// number, since `judge` reads it from the list of numbers that C lends.
#[derive(Clone, Copy, Debug, PartialEq, Eq)]
pub enum FileRefusal {
    Whole(Refusal),
    Line { line: u32, inner: u32 },
}

impl From<Refusal> for FileRefusal {
    ghost from_gives = { λ refusal r. r ≡ Whole refusal };

    fn from(refusal: Refusal) -> FileRefusal {
        FileRefusal::Whole(refusal)
    }
}

// The list is three slices of one length, as the C interface lends them: line numbers, raws and answers.
pub fn read(
    file: &[u8],
    lines: &mut [u32],
    raws: &mut [i16],
    answers: &mut [u32],
    taps: &mut [i16],
) -> FileAnswer
    ensures { Reads file.now lines.old raws.old answers.old
        taps.old result lines.new raws.new answers.new taps.new }
{
    let values = check::check(file, lines.len(), raws.len(), answers.len(), taps.len())?;
    value_lines::store(file, lines, raws, answers);
    judge::judge(lines, answers, values)?;
    judge::keep(raws, taps, values);
    Ok(values)
}
