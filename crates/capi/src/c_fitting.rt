// tq_fitting: a fitting file as a list of line number, raw and answer, and its taps.
ghost use Rattle.std.specs.Prelude.{◌≡◌};
ghost use Rattle.fitting.specs.Promise.{Reads};
ghost use Rattle.capi.specs.Meaning.{file_of};
ghost use Rattle.capi.specs.Promise.{File};

use fitting::{FileAnswer, FileRefusal};

// A refused line's number in the table: C has numbers, where the code has `FileRefusal::Line`.
const REFUSED_LINE: u32 = 42;

// tq_file
#[repr(C)]
#[derive(Clone, Copy)]
pub struct CFile {
    pub number: u32,
    pub line: u32,
    pub inner: u32,
    pub values: u32,
}

impl From<FileAnswer> for CFile {
    ghost from_gives = { λ a r. r ≡ file_of a };

    fn from(a: FileAnswer) -> CFile {
        match a {
            Ok(values) => CFile {
                number: 0,
                line: 0,
                inner: 0,
                values,
            },
            Err(refusal) => refused(refusal),
        }
    }
}

fn refused(refusal: FileRefusal) -> CFile
    ensures { result ≡ file_of (Err refusal) }
{
    match refusal {
        FileRefusal::Whole(whole) => CFile {
            number: whole.number(),
            line: 0,
            inner: 0,
            values: 0,
        },
        FileRefusal::Line { line, inner } => CFile {
            number: REFUSED_LINE,
            line,
            inner,
            values: 0,
        },
    }
}

// Slices apart: C lends them so.
#[unsafe(no_mangle)]
pub extern "C" fn tq_fitting(
    file: &[u8],
    lines: &mut [u32],
    raws: &mut [i16],
    answers: &mut [u32],
    taps: &mut [i16],
) -> CFile
    ensures { File (λ a. Reads
        file.now lines.old raws.old answers.old taps.old
        a lines.new raws.new answers.new taps.new) result }
{
    fitting::read(file, lines, raws, answers, taps).into()
}
