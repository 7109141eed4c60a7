// What the list says: done, or the first line that was refused; and the taps.
ghost use Rattle.std.specs.Prelude.{◌≡◌, ◌≤◌, length, take};
ghost use Rattle.value_lines.specs.Meaning.{over};
ghost use Rattle.fitting.specs.Judge.{judged_of};

use crate::{FileAnswer, FileRefusal};

// The first of the values that was refused. They are the first places of the slices that C lends, which may be longer.
pub fn judge(lines: &[u32], answers: &[u32], values: u32) -> FileAnswer
    requires lines_room { values ≤ length lines.now }
    requires answers_room { values ≤ length answers.now }
    ensures { result ≡ judged_of values (take values lines.now) (take values answers.now) }
{
    let n = values as usize;
    let refused = lines[..n]
        .iter()
        .zip(&answers[..n])
        .find(|(_, inner)| **inner != 0);
    match refused {
        Some((line, inner)) => Err(FileRefusal::Line {
            line: *line,
            inner: *inner,
        }),
        None => Ok(values),
    }
}

// The raws into the first taps; both slices may be longer, as above. By the place, since `copy_from_slice` is `memmove`
// here: C lends the slices, and the archive asks for no such function.
pub fn keep(raws: &[i16], taps: &mut [i16], values: u32)
    requires raws_room { values ≤ length raws.now }
    requires taps_room { values ≤ length taps.old }
    ensures { taps.new ≡ over (take values raws.now) taps.old }
{
    for (i, raw) in raws[..values as usize].iter().enumerate() {
        taps[i] = *raw;
    }
}
