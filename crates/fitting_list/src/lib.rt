// The fitting file (01, module 9) with its list as one lent slice of records.
#![tactic(auto)]

ghost use Rattle.fitting_list.specs.Promise.{ReadsList, ReadsParts};

use filter::TAPS;
use fitting::{FileAnswer, check, judge};

// A value line: its number, its raw (0 where refused) and its answer (0 where not). No Result: module 9 of document 01
// asks for line, raw and answer, and `ReadsList` speaks of the three.
#[derive(Clone, Copy, Debug, PartialEq, Eq)]
pub struct Entry {
    pub line: u32,
    pub raw: i16,
    pub answer: u32,
}

// The list and the taps as `fitting::read` writes them, with the list as one lent slice of records. The value lines are
// found in three arrays: `value_lines::store` and `judge` take three slices, which C lends to `fitting::read`.
// The second clause is the promise of `fitting::read`, of the list's parts: what is proved of that holds here.
pub fn read_list(file: &[u8], list: &mut [Entry], taps: &mut [i16]) -> FileAnswer
    ensures records { ReadsList file.now list.old taps.old result list.new taps.new }
    ensures parts { ReadsParts file.now list.old taps.old result list.new taps.new }
{
    let room = list.len();
    let values = check::check(file, room, room, room, taps.len())?;
    let mut lines = [0u32; TAPS];
    let mut raws = [0i16; TAPS];
    let mut answers = [0u32; TAPS];
    value_lines::store(file, &mut lines, &mut raws, &mut answers);
    let judged = judge::judge(&lines, &answers, values);
    let n = values as usize;
    // by the entry's place: of what a `zip` over `iter_mut` writes, std's clauses say only how many places there are
    for (i, entry) in list[..n].iter_mut().enumerate() {
        let line = lines[i];
        let raw = raws[i];
        let answer = answers[i];
        *entry = Entry { line, raw, answer };
    }
    judged?;
    judge::keep(&raws, taps, values);
    Ok(values)
}
