// What a line asks, by its kind and the sign of its format.
use crate::kind::{Kind, Question};
use crate::line::{Line, SIGNED};
use crate::{logarithm, reader};
use format::Raw;

// Whether the answer differs from the one that is stored; None of a comment, which stores none. What asks no function,
// or of a format neither unsigned nor signed, has no answer, and so differs.
pub(crate) fn differs(line: &Line) -> Option<bool> {
    match line.kind {
        Kind::Comment => None,
        Kind::Question(question) => Some(match line.numbers[SIGNED].size {
            0 => answered::<u64>(question, line),
            1 => answered::<i64>(question, line),
            _ => true,
        }),
        Kind::Other => Some(true),
    }
}

fn answered<R: Raw>(question: Question, line: &Line) -> bool {
    match question {
        Question::Plain => reader::plain::<R>(line),
        Question::Literal => reader::literal::<R>(line),
        Question::Logarithm => logarithm::log10::<R>(line),
    }
}
