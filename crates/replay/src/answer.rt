// An answer of the library against the one that a line stores.
use crate::line::Number;
use format::{Answered, Raw};

// An answer as a line stores it: its number and flag, and its value.
#[derive(Clone, Copy, PartialEq, Eq)]
pub(crate) struct Stored {
    pub number: u64,
    pub flag: u64,
    pub value: Number,
}

impl<R: Raw> From<Answered<R>> for Stored {
    fn from(answered: Answered<R>) -> Stored {
        match answered {
            Ok(answer) => Stored {
                number: 0,
                flag: u64::from(answer.flag),
                value: Number {
                    below: answer.raw.is_below(),
                    size: answer.raw.magnitude(),
                },
            },
            Err(refusal) => Stored {
                number: u64::from(refusal.number()),
                flag: 0,
                value: Number::ZERO,
            },
        }
    }
}

// Whether the answer is another.
pub(crate) fn differs<R: Raw>(stored: Stored, answered: Answered<R>) -> bool {
    stored != Stored::from(answered)
}
