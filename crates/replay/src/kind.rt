// What a line is, by the letter of its first field; where that has several, by the last.

#[derive(Clone, Copy)]
pub(crate) enum Kind {
    Comment,
    Question(Question),
    // A letter of no kind, or none.
    Other,
}

// The function that a line asks.
#[derive(Clone, Copy)]
pub(crate) enum Question {
    Plain,
    Literal,
    Logarithm,
}

impl From<u8> for Kind {
    fn from(letter: u8) -> Kind {
        match letter {
            b'#' => Kind::Comment,
            b'p' => Kind::Question(Question::Plain),
            b'l' => Kind::Question(Question::Literal),
            b'g' => Kind::Question(Question::Logarithm),
            _ => Kind::Other,
        }
    }
}
