// Why a call is refused: document 01's table of answers, each refusal with its number there.
ghost use Rattle.std.specs.Prelude.{◌≡◌};
ghost use Rattle.format.specs.Meaning.{number};

#[derive(Clone, Copy, Debug, PartialEq, Eq)]
pub enum Refusal {
    WrongWidth = 1,
    WrongFrac = 2,
    WrongRadix = 3,
    TooLong = 4,
    WrongLength = 5,
    Overflow = 10,
    NoDigits = 11,
    MisplacedSign = 12,
    InvalidDigit = 13,
    MisplacedUnderscore = 14,
    TooManyPoints = 15,
    ExpInvalidDigit = 16,
    ExpNoDigits = 17,
    TooManyExp = 18,
    ExpOverflow = 19,
    NotANumber = 30,
    ZeroDivisor = 31,
    NotPositive = 32,
    WrongTaps = 40,
    TooManyValues = 41,
}

impl Refusal {
    // Its number in the table, which C is handed.
    #[tactic(auto, unfolding(crate::specs::Meaning::number))]
    pub fn number(self) -> u32
        ensures { result ≡ number self }
    {
        self as u32
    }
}
