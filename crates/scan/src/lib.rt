// Which texts are numbers, and where their digits stand: one pass over the bytes, by runs of digits
// (docs/GRAMMAR.md; `parse_bounds` and `lit` of S's src/from_str.rs). A plain text is scanned here, a literal
// in literal.rt. Inner functions of the readers.
#![tactic(auto)]

ghost use Rattle.std.specs.Prelude.{◌≡◌, true};
ghost use Rattle.grammar.specs.Meaning.{plain_reading, is_radix};
ghost use Rattle.scan.specs.Found.{Finds};
ghost use Rattle.scan.specs.Parts.{before_mark};

use format::Refusal;
use reader::Reader;
use run::Run;

mod ends;
pub mod literal;
mod mark;
mod parts;
mod reader;

// A number as it stands in the text. `base` is what the exponent scales by. `down` and `exp` are apart as in the
// meaning's `Written`, which `Finds` gives back: `1e-0` has a sign of its own there, and in one signed number has none.
#[derive(Clone, Copy)]
pub struct Parsed {
    pub neg: bool,
    pub whole: Run,
    pub frac: Run,
    pub base: u32,
    pub down: bool,
    pub exp: u64,
}

impl Parsed {
    // What was read before the mark: no exponent.
    fn new(neg: bool, whole: Run, frac: Run) -> Parsed
        ensures { result ≡ before_mark neg whole frac }
    {
        Parsed {
            neg,
            whole,
            frac,
            base: 1,
            down: false,
            exp: 0,
        }
    }
}

// What the scanner finds.
pub type Found = Result<Parsed, Refusal>;

// A plain text in a radix.
pub fn plain(text: &[u8], radix: u32) -> Found
    requires { is_radix radix ≡ true }
    ensures { Finds text.now result (plain_reading radix text.now) }
{
    let reader = Reader { radix, skip: false };
    match text {
        [b'+', ..] => reader.whole(text, 1, false),
        [b'-', ..] => reader.whole(text, 1, true),
        _ => reader.whole(text, 0, false),
    }
}
