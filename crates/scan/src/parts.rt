// The number's parts before the mark, and the byte in front of which each one's run ended.
ghost use Rattle.std.specs.Prelude.{◌≡◌, ◌≤◌, length, drop};
ghost use Rattle.grammar.specs.Meaning.{blank};
ghost use Rattle.grammar.specs.Automaton.{at, whole as wholePart, fraction as fractionPart, nothing, sign as signSeen};
ghost use Rattle.grammar.specs.Reading.{reading};
ghost use Rattle.grammar.specs.Run.{sep_of};
ghost use Rattle.scan.specs.After.{after_run};
ghost use Rattle.scan.specs.Found.{written_of, whole_of, Ready, Finds};
ghost use Rattle.scan.specs.Parts.{Behind};

use crate::reader::Reader;
use crate::{Found, Parsed, ends};
use format::Refusal;
use grammar::byte;
use grammar::byte::Class;
use run::Run;

impl Reader {
    // After a run of digits, by the class of the byte in front of which it ended; the text goes on at `next`.
    fn after_run(self, text: &[u8], class: Class, next: usize, p: Parsed) -> Found
        requires { (next ≤ length text.now) × Ready text.now p }
        ensures { Finds text.now result
            (after_run class self.skip self.radix (drop next text.now) (written_of text.now p)) }
    {
        match class {
            Class::Sign => Err(Refusal::MisplacedSign),
            Class::Point => Err(Refusal::TooManyPoints),
            // the literal reader finds a `_` misplaced, the plain reader no digit
            Class::Underscore if self.skip => Err(Refusal::MisplacedUnderscore),
            Class::Mark(base) => self.exponent(text, next, Parsed { base, ..p }),
            Class::Underscore | Class::Other => Err(Refusal::InvalidDigit),
        }
    }

    // After the point.
    fn fraction(self, text: &[u8], from: usize, neg: bool, whole: Run) -> Found
        requires { (from ≤ length text.now) × Behind text.now whole from }
        ensures { Finds text.now result
            (reading (sep_of self.skip) self.radix (drop from text.now)
            (at fractionPart nothing (whole_of text.now neg whole))) }
    {
        let run = run::run_at(text, from, self.radix, self.skip);
        let p = Parsed::new(neg, whole, run);
        let Some(b) = text.get(run.to) else {
            return ends::unmarked(p);
        };
        self.after_run(text, byte::class_of(*b, self.radix), run.to + 1, p)
    }

    // The number's digits, once its sign was read.
    pub(crate) fn whole(self, text: &[u8], from: usize, neg: bool) -> Found
        requires { from ≤ length text.now }
        ensures { Finds text.now result
            (reading (sep_of self.skip) self.radix (drop from text.now) (at wholePart signSeen (blank neg))) }
    {
        let run = run::run_at(text, from, self.radix, self.skip);
        let behind = Run {
            from: run.to,
            to: run.to,
            digits: 0,
        };
        let p = Parsed::new(neg, run, behind);
        let Some(b) = text.get(run.to) else {
            return ends::unmarked(p);
        };
        if *b == b'.' {
            return self.fraction(text, run.to + 1, neg, run);
        }
        self.after_run(text, byte::class_of(*b, self.radix), run.to + 1, p)
    }
}
