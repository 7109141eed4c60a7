// After the mark: the exponent's sign or none, its digits, and the end of the text.
ghost use Rattle.std.specs.Prelude.{◌≡◌, ◌≤◌, length, drop};
ghost use Rattle.grammar.specs.Automaton.{at, exponent as exponentPart, nothing, sign as signSeen};
ghost use Rattle.grammar.specs.Reading.{reading};
ghost use Rattle.grammar.specs.Run.{sep_of};
ghost use Rattle.scan.specs.Found.{written_of, Ready, Finds};

use crate::reader::Reader;
use crate::{Found, Parsed, ends};

impl Reader {
    // The exponent's digits, once its sign was read. What is known of p and of the place speaks of the text, which is
    // lent beside them (`Reader` says why). `seen` and `e` are two, and no Option, as `exponent::exp_step` takes them.
    fn exp_run(self, text: &[u8], from: usize, p: Parsed) -> Found
        requires { (from ≤ length text.now) × Ready text.now p }
        ensures { Finds text.now result
            (reading (sep_of self.skip) self.radix (drop from text.now)
            (at exponentPart signSeen (written_of text.now p))) }
    {
        let mut e = p.exp;
        let mut seen = false;
        for b in &text[from..] {
            e = exponent::exp_step(*b, self.radix, self.skip, seen, p.down, e)?;
            seen = true;
        }
        ends::exp_end(p, seen, e)
    }

    // After the mark: a sign or none, then digits.
    pub(crate) fn exponent(self, text: &[u8], from: usize, p: Parsed) -> Found
        requires { (from ≤ length text.now) × Ready text.now p }
        ensures { Finds text.now result
            (reading (sep_of self.skip) self.radix (drop from text.now)
            (at exponentPart nothing (written_of text.now p))) }
    {
        match text.get(from) {
            Some(b'+') => self.exp_run(text, from + 1, Parsed { down: false, ..p }),
            Some(b'-') => self.exp_run(text, from + 1, Parsed { down: true, ..p }),
            _ => self.exp_run(text, from, p),
        }
    }
}
