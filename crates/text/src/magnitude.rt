// The magnitude of a number that the scanner found: its digits stand in one stretch of
// the text, and the radix says how they are taken.
ghost use Rattle.std.specs.Prelude.{◌≡◌};
ghost use Rattle.grammar.specs.Meaning.{raw_of};
ghost use Rattle.scan.specs.Found.{written_of};
ghost use Rattle.fold.specs.Fold.{fold_of};
ghost use Rattle.text.specs.Read.{Readable};

use fold::Folded;
use scan::Parsed;

pub(crate) fn magnitude(text: &[u8], p: Parsed, radix: u32, frac: u32) -> Folded
    requires { Readable text.now p radix frac }
    ensures { result ≡ fold_of (raw_of radix frac (written_of text.now p)) }
{
    let from = p.whole.from;
    let to = p.frac.to;
    let after = p.frac.digits;
    let n = p.whole.digits + after;
    let body = &text[from..to];
    if radix == 10 {
        return tens::tens(body, n, after, p.down, p.exp, frac);
    }
    bits::bits(body, n, after, radix, p.base, p.down, p.exp, frac)
}
