// The taps of a filter: 1 to 64, so no more than its line has samples.
ghost use Rattle.std.specs.Prelude.{◌≡◌, ◌≤◌, length};
ghost use Rattle.format.specs.Meaning.{checked};
ghost use Rattle.filter.specs.Meaning.{most_taps, taps_fault};

use super::TAPS;
use format::Refusal;
use std::marker::Model;

// A clause sees the list of the taps.
#[derive(Drop)]
pub struct Taps<'a> {
    raws: &'a [i16],
}

impl<'a> Model for Taps<'a> {
    ghost use Rattle.std.specs.Prelude.{◌≤◌, List, ℤ, length};
    ghost use Rattle.filter.specs.Meaning.{most_taps};

    ghost Value = { List ℤ };

    ghost view = { λ t. t.raws.now };

    ghost invariant = { λ t. length t.raws.now ≤ most_taps };
}

impl<'a> Taps<'a> {
    // 40 where they are not 1 to 64.
    pub fn new(raws: &'a [i16]) -> Result<Taps<'a>, Refusal>
        ensures { result ≡ checked (taps_fault (length raws.now)) raws.now }
    {
        if raws.is_empty() || TAPS < raws.len() {
            return Err(Refusal::WrongTaps);
        }
        Ok(Taps { raws })
    }

    pub fn raws(&self) -> &[i16]
        ensures taps { result.now ≡ self.now }
        ensures few { length result.now ≤ most_taps }
    {
        self.raws
    }
}
