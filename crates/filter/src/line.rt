// The line of the last samples, newest first; and the window that it slides down in.
ghost use Rattle.std.specs.Prelude.{◌≡◌, length, pos, replicate};
ghost use Rattle.filter.specs.Meaning.{most_taps, next};

use super::TAPS;
use std::marker::Model;
use std::mem;

// The new sample in front, each other one place on; the oldest goes.
// One pass, with the sample that is on its way in hand: by `copy_within` a step took 1.7 of its time.
pub(crate) fn push(line: &mut [i16; TAPS], x: i16)
    ensures { line.new ≡ next line.old x }
{
    let mut carried = x;
    for place in line.iter_mut() {
        carried = mem::replace(place, carried);
    }
}

// A line's places, and as many before them.
const ROOM: usize = 2 * TAPS;

// A line that slides down a window, so that a new sample takes one place and moves no other. A clause sees the line.
#[derive(Drop)]
pub(crate) struct Window {
    places: [i16; ROOM],
    at: usize,
}

impl Model for Window {
    ghost use Rattle.std.specs.Prelude.{◌≤◌, List, ℤ};
    ghost use Rattle.filter.specs.Window.{line_at};
    ghost use Rattle.filter.specs.Meaning.{most_taps};

    ghost Value = { List ℤ };

    ghost view = { λ w. line_at w.at w.places };

    ghost invariant = { λ w. w.at ≤ most_taps };
}

impl Window {
    // A silent line, into which that of a call is laid: a window that is handed over with its line is copied once more.
    pub(crate) fn silent() -> Window
        ensures { result ≡ replicate most_taps (pos 0) }
    {
        Window {
            places: [0i16; ROOM],
            at: TAPS,
        }
    }

    // The line at the window's end.
    pub(crate) fn lay(&mut self, line: &[i16; TAPS])
        ensures { self.new ≡ line.now }
    {
        self.places[TAPS..].copy_from_slice(line);
        self.at = TAPS;
    }

    // The new sample in front. Where the line has come to the window's front, it is laid at the end again.
    pub(crate) fn push(&mut self, x: i16)
        ensures { self.new ≡ next self.old x }
    {
        let at = if self.at == 0 {
            self.places.copy_within(..TAPS, TAPS);
            TAPS - 1
        } else {
            self.at - 1
        };
        self.places[at] = x;
        self.at = at;
    }

    pub(crate) fn line(&self) -> &[i16]
        ensures line { result.now ≡ self.now }
        ensures len { length result.now ≡ most_taps }
    {
        &self.places[self.at..self.at + TAPS]
    }
}
