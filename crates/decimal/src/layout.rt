// A text laid out around its point, which grows to both sides.
ghost use Rattle.std.specs.Prelude.{◌≡◌, ℕ, List, [], ◌∷◌, ◌++◌, ◌+◌, ◌<◌, ◌≤◌, length};

// Sign and whole digits end before the point's place, at most 21 bytes; the point and at most 64 digits follow, and a
// place to spare. So neither part waits for the other's length.
pub(crate) const POINT: usize = 21;

pub(crate) const PLACES: usize = 87;

// The text stands from `start` to `end` of fixed places: there is no heap for a `String`. The places are lent, so that
// the compiler keeps both ends in registers.
#[derive(Drop)]
pub(crate) struct Layout<'a> {
    places: &'a mut [u8; PLACES],
    pub(crate) start: usize,
    pub(crate) end: usize,
    ghost room: { length places.now ≡ 87 },
    ghost ordered: { start ≤ end },
    ghost inside: { end ≤ 87 },
}

impl<'a> Layout<'a> {
    ghost use Rattle.decimal.specs.Laid.{laid, unless_zero};

    // No text yet.
    #[tactic(auto, unfolding(crate::specs::Laid::laid))]
    pub(crate) fn new(places: &'a mut [u8; PLACES]) -> Layout<'a>
        ensures start { result.start ≡ POINT }
        ensures end { result.end ≡ POINT }
        ensures text { laid result ≡ [] }
    {
        Layout {
            places,
            start: POINT,
            end: POINT,
        }
    }

    pub(crate) fn prepend(&mut self, byte: u8)
        requires { 0 < self.old.start }
        ensures start { self.new.start + 1 ≡ self.old.start }
        ensures text { laid self.new ≡ byte ∷ laid self.old }
    {
        self.start -= 1;
        self.places[self.start] = byte;
    }

    pub(crate) fn append(&mut self, byte: u8)
        requires { self.old.end < PLACES }
        ensures start { self.new.start ≡ self.old.start }
        ensures end { self.new.end ≡ self.old.end + 1 }
        ensures text { laid self.new ≡ laid self.old ++ (byte ∷ []) }
    {
        self.places[self.end] = byte;
        self.end += 1;
    }

    // The last byte goes if it is a zero.
    pub(crate) fn drop_zero(&mut self)
        requires { self.old.start < self.old.end }
        ensures start { self.new.start ≡ self.old.start }
        ensures text { (t : List ℕ) (b : ℕ) → laid self.old ≡ t ++ (b ∷ []) → laid self.new ≡ t ++ unless_zero b }
    {
        if self.places[self.end - 1] == b'0' {
            self.end -= 1;
        }
    }

    #[tactic(auto, unfolding(crate::specs::Laid::laid))]
    pub(crate) fn into_text(self) -> &'a [u8]
        ensures { result.now ≡ laid self.entry }
    {
        let Layout { places, start, end } = self;
        &places[start..end]
    }
}
