// The text of a line, two hexadecimal digits a byte.
ghost use Rattle.std.specs.Prelude.{◌≤◌};

// A little more than the longest text that is read, so that a longer one can be stored.
const ROOM: usize = 4100;

// A buffer and how much of it counts: no `Vec`, since nothing here is on the heap.
#[derive(Drop)]
pub(crate) struct Text {
    bytes: [u8; ROOM],
    digits: usize,
    ghost inside: { digits ≤ 8200 },
}

impl Text {
    pub(crate) fn new() -> Text {
        Text {
            bytes: [0; ROOM],
            digits: 0,
        }
    }

    // An empty text. Bytes of the one before stay in the room: each is written anew before it counts.
    pub(crate) fn clear(&mut self) {
        self.digits = 0;
    }

    // One more digit. An empty text is a `-`, which is none.
    pub(crate) fn put(&mut self, b: u8) {
        if b == b'-' || self.digits >= 2 * ROOM {
            return;
        }
        let at = self.digits / 2;
        // The first digit of a byte stands alone, the second joins it.
        self.bytes[at] = if self.digits % 2 == 1 {
            self.bytes[at] << 4 | value(b)
        } else {
            value(b)
        };
        self.digits += 1;
    }

    pub(crate) fn bytes(&self) -> &[u8] {
        &self.bytes[..self.digits / 2]
    }
}

// A digit above 9 counts in lower case alone, as the files have it, and any other byte as 0. `digit_of` of `grammar`
// takes both cases.
fn value(b: u8) -> u8 {
    match b {
        b'0'..=b'9' => b - b'0',
        b'a'..=b'f' => b - b'a' + 10,
        _ => 0,
    }
}
