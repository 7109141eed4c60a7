// What a byte is to the scanner (docs/GRAMMAR.md, "Classes of bytes").
ghost use Rattle.std.specs.Prelude.{◌≡◌};
ghost use Rattle.grammar.specs.Meaning.{digit_of};
ghost use Rattle.grammar.specs.Automaton.{is_digit};
ghost use Rattle.grammar.specs.Class.{digit, mark_base, class_of};

// A byte in front of which a run of digits ends. A mark comes with what it scales by.
#[derive(Clone, Copy)]
pub enum Class {
    Sign,
    Point,
    Underscore,
    Mark(u32),
    Other,
}

// The value of a byte as a digit, 16 where it is none. No Option: `fold` takes any byte by it, as the meaning does
// (`digit_of`); what may be no digit goes through `digit`.
#[tactic(auto, using(laws::specs::Rules::tests), unfolding(crate::specs::Meaning::digit_of))]
pub fn digit_of(b: u8) -> u32
    ensures { result ≡ digit_of b }
{
    match b {
        b'0'..=b'9' => u32::from(b - b'0'),
        b'A'..=b'F' => u32::from(b - b'A' + 10),
        b'a'..=b'f' => u32::from(b - b'a' + 10),
        _ => 16,
    }
}

// A byte as a digit of a radix.
#[tactic(auto, using(laws::specs::Rules::tests), unfolding(crate::specs::Class::digit))]
pub fn digit(b: u8, radix: u32) -> Option<u32>
    ensures { result ≡ digit radix b }
{
    let d = digit_of(b);
    (d < radix).then_some(d)
}

#[tactic(auto, unfolding(crate::specs::Class::digit))]
pub fn is_digit(b: u8, radix: u32) -> bool
    ensures { result ≡ is_digit radix b }
{
    digit(b, radix).is_some()
}

// What a mark of the radix scales by: `p` and `P` by 2, the others by the radix.
#[tactic(auto, unfolding(crate::specs::Class::mark_base, crate::specs::Meaning::is_mark))]
fn mark_base(b: u8, radix: u32) -> Option<u32>
    ensures { result ≡ mark_base radix b }
{
    match b {
        b'@' => Some(radix),
        b'e' | b'E' if radix != 16 => Some(radix),
        b'p' | b'P' if radix != 10 => Some(2),
        _ => None,
    }
}

// The class of a byte that is no digit of the run before it.
#[tactic(auto, unfolding(crate::specs::Class::class_of, crate::specs::Class::mark_base))]
pub fn class_of(b: u8, radix: u32) -> Class
    ensures { result ≡ class_of radix b }
{
    match b {
        b'+' | b'-' => Class::Sign,
        b'.' => Class::Point,
        b'_' => Class::Underscore,
        _ => match mark_base(b, radix) {
            Some(base) => Class::Mark(base),
            None => Class::Other,
        },
    }
}
