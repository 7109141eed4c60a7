// A run of digits in a text: from its first digit to the byte in front of
// which it ends. An inner function of the scanner.
#![tactic(auto)]

ghost use Rattle.std.specs.Prelude.{◌≡◌, ◌+◌, ◌≤◌, length, drop};
ghost use Rattle.grammar.specs.Run.{in_run, run_more, run_len};
ghost use Rattle.run.specs.Run.{run_at};

use grammar::byte;

// A run of digits in the text, and how many digits it has (`_` do not count).
#[derive(Clone, Copy)]
pub struct Run {
    pub from: usize,
    pub to: usize,
    pub digits: usize,
}

// A byte that goes on in a run.
fn in_run(b: u8, radix: u32, skip: bool) -> bool
    ensures { result ≡ in_run skip radix b }
{
    byte::is_digit(b, radix) || skip && b == b'_'
}

// The end of a run whose first digit stands before `from`, a place beside its text here and below, as in the scanner:
// `Reader` there says why. By `position`, tried, texts of 60 digits take a tenth more time.
fn rest_end(text: &[u8], from: usize, radix: u32, skip: bool) -> usize
    requires { from ≤ length text.now }
    ensures { result ≡ from + run_more skip radix (drop from text.now) }
{
    for (i, b) in text[from..].iter().enumerate() {
        if !in_run(*b, radix, skip) {
            return from + i;
        }
    }
    text.len()
}

// The end of the run at `from`: `from` where no digit stands there.
#[tactic(auto, using(crate::specs::Run::end_some, crate::specs::Run::end_none, crate::specs::Run::end_past))]
fn run_end(text: &[u8], from: usize, radix: u32, skip: bool) -> usize
    requires { from ≤ length text.now }
    ensures { result ≡ from + run_len skip radix (drop from text.now) }
{
    match text.get(from) {
        Some(b) if byte::is_digit(*b, radix) => rest_end(text, from + 1, radix, skip),
        _ => from,
    }
}

// The run at `from`, which has no digits where no digit stands there. `radix` and `skip` are scan's `Reader` taken
// apart: with that type in a crate below, scan's steps are no methods of it, and six functions pass on text, place and
// reader.
#[tactic(auto, unfolding(crate::specs::Run::run_at))]
pub fn run_at(text: &[u8], from: usize, radix: u32, skip: bool) -> Run
    requires { from ≤ length text.now }
    ensures { result ≡ run_at text.now from radix skip }
{
    let to = run_end(text, from, radix, skip);
    Run {
        from,
        to,
        digits: digits::len(&text[from..to]),
    }
}
