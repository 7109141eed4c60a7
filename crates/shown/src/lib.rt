// What the programs of cases print: one line an answer, what was asked, then number, flag and value.
#![tactic(auto)]

use format::{Answer, Answered, Raw};
use std::io;

// What was asked need be no text. Answers of both signs and refusals are printed by one call, since each takes 2.7 kB
// of stack.
pub fn answer<R: Raw + Into<i128>>(
    rt: &impl Print,
    asked: &[u8],
    a: Answered<R>,
) -> io::Result<()> {
    let (number, flag, value) = match a {
        Ok(Answer { raw, flag }) => (0, flag, raw.into()),
        Err(refusal) => (refusal.number(), false, 0),
    };
    rt.write_all(asked)?;
    println!(rt; ": {number} {} {value}", u8::from(flag))
}

// The bytes that were written, and the answer.
pub fn bytes(rt: &impl Print, asked: &[u8], out: &[u8], a: Answered<u64>) -> io::Result<()> {
    answer(rt, asked, a)?;
    listed(rt, out)
}

// Apart, so that the stack of its calls is not held while the answer is printed.
#[inline(never)]
fn listed(rt: &impl Print, out: &[u8]) -> io::Result<()> {
    for b in out {
        print!(rt; " {b}")?;
    }
    rt.println("")
}
