// What is wrong: the number of document 01's table, what it means, where, and what to do. The last line is `refused`.
use super::{hint, out};
use fitting_list::Entry;
use format::Refusal;
use std::io;

pub(crate) fn usage(rt: &impl Print) -> io::Result<()> {
    rt.println("no file: give the name of one fitting file: fit FILE")?;
    end(rt)
}

pub(crate) fn unopened(rt: &impl Print, name: &[u8]) -> io::Result<()> {
    rt.print("no file: ")?;
    out::quoted(rt, name)?;
    rt.println(" cannot be opened; check its name and that it may be read")?;
    end(rt)
}

pub(crate) fn unread(rt: &impl Print, name: &[u8]) -> io::Result<()> {
    rt.print("no file: ")?;
    out::quoted(rt, name)?;
    rt.println(" cannot be read; give a file, not a directory")?;
    end(rt)
}

// The file as a whole is refused.
pub(crate) fn whole(rt: &impl Print, refusal: Refusal) -> io::Result<()> {
    println!(rt; "refused {}: {}", refusal.number(), file_fault(refusal))?;
    end(rt)
}

fn file_fault(refusal: Refusal) -> &'static str {
    match refusal {
        Refusal::TooLong =>
            "the file is above 16384 bytes; give a fitting file, or take out comments",
        Refusal::WrongTaps => "the file holds no value; write one number on a line, such as 0.5",
        Refusal::TooManyValues =>
            "the file holds more than 64 values; give a fitting file of at most 64 taps, one on a line",
        _ => "the list has too few places",
    }
}

// Every refused line: its text, its own answer, and what to write instead.
pub(crate) fn lines(rt: &impl Print, file: &[u8], list: &[Entry]) -> io::Result<()> {
    rt.println("refused 42: these lines are not numbers of the format")?;
    for entry in list.iter().filter(|entry| entry.answer != 0) {
        line(rt, file, *entry)?;
    }
    end(rt)
}

fn line(rt: &impl Print, file: &[u8], entry: Entry) -> io::Result<()> {
    let Entry { line, answer, .. } = entry;
    let text = nth(file, line);
    print!(rt; "line {line}: ")?;
    out::quoted(rt, text)?;
    println!(rt; "\nanswer {answer}: {}", hint::meaning(answer))?;
    println!(rt; "write: {}", hint::instead(text, answer))
}

// The line with that number, from 1, without its end.
fn nth(file: &[u8], number: u32) -> &[u8] {
    let before = number.saturating_sub(1) as usize;
    file.split(|b| *b == b'\n').nth(before).unwrap_or(b"")
}

fn end(rt: &impl Print) -> io::Result<()> {
    rt.println("refused")
}
