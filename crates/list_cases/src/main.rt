// What `fitting_list::read_list` answers, and what it leaves of a list and of taps, for each file of data/. Files and
// `stdout` are made by oracle/list_cases.py. `read` lends the records.
#![tactic(auto)]

ghost use Rattle.std.specs.Prelude.{◌≤◌, length, IfOk};
ghost use Rattle.fitting_list.specs.Promise.{ReadsList};

use fitting::{FileAnswer, FileRefusal};
use fitting_list::Entry;
use std::io::Read;
use std::rt::Files;
use std::{fs, io};

const PLACES: usize = 8;

// The answer of a call, and the list and the taps as it left them.
#[derive(Drop)]
struct After {
    answer: FileAnswer,
    list: [Entry; PLACES],
    taps: [i16; PLACES],
}

fn main(rt: HostRuntime) -> io::Result<()> {
    for name in [
        "done.txt",
        "no_final_lf.txt",
        "refused.txt",
        "nine.txt",
        "empty.txt",
    ] {
        one(&rt, name)?;
    }
    Ok(())
}

// Every place is marked before the call, so that one that stays as it was is seen.
fn one(rt: &(impl Files + Print), name: &str) -> io::Result<()> {
    println!(rt; "== {name}")?;
    let mut buf = [0u8; 4096];
    let n = fill(&mut fs::open(rt, name)?, &mut buf)?;
    let mark = Entry {
        line: 9999,
        raw: -9999,
        answer: 99,
    };
    show(rt, read(&buf[..n], [mark; PLACES], [-777; PLACES]))
}

// Reads until the buffer is full or the file ends; how many bytes came. What reads to the end in std fills a Vec, and
// nothing here is on the heap. Not the `fill` of `report`, which passes an error over and keeps what came.
fn fill(file: &mut impl Read, buf: &mut [u8]) -> io::Result<usize>
    ensures { IfOk result (λ n. n ≤ length buf.new) }
{
    let mut n = 0;
    while n < buf.len() {
        match file.read(&mut buf[n..])? {
            0 => break,
            more => n += more,
        }
    }
    Ok(n)
}

// A copy of the list and one of the taps are lent to `read_list`.
fn read(file: &[u8], mut list: [Entry; PLACES], mut taps: [i16; PLACES]) -> After
    ensures { ReadsList file.now list taps result.answer result.list result.taps }
{
    let answer = fitting_list::read_list(file, &mut list, &mut taps);
    After { answer, list, taps }
}

// The answer's number, values, line and inner answer; then every place.
fn show(rt: &impl Print, after: After) -> io::Result<()> {
    match after.answer {
        Ok(values) => println!(rt; "answer 0 {values} 0 0")?,
        Err(FileRefusal::Whole(refusal)) => println!(rt; "answer {} 0 0 0", refusal.number())?,
        Err(FileRefusal::Line { line, inner }) => println!(rt; "answer 42 0 {line} {inner}")?,
    }
    for (entry, tap) in after.list.iter().zip(&after.taps) {
        println!(rt; "line {} {} {} {tap}", entry.line, entry.raw, entry.answer)?;
    }
    Ok(())
}
