// Replays the stored answers: writes of each file of data/ how many it has and how many differ.
// A file is taken byte by byte, so that no line needs to lie whole in a buffer.
#![tactic(auto)]

mod answer;
mod asked;
mod hex;
mod kind;
mod line;
mod logarithm;
mod reader;

use line::Line;
use std::io::Read;
use std::rt::Files;
use std::{fs, io};

// What the lines told so far.
#[derive(Clone, Copy)]
struct Tally {
    answers: u64,
    differ: u64,
}

impl Tally {
    // One answer more. The counts wrap only in name: no file has as many lines as a word has numbers.
    fn count(&mut self, differs: bool) {
        self.answers = self.answers.wrapping_add(1);
        self.differ = self.differ.wrapping_add(u64::from(differs));
    }
}

// The bytes of a file that are read at most: room for samples three times as long.
const LIMIT: u64 = 4194304;

fn main(rt: HostRuntime) -> io::Result<()> {
    replay(&rt, "text.txt")?;
    replay(&rt, "log10.txt")
}

fn replay(rt: &(impl Files + Print), name: &str) -> io::Result<()> {
    let mut file = fs::open(rt, name)?.take(LIMIT);
    let end = whole(&mut file)?;
    println!(rt;
        "{name}: {} answers replayed, {} differ",
        end.answers, end.differ
    )
}

// A piece of the file after another, to its end.
fn whole(file: &mut impl Read) -> io::Result<Tally> {
    let mut line = Line::new();
    let mut tally = Tally {
        answers: 0,
        differ: 0,
    };
    let mut piece = [0u8; 65536];
    for _ in 0..u64::MAX {
        let n = file.read(&mut piece)?;
        if n == 0 {
            break;
        }
        for b in &piece[..n] {
            step(*b, &mut line, &mut tally);
        }
    }
    Ok(tally)
}

// At the end of a line asks what it asks, and begins a new one.
fn step(b: u8, line: &mut Line, tally: &mut Tally) {
    match b {
        b'\n' => {
            if let Some(differs) = asked::differs(line) {
                tally.count(differs);
            }
            line.clear();
        }
        b' ' => line.next(),
        _ => line.put(b),
    }
}
