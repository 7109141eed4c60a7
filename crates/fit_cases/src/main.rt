// What `fit` prints of good files, of files that clip, and of each refusal: the files of data/, which
// oracle/fit_cases.py makes with the file `stdout` beside src/.
#![tactic(auto)]

use std::io;
use std::rt::Files;

const TAKEN: [&str; 7] = [
    "good.txt",
    "no_final_lf.txt",
    "clips_high.txt",
    "just_clips.txt",
    "just_fits.txt",
    "sixty_four.txt",
    "16384_bytes.txt",
];

// The file as a whole.
const REFUSED: [&str; 4] = [
    "16385_bytes.txt",
    "sixty_five.txt",
    "empty.txt",
    "comments.txt",
];

const REFUSED_LINES: [&str; 4] = ["crlf.txt", "nul.txt", "long_line.txt", "refused.txt"];

const NO_FILE: [&str; 3] = ["missing.txt", ".", ""];

fn main(rt: HostRuntime) -> io::Result<()> {
    each(&rt, &TAKEN)?;
    each(&rt, &REFUSED)?;
    each(&rt, &REFUSED_LINES)?;
    each(&rt, &NO_FILE)
}

fn each(rt: &(impl Files + Print + Eprint), names: &[&str]) -> io::Result<()> {
    for name in names {
        println!(rt; "== {name}")?;
        report::file(rt, name.as_bytes())?;
    }
    Ok(())
}
