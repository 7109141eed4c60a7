// What the program `fit` prints of a fitting file: the taps and the verdict, or
// the refusal. The last line is `ok` or `refused`.
#![tactic(auto)]

mod hint;
mod out;
mod refusal;
mod taps;
mod verdict;

ghost use Rattle.std.specs.Prelude.{◌≤◌, length};

use filter::TAPS;
use fitting::FileRefusal;
use fitting_list::Entry;
use std::io::{ErrorKind, Read};
use std::rt::Files;
use std::{fs, io};

// Longer than the longest file, so that a file too long is refused and not cut.
const ROOM: usize = 65536;

// A place of the list before the file is read.
const NONE: Entry = Entry {
    line: 0,
    raw: 0,
    answer: 0,
};

// Reads the file of that name and prints the report.
pub fn file(rt: &(impl Files + Print + Eprint), name: &[u8]) -> io::Result<()> {
    match open(rt, name) {
        Ok(mut file) => opened(rt, &mut file, name),
        Err(error) => {
            fail(rt, name, error);
            refusal::unopened(rt, name)
        }
    }
}

// `fit` was started without the name of a file.
pub fn usage(rt: &impl Print) -> io::Result<()> {
    refusal::usage(rt)
}

// A name that is not text names no file that std opens.
fn open<R: Files>(rt: &R, name: &[u8]) -> io::Result<R::File> {
    match str::from_utf8(name) {
        Ok(name) => fs::open(rt, name),
        Err(_) => Err(io::Error::new(ErrorKind::InvalidFilename, "the name is not UTF-8")),
    }
}

fn opened(rt: &(impl Print + Eprint), file: &mut impl Read, name: &[u8]) -> io::Result<()> {
    let mut buf = [0u8; ROOM];
    let n = fill(file, &mut buf);
    if let Err(error) = ended(file)
        && n < fitting::FILE_LIMIT
    {
        fail(rt, name, error);
        return refusal::unread(rt, name);
    }
    bytes(rt, &buf[..n])
}

// Reads until the buffer is full, the file ends or reading fails; how many bytes came. What reads to the end in std
// fills a Vec, and nothing here is on the heap. Not the `fill` of `list_cases`, which answers an error and no count.
fn fill(file: &mut impl Read, buf: &mut [u8]) -> usize
    ensures { result ≤ length buf.new }
{
    let mut n = 0;
    while n < buf.len() {
        match file.read(&mut buf[n..]) {
            Ok(0) => return n,
            Ok(more) => n += more,
            Err(_) => return n,
        }
    }
    n
}

// One read more: nothing at the end of the file; an error where reading failed, as of a directory.
fn ended(file: &mut impl Read) -> io::Result<()> {
    match file.read(&mut [0u8; 1])? {
        0 => Ok(()),
        _ => Err(io::Error::other("it went on after its end")),
    }
}

// Why the file was not opened or read, on the standard error. Whether that is written or not, the report goes on.
fn fail(rt: &impl Eprint, name: &[u8], error: io::Error) {
    let _ = match str::from_utf8(name) {
        Ok(name) => eprintln!(rt; "{name}: {error}"),
        Err(_) => eprintln!(rt; "{}: {error}", name.escape_ascii()),
    };
}

// The report of a file's bytes.
pub fn bytes(rt: &impl Print, file: &[u8]) -> io::Result<()> {
    let mut list = [NONE; TAPS];
    let mut taps = [0i16; TAPS];
    match fitting_list::read_list(file, &mut list, &mut taps) {
        Ok(values) => {
            let n = TAPS.min(values as usize);
            good(rt, &list[..n], &taps[..n])
        }
        Err(FileRefusal::Whole(refusal)) => refusal::whole(rt, refusal),
        Err(FileRefusal::Line { .. }) => refusal::lines(rt, file, &list),
    }
}

// Every tap with its line, and the verdict on all of them.
fn good(rt: &impl Print, list: &[Entry], taps: &[i16]) -> io::Result<()> {
    taps::show(rt, list)?;
    verdict::show(rt, taps)?;
    rt.println("ok")
}
