// fit FILE: the taps of a fitting file and whether they can clip, or what is wrong with it.
#![tactic(auto)]

use std::env::{Env, FillError};
use std::io;

fn main(rt: HostRuntime) -> io::Result<()> {
    let mut name = [0u8; 4096];
    let first = rt.arg(1, &mut name);
    let Err(FillError::NotPresent) = rt.arg(2, &mut [0u8; 1]) else {
        return report::usage(&rt);
    };
    match first {
        Ok(n) => report::file(&rt, &name[..n]),
        // No file has a name as long as that.
        Err(FillError::TooLong) => report::file(&rt, b""),
        Err(FillError::NotPresent) => report::usage(&rt),
    }
}
