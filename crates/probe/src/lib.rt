// The scanner for a program from outside: what a text is, and where its digits stand, before any
// number is made of them. It is no part of the library's interface: oracle/scan links it to hold the
// scanner against the automaton of docs/GRAMMAR.md.
#![tactic(auto)]

use format::Refusal;
use scan::{Found, Parsed};

#[repr(C)]
#[derive(Clone, Copy, Default)]
pub struct Probe {
    pub number: u32,
    pub radix: u32,
    pub neg: u32,
    pub base: u32,
    pub down: u32,
    pub exp: u64,
    pub whole_from: usize,
    pub whole_to: usize,
    pub whole_digits: usize,
    pub frac_from: usize,
    pub frac_to: usize,
    pub frac_digits: usize,
}

// Of a text that is refused nothing stands anywhere.
fn refused(refusal: Refusal, radix: u32) -> Probe {
    Probe {
        number: refusal.number(),
        radix,
        ..Probe::default()
    }
}

fn number(p: Parsed, radix: u32) -> Probe {
    Probe {
        number: 0,
        radix,
        neg: u32::from(p.neg),
        base: p.base,
        down: u32::from(p.down),
        exp: p.exp,
        whole_from: p.whole.from,
        whole_to: p.whole.to,
        whole_digits: p.whole.digits,
        frac_from: p.frac.from,
        frac_to: p.frac.to,
        frac_digits: p.frac.digits,
    }
}

fn shown(found: Found, radix: u32) -> Probe {
    match found {
        Ok(p) => number(p, radix),
        Err(refusal) => refused(refusal, radix),
    }
}

#[unsafe(no_mangle)]
pub extern "C" fn probe_plain(text: &[u8], radix: u32) -> Probe {
    if grammar::is_radix(radix) {
        return shown(scan::plain(text, radix), radix);
    }
    refused(Refusal::WrongRadix, radix)
}

#[unsafe(no_mangle)]
pub extern "C" fn probe_literal(text: &[u8], signed: u32) -> Probe {
    let written = scan::literal::literal(text, signed != 0);
    shown(written.found, written.radix)
}
