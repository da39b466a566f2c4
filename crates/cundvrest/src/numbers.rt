// The numbers that `write` reads: in decimal, separated by white space.
use crate::usage;
use crate::usage::Said;
use base_decimal::NoNumber;
use std::fmt;
use std::io::{ErrorKind, Read};

// After so many numbers comes what is no number, or is one of 2^64 or more.
#[derive(Clone, Copy, Debug, PartialEq, Eq, Hash)]
struct Fault {
    before: u64,
    why: NoNumber,
}

impl fmt::Display for Fault {
    fn fmt<W: fmt::Write>(&self, f: &mut fmt::Formatter<W>) -> fmt::Result {
        let what = match self.why {
            NoNumber::NotDecimal => "no number",
            NoNumber::TooLarge => "one too large",
        };
        write!(f, "after {} numbers comes {what}", self.before)
    }
}

// How far the text has been read: how many numbers are before, how many of them are kept, and the number that has
// begun, if one has: its digits' value, or none from 2^64 on.
#[derive(Clone, Copy, Debug, PartialEq, Eq, Hash)]
struct Scan {
    kept: usize,
    before: u64,
    begun: Option<Option<u64>>,
}

impl Scan {
    fn fault(self, why: NoNumber) -> Fault {
        Fault {
            before: self.before,
            why,
        }
    }

    // The end of a number, if one has begun, kept where there is room.
    fn ended(self, list: &mut [u64]) -> Result<Scan, Fault> {
        let Some(digits) = self.begun else {
            return Ok(self);
        };
        let Some(number) = digits else {
            return Err(self.fault(NoNumber::TooLarge));
        };
        let mut kept = self.kept;
        if kept < list.len() {
            list[kept] = number;
            kept += 1;
        }
        Ok(Scan {
            kept,
            before: self.before.saturating_add(1),
            begun: None,
        })
    }

    // One byte more.
    fn next(self, b: u8, list: &mut [u64]) -> Result<Scan, Fault> {
        if matches!(b, b' ' | b'\t'..=b'\r') {
            return self.ended(list);
        }
        let Some(unit) = base_decimal::digit(b) else {
            return Err(self.fault(NoNumber::NotDecimal));
        };
        let digits = base_decimal::more(self.begun.unwrap_or(Some(0)), unit);
        Ok(Scan {
            kept: self.kept,
            before: self.before,
            begun: Some(digits),
        })
    }

    // Some bytes more.
    fn text(self, text: &[u8], list: &mut [u64]) -> Result<Scan, Fault> {
        let mut scan = self;
        for &b in text {
            scan = scan.next(b, list)?;
        }
        Ok(scan)
    }
}

// The first numbers of the input, as many as there is room for, once all of it has been read, or its first fault. Only
// an interruption is no failure. The turns are counted so that the loop is seen to end: no input uses them up.
fn all(rt: &HostRuntime, list: &mut [u64]) -> Result<Result<Scan, Fault>, Said> {
    let mut read = Ok(Scan {
        kept: 0,
        before: 0,
        begun: None,
    });
    let mut text = [0; 65536];
    for _ in 0..u64::MAX {
        match rt.stdin().read(&mut text) {
            Ok(0) => break,
            Ok(n) => {
                if let Ok(scan) = read {
                    read = scan.text(&text[..n], list);
                }
            }
            Err(error) if error.kind() == ErrorKind::Interrupted => {}
            Err(error) => return Err(usage::fail(rt, "standard input cannot be read", error)),
        }
    }
    Ok(read)
}

// The first numbers of standard input, the last one ended by its end: how many are kept.
pub fn from_input(rt: &HostRuntime, list: &mut [u64]) -> Result<usize, Said> {
    let ended = match all(rt, list)? {
        Ok(scan) => scan.ended(list),
        Err(fault) => Err(fault),
    };
    match ended {
        Ok(scan) => Ok(scan.kept),
        Err(fault) => Err(usage::bad_number(rt, fault)),
    }
}
