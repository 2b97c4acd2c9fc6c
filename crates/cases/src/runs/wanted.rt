//! What a command line is to write, and whether it did.

use crate::runs::program::Gave;
use crate::runs::telling::{CaseName, tell};
use std::alloc::{AllocError, Global};
use test_cases::Case;

/// What is wanted on the streams, and the status.
#[derive(Clone, Copy)]
pub(crate) struct Wanted<'a> {
    /// The lines on standard output, or none where any will do.
    pub(crate) out: Option<&'a [u8]>,
    pub(crate) err: &'a [u8],
    pub(crate) status: u8,
}

/// The number behind a key, or this one without the key; a text that is no number is none of a status.
pub(crate) fn number_of(case: &Case, key: &str, otherwise: u8) -> u8 {
    match case.get(key) {
        Some(text) => text.parse::<u8>().unwrap_or(u8::MAX),
        None => otherwise,
    }
}

/// The texts of a case's streams, and its status.
#[derive(Drop)]
pub(crate) struct Texts {
    out: Vec<u8>,
    is_any: bool,
    err: Vec<u8>,
    status: u8,
}

impl Texts {
    /// Those that a case wants.
    pub(crate) fn of(alloc: Global, case: &Case) -> Result<Texts, AllocError> {
        let out = case.text(alloc, "out")?;
        Ok(Texts {
            err: case.text(alloc, "err")?,
            is_any: case.get("out-any").is_some(),
            status: number_of(case, "status", 0),
            out,
        })
    }

    pub(crate) fn wanted(&self) -> Wanted<'_> {
        let out = if self.is_any {
            None
        } else {
            Some(self.out.as_slice())
        };
        Wanted {
            out,
            err: &self.err,
            status: self.status,
        }
    }
}

/// Whether a text is a number in a range, which is written `2..600`.
fn is_between(range: &str, text: &str) -> bool {
    let (Some((least, most)), Ok(number)) = (range.split_once(".."), text.parse::<u64>()) else {
        return false;
    };
    match (least.parse::<u64>(), most.parse::<u64>()) {
        (Ok(least), Ok(most)) => least <= number && number <= most,
        _ => false,
    }
}

/// Whether a line is this one, in which `{2..600}` may stand for a number.
fn fits_line(wanted: &str, given: &str) -> bool {
    let Some((front, rest)) = wanted.split_once('{') else {
        return wanted == given;
    };
    let Some((range, back)) = rest.split_once('}') else {
        return false;
    };
    match given.strip_prefix(front) {
        Some(given) => match given.strip_suffix(back) {
            Some(number) => is_between(range, number),
            None => false,
        },
        None => false,
    }
}

/// Whether these are the lines that are wanted.
fn fits(wanted: &[u8], given: &[u8]) -> bool {
    let (Ok(wanted), Ok(given)) = (str::from_utf8(wanted), str::from_utf8(given)) else {
        return false;
    };
    let mut lines = given.lines();
    for line in wanted.lines() {
        match lines.next() {
            Some(other) if fits_line(line, other) => {}
            _ => return false,
        }
    }
    lines.next().is_none() && given.ends_with('\n')
}

/// Whether this was to be printed.
fn is_printed(wanted: Option<&[u8]>, given: &[u8]) -> bool {
    match wanted {
        Some(wanted) => wanted == given || fits(wanted, given),
        None => !given.is_empty(),
    }
}

/// Whether a command line wrote on its streams what is wanted, with the status. Says what is otherwise.
pub(crate) fn wrote(
    rt: &HostRuntime,
    place: CaseName,
    words: &[&str],
    wanted: Wanted,
    gave: &Gave,
) -> bool {
    let is_out = is_printed(wanted.out, &gave.streams.out);
    if !is_out {
        let lines = wanted.out.unwrap_or(b"anything\n");
        tell(rt, place, words, "out", lines, &gave.streams.out);
    }
    let is_err = gave.streams.err.as_slice() == wanted.err;
    if !is_err {
        tell(rt, place, words, "err", wanted.err, &gave.streams.err);
    }
    let is_status = gave.status == wanted.status;
    if !is_status {
        tell(rt, place, words, "status", b"", b"");
        let _ = println!(rt; "{} and {}", wanted.status, gave.status);
    }
    is_out && is_err && is_status
}
