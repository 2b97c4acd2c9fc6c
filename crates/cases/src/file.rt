//! The cases of one file.

use crate::runs::unknown_key;
use crate::subject::Subject;
use crate::trial::try_case;
use std::sync::Wait;
use std::thread::Threads;
use test_cases::{Stop, Tally, cases, read_file};

/// Says of a text that it has a key which cases of its subject don't have; only of runs the keys are known.
fn tell_key(rt: &HostRuntime, subject: Subject, file: &str, text: &str, tally: &mut Tally) {
    let unknown = match subject {
        Subject::Runs => unknown_key(text),
        Subject::Modules
        | Subject::Lines
        | Subject::Histories
        | Subject::Records
        | Subject::Mutants => None,
    };
    if let Some(key) = unknown {
        let _ = println!(rt; "{file}: there is no key {key}");
        tally.is_wrong = true;
    }
}

/// Tries the cases of a text, and answers how many it has.
fn try_text<'a, R: Threads + Wait + Sync>(
    rt: &HostRuntime,
    threads: &R,
    subject: Subject,
    file: &'a str,
    text: &'a str,
    tally: &mut Tally,
) -> Result<usize, Stop> {
    let found = cases(rt.alloc(), text)?;
    for case in found.iter() {
        try_case(rt, threads, subject, file, case, tally)?;
    }
    Ok(found.len())
}

/// Says how many cases a file has, and how much was tried for them where that is more.
fn tell_count(rt: &HostRuntime, subject: Subject, file: &str, count: usize, tried: u64) {
    let _ = match subject {
        Subject::Modules | Subject::Lines => println!(rt; "{file}: {count} cases"),
        Subject::Histories => println!(rt; "{file}: {count} cases, {tried} histories"),
        Subject::Records => println!(rt; "{file}: {count} cases, {tried} texts"),
        Subject::Runs => println!(rt; "{file}: {count} cases, {tried} command lines"),
        Subject::Mutants => println!(rt; "{file}: {count} cases, {tried} mutants"),
    };
}

/// Tries the cases of a file, says how many there are, and answers whether all come out as wanted.
pub(crate) fn try_file<R: Threads + Wait + Sync>(
    rt: &HostRuntime,
    threads: &R,
    subject: Subject,
    file: &str,
) -> Result<bool, Stop> {
    let bytes = read_file(rt, file)?;
    let text = str::from_utf8(&bytes).map_err(|_| Stop::Unread)?;
    let mut tally = Tally::new();
    tell_key(rt, subject, file, text, &mut tally);
    let count = try_text(rt, threads, subject, file, text, &mut tally)?;
    tell_count(rt, subject, file, count, tally.tried);
    Ok(!tally.is_wrong)
}
