//! Tries the cases of files. Prints each that comes out otherwise than its file wants, and then a line for each file:
//! how many cases it has, how many histories there were, of records how many texts were read, of runs how many command
//! lines were done, of mutants how many were tried.
//!
//! ```text
//! cases modules numbers.cases sections.cases runs waits.cases
//! ```
//!
//! A word that is a subject (`modules`, `lines`, `histories`, `records`, `runs` or `mutants`) says of what the cases
//! are of the files behind it. Each other word is a file of cases. The files, and those that cases name, lie in the
//! folder where the program runs.
#![tactic(auto)]

mod file;
mod mutants;
mod runs;
mod subject;
mod trial;

use crate::file::try_file;
use crate::subject::Subject;
use std::env;
use std::process::ExitCode;
use std::sync::Wait;
use std::thread::Threads;
use test_cases::Stop;

/// Tries the cases of a file, where it is said of what they are, and answers whether all come out as wanted.
fn try_named<R: Threads + Wait + Sync>(
    rt: &HostRuntime,
    threads: &R,
    subject: Option<Subject>,
    file: &str,
) -> Result<bool, Stop> {
    match subject {
        Some(subject) => try_file(rt, threads, subject, file),
        None => {
            let _ = println!(rt; "{file}: no word before it says of what its cases are");
            Ok(false)
        }
    }
}

/// Tries the cases of each file that the words name.
fn try_words<R: Threads + Wait + Sync>(rt: &HostRuntime, threads: &R) -> Result<bool, Stop> {
    let words: Vec<String> = env::args(rt)?.collect(rt.alloc())?;
    let mut subject = None;
    let mut is_right = true;
    for word in words.iter().skip(1) {
        match Subject::read(word.as_str()) {
            Some(named) => subject = Some(named),
            None => is_right &= try_named(rt, threads, subject, word.as_str())?,
        }
    }
    Ok(is_right)
}

fn main(rt: HostRuntime) -> ExitCode {
    let is_right = match try_words(&rt, &rt) {
        Ok(is_right) => is_right,
        Err(Stop::NoMemory) => {
            let _ = println!(rt; "no memory");
            false
        }
        Err(Stop::Unread) => {
            let _ = println!(rt; "a file can't be read");
            false
        }
    };
    ExitCode::from(u8::from(!is_right))
}
