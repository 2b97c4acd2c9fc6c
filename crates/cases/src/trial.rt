//! One case.

use crate::subject::Subject;
use crate::{mutants, runs};
use history_cases::{try_history, try_record};
use std::alloc::AllocError;
use std::sync::Wait;
use std::thread::Threads;
use test_cases::{Case, Stop, Tally, read_file};

/// Prints what a case wants and what it gives, where these differ.
fn compare(
    rt: &HostRuntime,
    file: &str,
    case: &Case,
    given: &str,
    tally: &mut Tally,
) -> Result<(), AllocError> {
    let wanted = case.text(rt.alloc(), "gives")?;
    let is_right = given.as_bytes() == wanted.as_slice();
    if !is_right {
        let title = case.title;
        let wanted = str::from_utf8(&wanted).unwrap_or("?");
        let _ = println!(rt; "{file}: {title}\nwanted:\n{wanted}given:\n{given}");
    }
    tally.add(is_right);
    Ok(())
}

/// Tries a case of modules.
fn try_module(
    rt: &HostRuntime,
    file: &str,
    case: &Case,
    tally: &mut Tally,
) -> Result<(), AllocError> {
    let mut given = String::new(rt.alloc());
    validate_cases::tell(rt.alloc(), *case, &mut given)?;
    compare(rt, file, case, &given, tally)
}

/// Writes what is shown of the module that a case names.
fn tell_lines(rt: &HostRuntime, case: &Case, given: &mut String) -> Result<(), Stop> {
    let module = read_file(rt, case.get("module").unwrap_or(""))?;
    Ok(dwarf_cases::tell(rt.alloc(), *case, &module, given)?)
}

/// Tries a case of what is shown of a module.
fn try_lines(rt: &HostRuntime, file: &str, case: &Case, tally: &mut Tally) -> Result<(), Stop> {
    let mut given = String::new(rt.alloc());
    tell_lines(rt, case, &mut given)?;
    Ok(compare(rt, file, case, &given, tally)?)
}

/// Tries a case of a file, counts what was tried, and prints what comes out otherwise than wanted.
pub(crate) fn try_case<'a, R: Threads + Wait + Sync>(
    rt: &HostRuntime,
    threads: &R,
    subject: Subject,
    file: &'a str,
    case: &'a Case<'a>,
    tally: &mut Tally,
) -> Result<(), Stop> {
    match subject {
        Subject::Modules => Ok(try_module(rt, file, case, tally)?),
        Subject::Lines => try_lines(rt, file, case, tally),
        Subject::Histories => Ok(try_history(rt, case, tally)?),
        Subject::Records => try_record(rt, case, tally),
        Subject::Runs => runs::try_case(rt, threads, file, case, tally),
        Subject::Mutants => mutants::try_case(rt, threads, case, tally),
    }
}
