//! What a command line is to write to its record, and whether it did.

use crate::runs::program::Gave;
use crate::runs::telling::{CaseName, tell};
use replay_text::{read_record, write_record};
use std::alloc::{AllocError, Global};
use test_cases::Case;

/// The line of the pages, without its line feed.
fn pages_line(out: &[u8]) -> &str {
    for line in str::from_utf8(out).unwrap_or("").lines() {
        if line.starts_with("pages ") {
            return line;
        }
    }
    ""
}

/// Whether a record has these lines right before the line of the pages, which was printed too.
fn ends_with(gave: &Gave, end: &[u8]) -> bool {
    let Some(rest) = gave.streams.save.strip_suffix(b"\nfinish\n".as_slice()) else {
        return false;
    };
    match rest.strip_suffix(pages_line(&gave.streams.out).as_bytes()) {
        Some(rest) => rest.ends_with(end),
        None => false,
    }
}

/// Whether a text has these lines, in this order.
fn has_lines(text: &[u8], lines: &[&str]) -> bool {
    let mut all = str::from_utf8(text).unwrap_or("").lines();
    for line in lines {
        if !all.any(|other| other == *line) {
            return false;
        }
    }
    true
}

/// Whether a record is written as it was read.
fn is_written_again(alloc: Global, record: &[u8]) -> bool {
    let Ok(found) = read_record(alloc, record) else {
        return false;
    };
    let mut again = Vec::new(alloc);
    write_record(&found, &mut again).is_ok() && again.as_slice() == record
}

/// What a record is looked at for.
#[derive(Clone, Copy)]
pub(crate) enum Kept {
    /// There is none.
    Nothing,
    /// One of the recorder.
    Run,
    /// What the case says of it.
    AsSaid,
}

/// Whether the end of a record is the wanted one, where one is wanted, and it has the lines that it is to have.
fn is_run(rt: &HostRuntime, place: CaseName, case: &Case, gave: &Gave) -> Result<bool, AllocError> {
    let end = case.text(rt.alloc(), "record-end")?;
    let lines = case.all(rt.alloc(), "record-has")?;
    let is_right = ends_with(gave, &end)
        && has_lines(&gave.streams.save, &lines)
        && is_written_again(rt.alloc(), &gave.streams.save);
    if !is_right {
        tell(
            rt,
            place,
            &lines,
            "end of the record",
            &end,
            &gave.streams.save,
        );
    }
    Ok(is_right)
}

/// Whether this was to be written, all of it. Where it isn't known it is a record.
fn is_whole(
    rt: &HostRuntime,
    place: CaseName,
    case: &Case,
    gave: &Gave,
) -> Result<bool, AllocError> {
    let whole = case.text(rt.alloc(), "record")?;
    let is_right = if whole.is_empty() && case.get("again").is_some() {
        is_written_again(rt.alloc(), &gave.streams.save)
    } else {
        whole == gave.streams.save
    };
    if !is_right {
        tell(rt, place, &[], "record", &whole, &gave.streams.save);
    }
    Ok(is_right)
}

/// Whether a page has the lines that it is to have. Says what is otherwise.
fn is_page(
    rt: &HostRuntime,
    place: CaseName,
    case: &Case,
    gave: &Gave,
) -> Result<bool, AllocError> {
    let lines = case.all(rt.alloc(), "page-has")?;
    let is_right = has_lines(&gave.streams.save, &lines);
    if !is_right {
        tell(rt, place, &lines, "page", b"", &gave.streams.save);
    }
    Ok(is_right)
}

/// Whether a command line wrote to its record what is wanted. Says what is otherwise.
pub(crate) fn is_kept(
    rt: &HostRuntime,
    place: CaseName,
    case: &Case,
    kept: Kept,
    gave: &Gave,
) -> Result<bool, AllocError> {
    let is_end = case.get("record-end").is_some() || case.get("record-has").is_some();
    match kept {
        Kept::Nothing => {
            if !gave.streams.save.is_empty() {
                tell(rt, place, &[], "record", b"", &gave.streams.save);
            }
            Ok(gave.streams.save.is_empty())
        }
        Kept::AsSaid if case.get("page-has").is_some() => is_page(rt, place, case, gave),
        Kept::AsSaid if !is_end => is_whole(rt, place, case, gave),
        Kept::Run | Kept::AsSaid => is_run(rt, place, case, gave),
    }
}
