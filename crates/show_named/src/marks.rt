//! The offsets of the code at which the entries of a record were made, and at which the functions were called that made
//! them.

use interp::CodePlace;
use show_rows::{CodeMap, Row};
use std::alloc::{AllocError, Global};

/// The offsets of a row's place and of its caller's, as far as they are known.
fn offsets_of(code: &CodeMap, row: Row) -> (Option<usize>, Option<usize>) {
    let called = match row.caller {
        Some(caller) => code.named_offset(caller),
        None => None,
    };
    (code.named_offset(row.place), called)
}

/// What is behind an offset and behind so many others.
fn behind(end: usize, offset: Option<usize>) -> usize {
    match offset {
        Some(offset) => end.max(offset.saturating_add(1)),
        None => end,
    }
}

/// Marks an offset.
fn mark(marks: &mut [bool], offset: Option<usize>) {
    if let Some(offset) = offset
        && offset < marks.len()
    {
        marks[offset] = true;
    }
}

/// The offsets of rows and of their callers: marks, by offset.
pub(crate) fn marks_of(
    alloc: Global,
    code: &CodeMap,
    rows: &[Option<Row>],
) -> Result<Vec<bool>, AllocError> {
    let mut end = 0usize;
    for row in rows {
        if let Some(row) = row {
            let (place, called) = offsets_of(code, *row);
            end = behind(behind(end, place), called);
        }
    }
    let mut marks = vec![in alloc; false; end]?;
    for row in rows {
        if let Some(row) = row {
            let (place, called) = offsets_of(code, *row);
            mark(&mut marks, place);
            mark(&mut marks, called);
        }
    }
    Ok(marks)
}
