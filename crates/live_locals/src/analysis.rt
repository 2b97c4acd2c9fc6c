//! The analysis that finds tables of marks. Nothing rests on it, since the checker looks at what it finds.

use crate::instructions::{has_next, local_read, local_written};
use std::alloc::{AllocError, Global};
use types::{Instr, MOST_NESTED, Sequence};
use validate_typing::{Table, Target};

/// How often the code is gone through, at most. What a loop reads is known one time later at the loop's begin, so for
/// blocks nested as deep as they may be it is enough.
const MOST_SWEEPS: usize = MOST_NESTED + 2;

/// Whether a local is live at a place, by the rows that were found so far.
fn is_marked(rows: &[Vec<bool>], place: usize, local: usize) -> bool {
    match rows.get(place) {
        Some(row) => matches!(row.get(local), Some(true)),
        None => true,
    }
}

/// Whether a local is live before the instruction at a place, by the rows behind it.
fn is_wanted(
    instr: &Instr,
    targets: &[Target],
    rows: &[Vec<bool>],
    place: usize,
    local: usize,
) -> bool {
    if local_read(instr).is_some_and(|read| read as usize == local) {
        return true;
    }
    if local_written(instr).is_some_and(|written| written as usize == local) {
        return false;
    }
    if has_next(instr) && is_marked(rows, place.wrapping_add(1), local) {
        return true;
    }
    for target in targets {
        if is_marked(rows, target.to as usize, local) {
            return true;
        }
    }
    false
}

/// Marks what is live before the instruction at a place. Says whether a mark is new.
fn mark(
    instr: &Instr,
    targets: &[Target],
    rows: &mut [Vec<bool>],
    place: usize,
    locals: usize,
) -> bool {
    let mut any = false;
    for local in 0..locals {
        if !is_marked(rows, place, local) && is_wanted(instr, targets, rows, place, local) {
            if let Some(row) = rows.get_mut(place) {
                if let Some(live) = row.get_mut(local) {
                    *live = true;
                    any = true;
                }
            }
        }
    }
    any
}

/// Goes through the code once, from its end. Says whether a mark is new.
fn sweep(code: &[Instr], table: &Table, rows: &mut [Vec<bool>], locals: usize) -> bool {
    let mut any = false;
    for behind in 0..code.len() {
        let place = code.len() - 1 - behind;
        let targets = table.row(place).unwrap_or(&[]);
        if mark(&code[place], targets, rows, place, locals) {
            any = true;
        }
    }
    any
}

/// Marks for code with so many locals: a row for each instruction, and one more for a return, where all is dead.
pub fn found(
    alloc: Global,
    code: &[Instr],
    table: &Table,
    locals: usize,
) -> Result<Vec<Sequence<bool>>, AllocError> {
    let mut rows = Vec::new(alloc);
    for _ in 0..code.len() + 1 {
        rows.push(vec![in alloc; false; locals]?)?;
    }
    for _ in 0..MOST_SWEEPS {
        if !sweep(code, table, rows.as_mut_slice(), locals) {
            break;
        }
    }
    let mut marks = Vec::new(alloc);
    for row in rows {
        marks.push(Sequence::from_vec(row))?;
    }
    Ok(marks)
}
