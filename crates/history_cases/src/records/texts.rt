//! The texts of a case, and whether each comes to what is wanted.

use crate::records::reading::{KEPT, comes_to};
use std::alloc::AllocError;
use test_cases::{Case, Edit, Stop, Tally, edited, read_file};

/// Reads a text, and says where it comes to something else than wanted.
fn try_text(
    rt: &HostRuntime,
    title: &str,
    text: &[u8],
    wanted: &str,
    tally: &mut Tally,
) -> Result<(), AllocError> {
    let given = comes_to(rt.alloc(), text)?;
    let is_right = given.as_str() == wanted;
    if !is_right {
        let text = str::from_utf8(text).unwrap_or("no text\n");
        let _ = println!(rt; "{title}: {given} in place of {wanted}:\n{text}");
    }
    tally.add(is_right);
    Ok(())
}

/// Says of a row that it can't be read.
fn tell_row(rt: &HostRuntime, title: &str, row: &str, tally: &mut Tally) {
    let _ = println!(rt; "{title}: there is no such row: {row}");
    tally.is_wrong = true;
}

/// Reads the text as each row of a key changes it: to be a record, or refused for the reason that the row has.
fn try_rows(
    rt: &HostRuntime,
    case: &Case,
    key: &str,
    whole: &str,
    tally: &mut Tally,
) -> Result<(), AllocError> {
    for row in case.all(rt.alloc(), key)?.iter() {
        match Edit::read(row) {
            Some(edit) => {
                let text = edited(rt.alloc(), whole, edit)?;
                let wanted = if edit.why.is_empty() { KEPT } else { edit.why };
                try_text(rt, case.title, &text, wanted, tally)?;
            }
            None => tell_row(rt, case.title, row, tally),
        }
    }
    Ok(())
}

/// The length and the reason of a row `cut`.
fn cut_of(row: &str) -> Option<(usize, &str)> {
    let (length, why) = row.split_once(' ')?;
    Some((length.parse::<usize>().ok()?, why))
}

/// Reads each front of the text, as the rows `cut` say; together they are for all of them.
fn try_cuts(
    rt: &HostRuntime,
    case: &Case,
    whole: &[u8],
    tally: &mut Tally,
) -> Result<(), AllocError> {
    let mut done = 0;
    let rows = case.all(rt.alloc(), "cut")?;
    for row in rows.iter() {
        let (end, why) = cut_of(row).unwrap_or((0, ""));
        for length in done..end.min(whole.len()) {
            try_text(rt, case.title, &whole[..length], why, tally)?;
        }
        done = end;
    }
    if !rows.is_empty() && done != whole.len() {
        tell_row(rt, case.title, "the last cut", tally);
    }
    Ok(())
}

/// The text of a case.
fn text_of(rt: &HostRuntime, case: &Case) -> Result<Vec<u8>, Stop> {
    if let Some(file) = case.get("record-file") {
        return read_file(rt, file);
    }
    let mut text = case.text(rt.alloc(), "record")?;
    text.extend_from_slice(case.get("record-rest").unwrap_or("").as_bytes())?;
    Ok(text)
}

/// Whether a case has rows that change its text.
fn has_rows(case: &Case) -> bool {
    case.get("kept").is_some() || case.get("refused").is_some() || case.get("cut").is_some()
}

/// Reads each text of a case, counts them, and says of each that comes to something else than wanted.
pub fn try_record(rt: &HostRuntime, case: &Case, tally: &mut Tally) -> Result<(), Stop> {
    let text = text_of(rt, case)?;
    if !has_rows(case) {
        let wanted = case.get("fault").unwrap_or(KEPT);
        return Ok(try_text(rt, case.title, &text, wanted, tally)?);
    }
    let whole = str::from_utf8(&text).map_err(|_| Stop::Unread)?;
    try_rows(rt, case, "kept", whole, tally)?;
    try_rows(rt, case, "refused", whole, tally)?;
    Ok(try_cuts(rt, case, &text, tally)?)
}
