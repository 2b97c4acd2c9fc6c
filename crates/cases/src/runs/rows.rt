//! Rows of a case that change its record.

use crate::runs::program::Input;
use crate::runs::telling::CaseName;
use crate::runs::trial::{Trial, try_line};
use crate::runs::wanted::Wanted;
use std::sync::Wait;
use std::thread::Threads;
use test_cases::{Edit, Stop, Tally, edited};

/// Says of a row that it can't be read.
fn tell_row(rt: &HostRuntime, place: CaseName, row: &str, tally: &mut Tally) {
    let (file, title) = (place.file, place.title);
    let _ = println!(rt; "{file}: {title}: there is no such row: {row}");
    tally.is_wrong = true;
}

/// Does a command line on another record, with this wanted of it.
fn try_on<'a, R: Threads + Wait + Sync>(
    rt: &HostRuntime,
    threads: &R,
    trial: Trial<'a>,
    saved: &'a [u8],
    wanted: Wanted<'a>,
    tally: &mut Tally,
) -> Result<(), Stop> {
    let input = Input {
        saved,
        ..trial.input
    };
    let trial = Trial {
        input,
        wanted,
        ..trial
    };
    try_line(rt, threads, trial, tally)
}

/// Does a command line on a record that is to be refused for this reason.
fn try_refused<R: Threads + Wait + Sync>(
    rt: &HostRuntime,
    threads: &R,
    trial: Trial,
    saved: &[u8],
    why: &str,
    tally: &mut Tally,
) -> Result<(), Stop> {
    let err = format!(in rt.alloc(); "record refused: {why}\n")?;
    let out = Some(b"".as_slice());
    let wanted = Wanted {
        out,
        err: err.as_bytes(),
        status: 4,
    };
    try_on(rt, threads, trial, saved, wanted, tally)
}

/// Does a command line on the record as each row `edit` changes it.
pub(crate) fn try_edits<R: Threads + Wait + Sync>(
    rt: &HostRuntime,
    threads: &R,
    trial: Trial,
    tally: &mut Tally,
) -> Result<(), Stop> {
    let whole = str::from_utf8(trial.input.saved).map_err(|_| Stop::Unread)?;
    for row in trial.case.all(rt.alloc(), "edit")?.iter() {
        match Edit::read(row) {
            Some(edit) => {
                let saved = edited(rt.alloc(), whole, edit)?;
                try_on(rt, threads, trial, &saved, trial.wanted, tally)?;
            }
            None => tell_row(rt, trial.place, row, tally),
        }
    }
    Ok(())
}

/// Does a command line on the record as each row `forged` changes it.
pub(crate) fn try_forged<R: Threads + Wait + Sync>(
    rt: &HostRuntime,
    threads: &R,
    trial: Trial,
    tally: &mut Tally,
) -> Result<(), Stop> {
    let whole = str::from_utf8(trial.input.saved).map_err(|_| Stop::Unread)?;
    for row in trial.case.all(rt.alloc(), "forged")?.iter() {
        match Edit::read(row) {
            Some(edit) => {
                let saved = edited(rt.alloc(), whole, edit)?;
                try_refused(rt, threads, trial, &saved, edit.why, tally)?;
            }
            None => tell_row(rt, trial.place, row, tally),
        }
    }
    Ok(())
}

/// The length and the reason of a row `cut`.
fn cut_of(row: &str) -> Option<(usize, &str)> {
    let (length, why) = row.split_once(' ')?;
    Some((length.parse::<usize>().ok()?, why))
}

/// Does a command line on each front of the record, as the rows `cut` say; together they are for all of them.
pub(crate) fn try_cuts<R: Threads + Wait + Sync>(
    rt: &HostRuntime,
    threads: &R,
    trial: Trial,
    tally: &mut Tally,
) -> Result<(), Stop> {
    let saved = trial.input.saved;
    let mut done = 0;
    let rows = trial.case.all(rt.alloc(), "cut")?;
    for row in rows.iter() {
        let (end, why) = cut_of(row).unwrap_or((0, ""));
        for length in done..end.min(saved.len()) {
            try_refused(rt, threads, trial, &saved[..length], why, tally)?;
        }
        done = end;
    }
    if !rows.is_empty() && done != saved.len() {
        tell_row(rt, trial.place, "the last cut", tally);
    }
    Ok(())
}
