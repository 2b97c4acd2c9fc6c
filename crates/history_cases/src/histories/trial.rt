//! The races of one history, and of all of a case.

use crate::histories::spelled::{digit, history_of};
use race_history::{is_history, races_of};
use std::alloc::{AllocError, Global};
use test_cases::{Case, Tally};

/// How many races are asked for.
const MOST: usize = 1000;

/// The length of the pages with which the memory opens: the digit of the key `opening`, or that of one page.
fn opening_of(case: &Case) -> u64 {
    match case.get("opening") {
        Some(text) => u64::from(digit(text.as_bytes(), 0)),
        None => 65536,
    }
}

/// The races of a history that is spelled, each as its two places.
fn races_told(alloc: Global, text: &str, opening: u64) -> Result<String, AllocError> {
    let history = history_of(alloc, text)?;
    let log = history.log.as_slice();
    let sites = history.sites.as_slice();
    let mut told = String::new(alloc);
    if sites.len() != log.len() || !is_history(log) {
        told.push_str("no history")?;
        return Ok(told);
    }
    let races = races_of(alloc, log, sites, opening, MOST)?;
    for race in races.pairs.iter() {
        if !told.is_empty() {
            told.push(' ')?;
        }
        told.push_str(format!(in alloc; "{}-{}", race.first, race.second)?.as_str())?;
    }
    Ok(told)
}

/// Tries a history, counts it, and prints which races it has where these are others than wanted.
fn try_row(
    rt: &HostRuntime,
    title: &str,
    row: &str,
    opening: u64,
    tally: &mut Tally,
) -> Result<(), AllocError> {
    let (text, wanted) = row.split_once("=>").unwrap_or((row, "?"));
    let told = races_told(rt.alloc(), text, opening)?;
    let is_right = told.as_str() == wanted.trim();
    if !is_right {
        let _ = println!(rt; "{title}: {row}, but it has {told}");
    }
    tally.add(is_right);
    Ok(())
}

/// Tries each history of a case.
///
/// # Errors
/// Where memory is refused.
pub fn try_history(rt: &HostRuntime, case: &Case, tally: &mut Tally) -> Result<(), AllocError> {
    let rows = case.all(rt.alloc(), "races")?;
    for row in rows.iter() {
        try_row(rt, case.title, row, opening_of(case), tally)?;
    }
    Ok(())
}
