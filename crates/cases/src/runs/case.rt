//! One case: each of its command lines, on the record as it is or as its rows change it.

use crate::runs::input::{module_of, names_of, saved_of, sources_of};
use crate::runs::program::Input;
use crate::runs::rows::{try_cuts, try_edits, try_forged};
use crate::runs::telling::CaseName;
use crate::runs::trial::{Trial, try_line};
use crate::runs::wanted::Texts;
use search_reach::Wish;
use std::sync::Wait;
use std::thread::Threads;
use test_cases::{Case, Stop, Tally};

/// Does a command line for each row that changes the record, or once where there is none.
fn try_rows<R: Threads + Wait + Sync>(
    rt: &HostRuntime,
    threads: &R,
    trial: Trial,
    tally: &mut Tally,
) -> Result<(), Stop> {
    let case = trial.case;
    if case.get("edit").is_none() && case.get("forged").is_none() && case.get("cut").is_none() {
        return try_line(rt, threads, trial, tally);
    }
    try_edits(rt, threads, trial, tally)?;
    try_forged(rt, threads, trial, tally)?;
    try_cuts(rt, threads, trial, tally)
}

/// Does each command line of a case as this one.
fn try_words<R: Threads + Wait + Sync>(
    rt: &HostRuntime,
    threads: &R,
    trial: Trial,
    tally: &mut Tally,
) -> Result<(), Stop> {
    for words in trial.case.all(rt.alloc(), "words")?.iter() {
        let trial = Trial {
            words: *words,
            ..trial
        };
        try_rows(rt, threads, trial, tally)?;
    }
    Ok(())
}

/// What is wished of a search that a case makes.
fn wish_of(case: &Case) -> Wish {
    match case.get("told") {
        Some(_) => Wish::End,
        None => Wish::GoOn,
    }
}

/// Does each command line of a case of a file, counts them, and says what came out otherwise than wanted.
pub fn try_case<'a, R: Threads + Wait + Sync>(
    rt: &HostRuntime,
    threads: &R,
    file: &'a str,
    case: &'a Case<'a>,
    tally: &mut Tally,
) -> Result<(), Stop> {
    let place = CaseName {
        file,
        title: case.title,
    };
    let texts = Texts::of(rt.alloc(), case)?;
    let module = module_of(rt, case)?;
    let saved = saved_of(rt, case)?;
    let names = names_of(rt, case)?;
    let sources = sources_of(rt, case)?;
    let input = Input {
        module: &module,
        saved: &saved,
        names: &names,
        sources: &sources,
        wish: wish_of(case),
    };
    let trial = Trial {
        place,
        case,
        words: "",
        input,
        wanted: texts.wanted(),
    };
    try_words(rt, threads, trial, tally)
}
