//! One command line of a case, as often and over such memories as the case says.

use crate::runs::memory::is_memory_kept;
use crate::runs::program::{Gave, Input, program};
use crate::runs::record::{Kept, is_kept};
use crate::runs::telling::CaseName;
use crate::runs::wanted::{Wanted, number_of, wrote};
use std::alloc::{AllocError, Global};
use std::sync::Wait;
use std::thread::Threads;
use test_cases::{Case, Stop, Tally};

/// A command line: its words as they stand in the case, what it reads, and what is wanted of it.
#[derive(Clone, Copy)]
pub(crate) struct Trial<'a> {
    pub(crate) place: CaseName<'a>,
    pub(crate) case: &'a Case<'a>,
    pub(crate) words: &'a str,
    pub(crate) input: Input<'a>,
    pub(crate) wanted: Wanted<'a>,
}

/// Over which memory a run is made.
#[derive(Clone, Copy)]
enum Over {
    /// The one that the words name.
    Named,
    Recorder,
    Words,
}

impl Over {
    /// The words for it, behind the command and the module's path.
    fn words(self) -> &'static str {
        match self {
            Over::Named => "",
            Over::Recorder => "--record a.record",
            Over::Words => "--memory words",
        }
    }

    /// What its record is looked at for.
    fn record(self) -> Kept {
        match self {
            Over::Named => Kept::AsSaid,
            Over::Recorder => Kept::Run,
            Over::Words => Kept::Nothing,
        }
    }
}

/// All words of a command line, the program's name first.
fn words_of<'a>(alloc: Global, trial: Trial<'a>, over: Over) -> Result<Vec<&'a str>, AllocError> {
    let mut words = Vec::new(alloc);
    words.push("wathread")?;
    for (at, word) in trial.words.split_whitespace().enumerate() {
        words.push(word)?;
        if at == 1 {
            for word in over.words().split_whitespace() {
                words.push(word)?;
            }
        }
    }
    for word in trial.case.all(alloc, "word")?.iter() {
        words.push(*word)?;
    }
    Ok(words)
}

/// The words of a replay that shows as many bytes as the words of a run say, in the same form.
fn replay_words<'a>(alloc: Global, words: &'a str) -> Result<Vec<&'a str>, AllocError> {
    let mut found = Vec::new(alloc);
    for word in "wathread replay a.wasm a.record".split_whitespace() {
        found.push(word)?;
    }
    let mut is_next = false;
    for word in words.split_whitespace() {
        if is_next || ["--dump", "--units", "--json"].contains(&word) {
            found.push(word)?;
        }
        is_next = word == "--dump";
    }
    Ok(found)
}

/// Replays the record that was written, to the lines that are wanted.
fn is_replayed<'a, R: Threads + Wait + Sync>(
    rt: &HostRuntime,
    threads: &R,
    trial: Trial<'a>,
    record: &'a [u8],
    wanted: Wanted,
) -> Result<bool, AllocError> {
    let words = replay_words(rt.alloc(), trial.words)?;
    let input = Input {
        saved: record,
        ..trial.input
    };
    let mut gave = Gave::new(rt.alloc());
    program(threads, rt.alloc(), &words, input, &mut gave)?;
    Ok(
        wrote(rt, trial.place, &words, wanted, &gave)
            && is_kept(rt, trial.place, trial.case, Kept::Nothing, &gave)?,
    )
}

/// What a replay says on standard error of a run that said this: the same, but for what was asked to be explained.
fn told_again<'a>(trial: Trial, ran: &'a Gave) -> &'a [u8] {
    if trial.words.contains("--explain") {
        b""
    } else {
        &ran.streams.err
    }
}

/// Whether the record is replayed as it should be, where a replay is wanted.
fn comes_again<'a, R: Threads + Wait + Sync>(
    rt: &HostRuntime,
    threads: &R,
    trial: Trial<'a>,
    over: Over,
    ran: &'a Gave,
) -> Result<bool, AllocError> {
    let text = trial.case.text(rt.alloc(), "again")?;
    let told = trial.case.text(rt.alloc(), "again-err")?;
    let wanted = match over {
        Over::Words => return Ok(true),
        Over::Named if text.is_empty() => return Ok(true),
        Over::Named => Wanted {
            out: Some(text.as_slice()),
            err: told.as_slice(),
            status: number_of(trial.case, "again-status", 0),
        },
        Over::Recorder => Wanted {
            out: Some(ran.streams.out.as_slice()),
            err: told_again(trial, ran),
            status: ran.status,
        },
    };
    is_replayed(rt, threads, trial, &ran.streams.save, wanted)
}

/// Does a command line, and says what came out otherwise than wanted.
fn try_over<R: Threads + Wait + Sync>(
    rt: &HostRuntime,
    threads: &R,
    trial: Trial,
    over: Over,
    tally: &mut Tally,
) -> Result<(), AllocError> {
    let words = words_of(rt.alloc(), trial, over)?;
    let mut gave = Gave::new(rt.alloc());
    program(threads, rt.alloc(), &words, trial.input, &mut gave)?;
    let is_right = wrote(rt, trial.place, &words, trial.wanted, &gave)
        && is_kept(rt, trial.place, trial.case, over.record(), &gave)?
        && is_memory_kept(rt, trial.place, trial.case, &words, &gave)?
        && comes_again(rt, threads, trial, over, &gave)?;
    tally.add(is_right);
    Ok(())
}

/// How often each command line of a case is done.
fn times_of(case: &Case) -> u32 {
    match case.get("times") {
        Some(text) => text.parse::<u32>().unwrap_or(0),
        None => 1,
    }
}

/// Does a command line over the memories that its case names, as often as that says.
pub(crate) fn try_line<R: Threads + Wait + Sync>(
    rt: &HostRuntime,
    threads: &R,
    trial: Trial,
    tally: &mut Tally,
) -> Result<(), Stop> {
    let over = trial.case.get("over");
    for _ in 0..times_of(trial.case) {
        if over.is_none() {
            try_over(rt, threads, trial, Over::Named, tally)?;
        } else {
            try_over(rt, threads, trial, Over::Recorder, tally)?;
        }
        if over == Some("both") && !trial.words.contains("--limit") {
            try_over(rt, threads, trial, Over::Words, tally)?;
        }
    }
    Ok(())
}
