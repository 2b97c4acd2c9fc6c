//! The lines behind the log, one by one.
ghost use Rattle.std.specs.Prelude.{◌≡◌, true, false};
ghost use Rattle.replay.specs.Ends.{IsPagesLine, LeftAs, NamesFirstWrong, NotLeftAs};

use interp_trait::TakesTurns;
use replay_text::RecordParts;
use replay_walk::Stage;
use types::ThreadReport;

/// The first of the end lines, from 0 on, that doesn't agree with where the walk came to, or the pages line behind
/// them, if all of them do. `held` are the pages of the memory, and `parts` the record; `None` is the answer where each
/// line agrees.
pub fn first_wrong_end<T: TakesTurns>(
    threads: &[T],
    stage: &Stage,
    held: u32,
    parts: &RecordParts,
) -> Option<usize>
    ensures { NamesFirstWrong T.meaning threads.now stage.now held parts.now result }
{
    let ends = parts.ends.as_slice();
    for (number, report) in ends.iter().enumerate() {
        if !has_left(threads, stage, number, report) {
            return Some(number);
        }
    }
    if is_pages_line(stage, held, parts) {
        None
    } else {
        Some(ends.len())
    }
}

/// Whether the thread of this number has left with this outcome, after so many units, and has heard the answer to its
/// leave.
fn has_left<T: TakesTurns>(
    threads: &[T],
    stage: &Stage,
    number: usize,
    report: &ThreadReport,
) -> bool
    ensures left { result ≡ true → LeftAs T.meaning threads.now stage.now number report.now }
    ensures other { result ≡ false → NotLeftAs T.meaning threads.now stage.now number report.now }
{
    let Some(thread) = threads.get(number) else {
        return false;
    };
    let Some(Some(outcome)) = stage.ends.get(number) else {
        return false;
    };
    if stage.queue.has_open_question(number as u32) {
        return false;
    }
    let seen = ThreadReport {
        outcome: *outcome,
        spent: thread.spent(),
    };
    is_same_report(seen, *report)
}

/// Whether two reports are the same.
fn is_same_report(a: ThreadReport, b: ThreadReport) -> bool
    ensures same { result ≡ true → a ≡ b }
    ensures other { result ≡ false → a ≡ b → ⊥ }
{
    a == b
}

/// Whether the memory has the record's pages, and no thread was started that has no end line.
fn is_pages_line(stage: &Stage, held: u32, parts: &RecordParts) -> bool
    ensures same { result ≡ true → IsPagesLine parts.now held stage.now.started }
    ensures other { result ≡ false → IsPagesLine parts.now held stage.now.started → ⊥ }
{
    held == parts.pages && stage.started as usize <= parts.ends.len()
}
