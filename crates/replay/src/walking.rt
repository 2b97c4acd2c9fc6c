//! The walk along a record's log, and the lines behind it.
ghost use Rattle.std.specs.Prelude.{◌≡◌, ◌+◌, ◌≤◌, IfOk, IfErr};
ghost use Rattle.replay_text.specs.Text.{IsRecord};
ghost use Rattle.replay_walk.specs.Walked.{Run};
ghost use Rattle.replay.specs.Walks.{IsReadyFor, ShowsFault, ShowsRun};
ghost use Rattle.replay.specs.Watching.{SeesWalk};

use crate::fault::ReplayFault;
use crate::first_wrong_end;
use interp_trait::TakesTurns;
use replay_text::RecordParts;
use replay_walk::{Walk, Watch};
use shared_memory_sequential::OneMemory;

/// The number of a line: so many behind this one.
fn line_at(first: usize, behind: usize) -> u32
    requires { first + behind ≤ 2000000 }
    ensures { result ≡ first + behind }
{
    (first + behind) as u32
}

/// Walks along a record's log, then compares the lines behind it, and gives the memory in the end. `watch` sees the
/// walk.
///
/// # Errors
/// `Line` where an entry doesn't fit, and `EndLine` where all do and a line behind them doesn't: the first such line.
pub(crate) fn walk<T: TakesTurns + Drop, W: Watch<T>>(
    threads: Vec<T>,
    memory: OneMemory,
    parts: &RecordParts,
    watch: &mut W,
) -> Result<OneMemory, ReplayFault>
    requires ranges { IsRecord parts.now }
    requires ready { (run : Run) × IsReadyFor T.meaning run parts.now threads.items memory }
    ensures run { IfOk result (ShowsRun T.meaning parts.now threads.items memory) }
    ensures fault { IfErr result (ShowsFault T.meaning parts.now threads.items memory) }
    ensures seen { SeesWalk T.meaning W.sees parts.now threads.items memory result watch.old watch.new }
{
    let mut walk = Walk::new(threads, memory, parts.threads);
    let first = parts.version.header_lines() + 1;
    let log = parts.log.as_slice();
    if let Some(at) = walk.along_watched(log, parts.limit, watch) {
        return Err(ReplayFault::Line(line_at(first, at)));
    }
    let held = walk.memory.pages();
    match first_wrong_end(&walk.threads, &walk.stage, held, parts) {
        Some(at) => Err(ReplayFault::EndLine(line_at(first + log.len(), at))),
        None => Ok(walk.memory),
    }
}
