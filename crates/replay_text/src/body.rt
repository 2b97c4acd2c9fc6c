//! Reading what stands behind the header.

ghost use Rattle.std.specs.Prelude.{◌≡◌, ◌≤◌};
ghost use Rattle.types.specs.declared.limits.TheConstants.{MOST_LIMIT, MOST_THREADS};
ghost use Rattle.replay_text.specs.Faults.{GivesLines, GivesLinesAs};
ghost use Rattle.replay_text.specs.Versions.{header_count};
ghost use Rattle.replay_text.specs.Refusals.{body_line, last_refusal, ends_refusal, body_refusal};
ghost use Rattle.replay_text.specs.Views.{ends_view, body_of};
ghost use Rattle.replay_text.specs.Reading.{last_lines_at, ends_at, body_at};

use crate::end::EndLine;
use crate::entry::EntryLine;
use crate::fault::RecordFault;
use crate::header::Scale;
use crate::number::u32_behind;
use replay_forms::{after, several};
use std::alloc::Global;
use types::{Entry, Sequence, ThreadReport};

/// The ends of the threads, and the pages after the run.
#[derive(Drop)]
pub struct Ends {
    pub ends: Sequence<ThreadReport>,
    pub pages: u32,
}

/// What stands behind the header.
#[derive(Drop)]
pub struct RecordBody {
    pub log: Sequence<Entry>,
    pub ends: Sequence<ThreadReport>,
    pub pages: u32,
}

/// What is wrong where the line of this number isn't what it has to be: no line, if no line feed is left.
fn fault_at(line: usize, rest: &[u8]) -> RecordFault
    ensures { result ≡ body_line line rest.now }
{
    if rest.contains(&b'\n') {
        RecordFault::Unreadable(line)
    } else {
        RecordFault::EndMissing
    }
}

/// The pages after the run, and the line `finish`.
fn last_lines_in(max_pages: u32, line: usize, bytes: &[u8]) -> Result<(u32, &[u8]), RecordFault>
    requires { line ≤ 2000064 }
    ensures { GivesLines (last_lines_at max_pages) (last_refusal max_pages line) bytes.now result }
{
    let Some((pages, rest)) = u32_behind(b"pages ", max_pages, b"\n", bytes) else {
        return Err(fault_at(line, bytes));
    };
    let Some(rest) = after(b"finish\n", rest) else {
        return Err(fault_at(line + 1, rest));
    };
    Ok((pages, rest))
}

/// The end lines, of so many threads at most, and the two lines behind them. The first is the line of this number.
#[tactic(auto, unfolding(crate::specs::Reading::ends_at))]
fn ends_in(
    alloc: Global,
    scale: Scale,
    line: usize,
    bytes: &[u8],
) -> Result<(Ends, &[u8]), RecordFault>
    requires line { line ≤ 2000000 }
    requires threads { scale.threads ≤ MOST_THREADS }
    ensures { GivesLinesAs ends_view (ends_at scale.threads scale.max_pages)
        (ends_refusal scale.threads scale.max_pages line) bytes.now result }
{
    let (ends, rest) = several(alloc, &EndLine, scale.threads as usize, bytes)?;
    if ends.is_empty() {
        return Err(fault_at(line, rest));
    }
    let (pages, rest) = last_lines_in(scale.max_pages, line + ends.len(), rest)?;
    let ends = Ends {
        ends: Sequence::from_vec(ends),
        pages,
    };
    Ok((ends, rest))
}

/// What stands behind the header, where the log took so many entries before it was full.
#[tactic(auto, unfolding(crate::specs::Reading::body_at))]
pub fn body_in(
    alloc: Global,
    scale: Scale,
    limit: u32,
    bytes: &[u8],
) -> Result<(RecordBody, &[u8]), RecordFault>
    requires limit { limit ≤ MOST_LIMIT }
    requires threads { scale.threads ≤ MOST_THREADS }
    ensures { let header = header_count scale.version in
        GivesLinesAs body_of (body_at scale.threads scale.max_pages limit)
        (body_refusal header scale.threads scale.max_pages limit) bytes.now result }
{
    let threads = scale.threads;
    let most = limit as usize + 3 * threads as usize;
    let (log, rest) = several(alloc, &EntryLine { threads }, most, bytes)?;
    let first_end = scale.version.header_lines() + log.len() + 1;
    let (ends, rest) = ends_in(alloc, scale, first_end, rest)?;
    let body = RecordBody {
        log: Sequence::from_vec(log),
        ends: ends.ends,
        pages: ends.pages,
    };
    Ok((body, rest))
}
