//! What a course has come to.
ghost use Rattle.std.specs.Prelude.{◌≡◌, ◌≢◌, drop, IfErr, IfOk};
ghost use Rattle.search_scheduled.specs.Courses.{ConcludesRuns};
ghost use Rattle.search_scheduled.specs.Headers.{HasHeaderOf};
ghost use Rattle.search_scheduled.specs.Nowhere.{AreReports, HasNoRecord, LacksReport};
ghost use Rattle.search_scheduled.specs.SpareThreads.{LeavesUnused};

use crate::Course;
use crate::fault::SearchFault;
use interp_trait::TakesTurns;
use replay::first_wrong_end;
use replay_text::RecordParts;
use replay_walk::Walk;
use spawn_host::EndState;
use std::alloc::{AllocError, Global};
use types::{Sequence, ThreadReport};

/// What a course has come to: the parts of its record, how its run ended, and the threads that it didn't start.
#[derive(Drop)]
pub(crate) struct Concluded<T> {
    pub parts: RecordParts,
    pub end: EndState,
    pub unused: Vec<T>,
}

/// How the threads of a walk have ended that were started, in order.
///
/// # Errors
/// `NoEnd` where one hasn't left; `NoMemory`.
fn ends_of<T: TakesTurns>(alloc: Global, walk: &Walk<T>) -> Result<Vec<ThreadReport>, SearchFault>
    ensures ends { IfOk result (λ ends. AreReports T.meaning walk.now ends.items) }
    ensures lacks { IfErr result (λ fault. fault ≡ SearchFault.NoEnd → LacksReport T.meaning walk.now) }
    ensures fault { IfErr result (λ fault. fault ≢ SearchFault.GivenUp) }
{
    let mut ends = Vec::new(alloc);
    for n in 0..walk.stage.started as usize {
        let Some(Some(outcome)) = walk.stage.ends.get(n) else {
            return Err(SearchFault::NoEnd);
        };
        let Some(thread) = walk.threads.get(n) else {
            return Err(SearchFault::NoEnd);
        };
        ends.push(ThreadReport {
            outcome: *outcome,
            spent: thread.spent(),
        })?;
    }
    Ok(ends)
}

/// The threads behind those that were started.
fn unused_of<T: Drop>(alloc: Global, threads: Vec<T>, started: u32) -> Result<Vec<T>, AllocError>
    ensures { IfOk result (λ unused. unused.items ≡ drop started threads.items) }
{
    let mut threads = threads;
    let used = started as usize;
    if threads.len() <= used {
        return Ok(Vec::new(alloc));
    }
    threads.split_off(used)
}

/// What a course has come to whose run has come to its end, under the header of other parts.
///
/// # Errors
/// `NoEnd` where no record of that log is of its run; `NoMemory`.
pub(crate) fn conclude<T: TakesTurns + Drop>(
    alloc: Global,
    course: Course<T>,
    header: RecordParts,
) -> Result<Concluded<T>, SearchFault>
    ensures header { IfOk result (λ c. HasHeaderOf header c.parts) }
    ensures log { IfOk result (λ c. c.parts.log ≡ course.log.items) }
    ensures concludes { IfOk result (λ c. ConcludesRuns T.meaning course header c.parts c.end) }
    ensures unused { IfOk result (λ c. LeavesUnused T.meaning course c.unused.items) }
    ensures none { IfErr result (λ fault. fault ≡ SearchFault.NoEnd → HasNoRecord T.meaning header course) }
    ensures fault { IfErr result (λ fault. fault ≢ SearchFault.GivenUp) }
{
    let ends = ends_of(alloc, &course.walk)?;
    let threads = Vec::from_slice(alloc, &ends)?;
    let walk = course.walk;
    let pages = walk.memory.pages();
    let parts = RecordParts {
        log: Sequence::from_vec(course.log),
        ends: Sequence::from_vec(ends),
        pages,
        ..header
    };
    match first_wrong_end(&walk.threads, &walk.stage, pages, &parts) {
        Some(_) => Err(SearchFault::NoEnd),
        None => Ok(Concluded {
            parts,
            end: EndState {
                threads,
                pages,
                bytes: walk.memory.into_bytes(),
            },
            unused: unused_of(alloc, walk.threads, walk.stage.started)?,
        }),
    }
}
