//! Where the entries of a recorded run were made.
ghost use Rattle.std.specs.Prelude.{◌≡◌, IfOk, IfErr};
ghost use Rattle.spawn_host.specs.declared.end.EndState.{EndState};
ghost use Rattle.replay.specs.Runs.{IsRunOf, IsReplayFault, ShowsNoRun};
ghost use Rattle.show_rows.specs.Rows.{SeesRound, SeesWanted};
ghost use Rattle.show_races.specs.Rows.{AreRowsOf};

use interp::Thread;
use interp_trait::Turn;
use replay::{ReplayFault, replay_watched};
use replay_text::Record;
use replay_walk::{Walk, Watch};
use shared_memory_sequential::OneMemory;
use show_rows::{NextStood, Row, Rows, Stood};
use std::alloc::Global;
use types::Entry;
use validate_module::ValidModule;

/// The rows of a record that is replayed, and what the thread of the next entry does.
#[derive(Drop)]
struct RowsAndNext<'a> {
    rows: Rows<'a>,
    next: NextStood<'a>,
}

impl<'a, 'm> Watch<Thread<'m>> for RowsAndNext<'a> {
    ghost use Rattle.show_rows.specs.Rows.{RowsSee};

    ghost sees = { λ old moment new. RowsSee old.rows moment new.rows };

    fn came(&mut self, entries: usize, walk: &Walk<Thread<'m>>)
        ensures { SeesRound self.old.rows entries walk.now.threads.items self.new.rows }
    {
        self.rows.came(entries, walk);
        self.next.came(entries, walk);
    }

    fn event(&mut self, entry: &Entry, thread: &Thread<'m>, memory: &OneMemory)
        ensures { SeesWanted self.old.rows entry.now.event thread.now memory.now.bytes self.new.rows }
    {
        self.rows.event(entry, thread, memory);
    }

    fn settled(&mut self, thread: u32, turn: Turn)
        ensures { self.new.rows ≡ self.old.rows }
    {
        self.next.settled(thread, turn);
    }
}

/// Why a record has no rows: it is of no run, or memory ran out.
#[derive(Clone, Copy)]
pub struct Unseen {
    pub fault: ReplayFault,
    /// What the thread of the entry that doesn't fit does in place of it, where there is such an entry.
    pub stood: Option<Stood>,
}

/// The rows of a record's entries.
///
/// # Errors
/// The fault is as of `replay`.
pub fn rows_seen(
    alloc: Global,
    module: &ValidModule,
    record: &Record,
) -> Result<Vec<Option<Row>>, Unseen>
    ensures run { IfOk result (λ rows. (end : EndState) × IsRunOf «module».now.parts «record».now end
        × AreRowsOf «module».now.parts «record».now end rows.items) }
    ensures fault { IfErr result (λ e. IsReplayFault «module».now.parts «record».now e.fault) }
    ensures none { IfErr result (λ e. ShowsNoRun «module».now.parts «record».now e.fault) }
{
    let log = record.parts().log.as_slice();
    let rows = match Rows::new(alloc, log) {
        Ok(rows) => rows,
        Err(_) => {
            return Err(Unseen {
                fault: ReplayFault::NoMemory,
                stood: None,
            });
        }
    };
    let next = NextStood::new(log);
    let mut seen = RowsAndNext { rows, next };
    match replay_watched(alloc, module, record, &mut seen) {
        Ok(_) => Ok(seen.rows.rows),
        Err(fault) => Err(Unseen {
            fault,
            stood: seen.next.stood,
        }),
    }
}

/// The same, where it doesn't matter why there are none.
///
/// # Errors
/// As of `replay`.
pub fn watched(
    alloc: Global,
    module: &ValidModule,
    record: &Record,
) -> Result<Vec<Option<Row>>, ReplayFault>
    ensures run { IfOk result (λ rows. (end : EndState) × IsRunOf «module».now.parts «record».now end
        × AreRowsOf «module».now.parts «record».now end rows.items) }
    ensures fault { IfErr result (λ fault. IsReplayFault «module».now.parts «record».now fault) }
    ensures none { IfErr result (λ fault. ShowsNoRun «module».now.parts «record».now fault) }
{
    match rows_seen(alloc, module, record) {
        Ok(rows) => Ok(rows),
        Err(unseen) => Err(unseen.fault),
    }
}
