//! What a worker does: it waits until its thread is spawned, and runs it.
ghost use Rattle.std.specs.Prelude.{◌≡◌, []};
ghost use Rattle.shared_memory.specs.History.{entries_of};
ghost use Rattle.spawn_host_workers.specs.OverMemory.{over};
ghost use Rattle.spawn_host_workers.specs.Works.{EndsWork};
ghost use Rattle.interp_trait.specs.Turns.{MayBeSpawned};

use crate::crew::Workplace;
use crate::{ThreadEnd, run_thread};
use interp_trait::{Gate, TakesTurns};
use shared_memory::SharedMemory;
use std::sync::Wait;
use types::{ThreadReport, Value};

/// A seat that comes back, with the report of its thread, if that one was spawned, and its gate.
#[derive(Drop)]
pub(crate) struct WorkerEnd<S, G> {
    pub(crate) report: Option<ThreadReport>,
    pub(crate) seat: S,
    pub(crate) gate: G,
}

/// Waits until the thread of the seat's name is spawned, and runs it to its end.
pub(crate) fn work<T: TakesTurns + Drop, M: SharedMemory, W: Wait + Drop, G: Gate, R: Wait>(
    place: &Workplace<M, W, G, R>,
    mut thread: T,
    mut seat: M::Seat,
) -> WorkerEnd<M::Seat, G>
    requires new { entries_of (M.name seat) (M.seen seat) ≡ [] }
    requires begins { MayBeSpawned (T.meaning thread) }
    ensures { EndsWork (over M.SharedMemory place.now.memory.now) G.Gate place.now.gate.now T.meaning thread seat
        result }
{
    let memory = place.memory;
    let gate = *place.gate;
    let name = memory.name(&seat);
    let Some(arg) = place.desk.begin(memory, &mut seat) else {
        return WorkerEnd {
            report: None,
            seat,
            gate,
        };
    };
    thread.set_args(&[Value::I32(name), Value::I32(arg)]);
    let ThreadEnd {
        outcome,
        seat,
        spent,
        gate,
    } = run_thread(place.rt, thread, memory, seat, place.desk, gate);
    let report = Some(ThreadReport { outcome, spent });
    WorkerEnd { report, seat, gate }
}
