//! Numbers by which states are told apart quickly. Nothing rests on them: what is equal is compared as a whole.

use crate::walker::RestingThread;
use interp::Kept;
use interp_state::{Progress, word};
use search_memory::Changes;
use std::hash::{FoldHasher, Hash, Hasher};
use types::{Outcome, Value};
use waiters::KeptQueue;

fn hash_kept(kept: &Kept, state: &mut FoldHasher) {
    kept.function.hash(state);
    kept.pc.hash(state);
    kept.values.as_slice().hash(state);
    for global in kept.globals.as_slice() {
        hash_value(*global, state);
    }
    for caller in kept.callers.as_slice() {
        caller.function.hash(state);
        caller.pc.hash(state);
    }
    match kept.progress {
        Progress::Fresh => state.write_u8(1),
        Progress::Halfway(number) => {
            state.write_u8(2);
            state.write_u64(number);
        }
        Progress::Asked => state.write_u8(3),
    }
}

fn hash_value(value: Value, state: &mut FoldHasher) {
    state.write_u64(word(value));
}

fn hash_outcome(outcome: Outcome, state: &mut FoldHasher) {
    match outcome {
        Outcome::Done(None) => state.write_u8(1),
        Outcome::Done(Some(value)) => {
            state.write_u8(2);
            hash_value(value, state);
        }
        Outcome::Trap(trap) => {
            state.write_u8(3);
            state.write_u8(trap.number());
        }
        Outcome::Stop(stop) => {
            state.write_u8(4);
            state.write_u8(stop.number());
        }
    }
}

/// Of a thread at rest.
pub(crate) fn of_standing(standing: &RestingThread) -> u64 {
    let mut state = FoldHasher::default();
    match standing {
        RestingThread::Missing => state.write_u8(1),
        RestingThread::Going(kept, _) => hash_kept(kept, &mut state),
        RestingThread::Ended(outcome) => {
            state.write_u8(2);
            hash_outcome(*outcome, &mut state);
        }
        RestingThread::Leaving(outcome) => {
            state.write_u8(3);
            hash_outcome(*outcome, &mut state);
        }
        RestingThread::Away(outcome) => {
            state.write_u8(4);
            hash_outcome(*outcome, &mut state);
        }
    }
    state.finish()
}

/// Of what threads share.
pub(crate) fn of_shared(memory: &Changes, queue: &KeptQueue) -> u64 {
    let mut state = FoldHasher::default();
    memory.len.hash(&mut state);
    for change in memory.changes.as_slice() {
        change.at.hash(&mut state);
        change.byte.hash(&mut state);
    }
    queue.alive.as_slice().hash(&mut state);
    queue.args.as_slice().hash(&mut state);
    for sleeper in queue.sleepers.as_slice() {
        sleeper.thread.hash(&mut state);
        sleeper.addr.hash(&mut state);
    }
    state.finish()
}
