//! The seats of a run.
ghost use Rattle.std.specs.Prelude.{◌≡◌, ◌≤◌, ◌∷◌, ◌++◌, [], length, vec_len, vec_capacity};
ghost use Rattle.types.specs.declared.limits.TheConstants.{MOST_SPAWNED, SEATS};

/// The seats of a run, dealt out: to the first thread, to those that can be spawned, and to the desk.
pub(crate) struct Dealt<S> {
    /// Thread 0 has it.
    pub(crate) first: S,
    /// The threads that can be spawned have them, in order of their numbers.
    pub(crate) workers: Vec<S>,
    /// The desk has it.
    pub(crate) desk: S,
}

/// Deals the seats of a run out. What is left to the workers keeps the room for all.
pub(crate) fn deal<S: Drop>(mut seats: Vec<S>) -> Dealt<S>
    requires { vec_len seats ≡ SEATS }
    ensures parts { seats.items ≡ (result.first ∷ result.workers.items) ++ result.desk ∷ [] }
    ensures len { length result.workers.items ≡ MOST_SPAWNED }
    ensures room { SEATS ≤ vec_capacity result.workers }
{
    let Some(desk) = seats.pop() else {
        unreachable!()
    };
    let first = seats.remove(0);
    Dealt {
        first,
        workers: seats,
        desk,
    }
}
