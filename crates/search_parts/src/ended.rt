//! How the threads of a module have ended.

ghost use Rattle.std.specs.Prelude.{◌≡◌, IfOk, MatchOption};
ghost use Rattle.search_parts.specs.Endings.{outcome_away, HaveLeft, IsOneHere};
ghost use Rattle.search_parts.specs.Threads.{IsSettled, HasEndedIn};
ghost use Rattle.search_parts.specs.declared.shared.HashedThread.{HashedThread};
ghost use Rattle.search_settled.specs.Parts.{HasParts};
ghost use Rattle.search_settled.specs.declared.flat.RestingState.{RestingState};

use crate::shared::Common;
use crate::shared_walker::SharedWalker;
use crate::walker::RestingThread;
use search_endings::Ending;
use search_memory::memory;
use std::alloc::{AllocError, Global};
use types::Outcome;

/// The outcome of a thread that has left.
fn outcome_away(standing: &RestingThread) -> Option<Outcome>
    ensures { result ≡ outcome_away standing.now }
{
    if let RestingThread::Away(outcome) = standing {
        Some(*outcome)
    } else {
        None
    }
}

/// The outcomes of these threads, or nothing where one of them hasn't left.
fn outcomes_of(alloc: Global, threads: &[SharedWalker]) -> Result<Option<Vec<Outcome>>, AllocError>
    ensures { IfOk result (λ o. MatchOption o (IsOneHere threads.now) (λ v. HaveLeft threads.now v.items)) }
{
    let mut outcomes = Vec::new(alloc);
    for n in 0..threads.len() {
        let Some(outcome) = outcome_away(&threads[n].walker().standing) else {
            return Ok(None);
        };
        outcomes.push(outcome)?;
    }
    Ok(Some(outcomes))
}

/// How the settled state of a call that has these parts has ended, where all its threads have left: with so many bytes,
/// or all if there are fewer.
///
/// # Errors
/// Where memory is refused.
pub fn ending_at(
    alloc: Global,
    opening: &[u8],
    shared: &Common,
    threads: &[SharedWalker],
    dump: usize,
) -> Result<Option<Ending>, AllocError>
    requires { (c : RestingState Common HashedThread) × HasParts shared.now threads.now c × IsSettled opening.now c }
    ensures { IfOk result
        (λ o. (c : RestingState Common HashedThread) → HasParts shared.now threads.now c
        → HasEndedIn opening.now dump c o) }
{
    let Some(outcomes) = outcomes_of(alloc, threads)? else {
        return Ok(None);
    };
    let memory = memory(alloc, opening, &shared.memory)?;
    let ending = Ending::new(alloc, outcomes, memory.pages(), memory.bytes(), dump)?;
    Ok(Some(ending))
}
