//! Where a thread comes to rest.

ghost use Rattle.std.specs.Prelude.{◌≡◌, ◌<◌, ℕ, None, IfOk, IfSome};
ghost use Rattle.schedule.specs.Machine.{Thread.Runs};
ghost use Rattle.interp_machine.specs.State.{State};
ghost use Rattle.interp.specs.Threads.{StandsFor, meaning_in};
ghost use Rattle.search_parts.specs.Rests.{ComesToRestAt, IsCleared, SpendsAll, event_in};

use crate::walker::RestingThread;
use interp::Thread;
use interp_trait::{OpenGate, TakesTurns, Turn};
use live_kept::clear_dead;
use live_locals::LiveTables;
use std::alloc::{AllocError, Global};
use types::Event;

/// How many units a thread has from one event to the next: a million for turns of its own, `patience` of
/// `specs/Walkers.antt`, and one for the reply before them.
pub(crate) const FUEL: u64 = 1_000_001;

/// The event that a thread wants which makes no further turn of its own, by what it says of why.
fn event_in(turn: Turn) -> Option<Event>
    ensures { result ≡ event_in turn }
{
    match turn {
        Turn::Wants(event) => Some(event),
        _ => None,
    }
}

/// Where a thread comes to rest by turns of its own, its dead locals cleared by the tables; or nothing where it has spent
/// all its units: then it makes as many turns of its own as it had units left.
pub(crate) fn rest(
    alloc: Global,
    live: &LiveTables,
    thread: Thread,
) -> Result<Option<RestingThread>, AllocError>
    requires fuel { thread.fuel ≡ FUEL }
    requires stands { (x : State) × (left : ℕ) × StandsFor thread (Runs x left) }
    ensures rests { IfOk result (λ o. IfSome o (ComesToRestAt live.now thread.entry)) }
    ensures cleared { IfOk result (λ o. IfSome o (IsCleared live.now)) }
    ensures gives_up { IfOk result (λ o. o ≡ None → SpendsAll thread.entry) }
{
    let mut thread = thread;
    let turn = thread.own_turns(0, &mut OpenGate);
    if thread.spent() >= FUEL {
        return Ok(None);
    }
    if let Turn::Ended(outcome) = turn {
        return Ok(Some(RestingThread::Ended(outcome)));
    }
    let mut kept = thread.keep(alloc)?;
    clear_dead(live, &mut kept);
    Ok(Some(RestingThread::Going(kept, event_in(turn))))
}
