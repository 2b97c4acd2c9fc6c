//! The turn of a thread, by the numbers of a table.
ghost use Rattle.std.specs.Prelude.{◌≡◌, ◌≢◌, ◌<◌, ◌≤◌, true, false, IfOk, OnOk};
ghost use Rattle.schedule.specs.System.{State};
ghost use Rattle.search_table.specs.Tables.{Grows};
ghost use Rattle.search_settled.specs.declared.turns.EventOutcome.TheVariants.{Unknown};
ghost use Rattle.search_settled.specs.declared.turns.ThreadTurn.TheVariants as turn_variants;
ghost use Rattle.search_settled.specs.Known.{AreKnown, AreOfThread, OfNumbers, IsTurnOf, IsMade, IsLostBy};
ghost use Rattle.search_settled.specs.Alone.{IsUnheard};
ghost use Rattle.search_settled.specs.Flat.{IsThreadOf, ComesAfter};

use crate::Moves;
use crate::met::{Known, MetParts, QuietTurn, note, recall};
use std::alloc::{AllocError, Global};

/// What comes of the event that a thread wants.
#[derive(Drop)]
pub enum ThreadTurn<S, T, E> {
    /// It wants none.
    Still,
    /// What is shared after it, and where the thread comes to rest. All others rest where they did.
    Alone(S, T),
    /// Others hear of it: what is shared after it, and what it makes.
    Heard(S, E),
    /// That can't be told.
    Unknown,
}

/// The same, by numbers where nobody else hears of it.
#[derive(Drop)]
pub(crate) enum EventOutcome<S, E> {
    /// Its turn.
    Told(QuietTurn),
    /// Others hear of it: what is shared after it, and what it makes.
    Heard(S, E),
    /// That can't be told.
    Unknown,
}

/// Whether thread m is another one that hears of an event of thread n.
fn is_told<M: Moves>(system: &M, made: &M::Effect, n: usize, m: usize) -> bool
    requires { m < (M.threads system.now).most }
    ensures { result ≡ false → m ≢ n → (t : M.Thread) → ComesAfter (M.threads system.now) made.now n t m t }
{
    if m == n {
        return false;
    }
    system.hears(made, n, m)
}

/// Whether nobody hears of an event of thread n but itself: of so many threads, which are as many after it.
fn is_quiet<M: Moves>(
    system: &M,
    shared: &M::Shared,
    made: &M::Effect,
    n: usize,
    count: usize,
) -> bool
    requires { count ≤ (M.threads system.now).most }
    ensures unheard { result ≡ true → IsUnheard (M.threads system.now) made.now n count }
    ensures counted { result ≡ true → (x : M.X) → (M.threads system.now).shares shared.now x → count ≡ (M.threads system.now).count x }
{
    if system.started(shared) != count {
        return false;
    }
    for m in 0..count {
        if is_told(system, made, n, m) {
            return false;
        }
    }
    true
}

/// What comes of the event that thread n wants, where this is shared: whatever the other threads are.
///
/// # Errors
/// Where memory is refused.
pub fn turn_of<M: Moves>(
    alloc: Global,
    system: &M,
    shared: &M::Shared,
    thread: &M::Thread,
    n: usize,
) -> Result<ThreadTurn<M::Shared, M::Thread, M::Effect>, AllocError>
    requires of { (z : State M.X M.T) × IsThreadOf (M.threads system.now) shared.now thread.now n z }
    requires few { n < (M.threads system.now).most }
    ensures turn { IfOk result (IsTurnOf (M.threads system.now) shared.now thread.now n) }
    ensures gives_up { IfOk result (λ r. r ≡ turn_variants.Unknown
        → IsLostBy (M.threads system.now) (M.stuck system.now) n shared.now thread.now) }
{
    let count = system.started(shared);
    let Some((new, made)) = system.event(alloc, shared, thread, n)? else {
        return Ok(ThreadTurn::Still);
    };
    if !is_quiet(system, &new, &made, n, count) {
        return Ok(ThreadTurn::Heard(new, made));
    }
    let Some(rested) = system.after(alloc, &made, n, thread, n)? else {
        return Ok(ThreadTurn::Unknown);
    };
    Ok(ThreadTurn::Alone(new, rested))
}

/// What comes of the event that thread n wants, which was not known, before it is noted.
fn made_anew<M: Moves>(
    alloc: Global,
    system: &M,
    met: &mut MetParts<M::Shared, M::Thread>,
    shared: u32,
    thread: u32,
    n: usize,
) -> Result<EventOutcome<M::Shared, M::Effect>, AllocError>
    requires known { AreKnown (M.threads system.now) met.old }
    requires of { AreOfThread (M.threads system.now) met.old.parts shared thread n }
    requires few { n < (M.threads system.now).most }
    ensures grows { OnOk result (Grows met.old.parts met.new.parts) }
    ensures known { OnOk result (AreKnown (M.threads system.now) met.new) }
    ensures made { IfOk result (λ r. OfNumbers (M.threads system.now) met.old.parts shared thread
        (λ g h. IsMade (M.threads system.now) met.new.parts g h n r)) }
    ensures gives_up { IfOk result (λ r. r ≡ Unknown → OfNumbers (M.threads system.now) met.old.parts shared thread
        (IsLostBy (M.threads system.now) (M.stuck system.now) n)) }
{
    let Some(old) = met.parts.shared.get_index(shared as usize) else {
        return Ok(EventOutcome::Unknown);
    };
    let Some(own) = met.parts.threads.get_index(thread as usize) else {
        return Ok(EventOutcome::Unknown);
    };
    match turn_of(alloc, system, old, own, n)? {
        ThreadTurn::Still => Ok(EventOutcome::Told(QuietTurn::Still)),
        ThreadTurn::Alone(new, rested) => {
            let shared = met.parts.put_shared(new)?;
            let thread = met.parts.put_thread(rested)?;
            Ok(EventOutcome::Told(QuietTurn::Alone { shared, thread }))
        }
        ThreadTurn::Heard(new, made) => Ok(EventOutcome::Heard(new, made)),
        ThreadTurn::Unknown => Ok(EventOutcome::Unknown),
    }
}

/// What comes of the event that thread n wants: its turn, if that is known; else what is found now, and is noted if nobody
/// else hears of it.
pub(crate) fn made_by<M: Moves>(
    alloc: Global,
    system: &M,
    met: &mut MetParts<M::Shared, M::Thread>,
    shared: u32,
    thread: u32,
    n: usize,
) -> Result<EventOutcome<M::Shared, M::Effect>, AllocError>
    requires known { AreKnown (M.threads system.now) met.old }
    requires of { AreOfThread (M.threads system.now) met.old.parts shared thread n }
    requires few { n < (M.threads system.now).most }
    ensures grows { OnOk result (Grows met.old.parts met.new.parts) }
    ensures known { OnOk result (AreKnown (M.threads system.now) met.new) }
    ensures made { IfOk result (λ r. OfNumbers (M.threads system.now) met.old.parts shared thread
        (λ g h. IsMade (M.threads system.now) met.new.parts g h n r)) }
    ensures gives_up { IfOk result (λ r. r ≡ Unknown → OfNumbers (M.threads system.now) met.old.parts shared thread
        (IsLostBy (M.threads system.now) (M.stuck system.now) n)) }
{
    let known = met.known.as_slice();
    if let Some(turn) = recall(known, shared, thread, n as u32) {
        return Ok(EventOutcome::Told(turn));
    }
    let made = made_anew(alloc, system, met, shared, thread, n)?;
    if let EventOutcome::Told(turn) = made {
        let n = n as u32;
        let new = Known {
            shared,
            thread,
            n,
            turn,
        };
        note(&mut met.known, new);
    }
    Ok(made)
}
