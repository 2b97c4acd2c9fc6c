//! Waits with a timeout, in the states that were met.
ghost use Rattle.std.specs.Prelude.{◌≡◌, ◌↔◌, ℕ, Some, true, false, IfOk, IsTrue};
ghost use Rattle.search_reach.specs.Meeting.{HasMetAt, HasSound};
ghost use Rattle.search_reach.specs.declared.search.Verdict.TheVariants as verdicts;
ghost use Rattle.search_settled.specs.Accesses.{IsTimed};
ghost use Rattle.search_race_free.specs.Touches.{access_at};
ghost use Rattle.search_race_free.specs.Met.{HasOwning};
ghost use Rattle.search_race_free.specs.Turns.{reduced, HasTimeout};
ghost use Rattle.search_race_free.specs.Timeouts.{IsUntimedAt, AreUntimed, HasTimed};

use crate::Accesses;
use crate::ahead::KnownTables;
use crate::alone::wanted;
use crate::met::{StateTable, state_at};
use search_reach::{Reached, Verdict};
use search_settled::NextAccess;
use std::alloc::{AllocError, Global};

/// Whether this is a wait with a timeout.
fn is_timed(next: Option<NextAccess>) -> bool
    ensures { IsTrue result ↔ (a : NextAccess) × (next ≡ Some a) × IsTimed a }
{
    match next {
        Some(access) => !access.plain && access.is_timed,
        None => false,
    }
}

/// Whether one of these is a wait with a timeout.
fn any_timed(wanted: &[Option<NextAccess>]) -> bool
    ensures none { result ≡ false → (n : ℕ) (a : NextAccess) → access_at wanted.now n ≡ Some a → IsTimed a → ⊥ }
    ensures some { result ≡ true → HasTimed wanted.now }
{
    for n in 0..wanted.len() {
        if is_timed(wanted[n]) {
            return true;
        }
    }
    false
}

/// Whether a thread waits next with a timeout in the state at this place.
fn is_timed_at<M: Accesses>(
    alloc: Global,
    system: &M,
    table: &StateTable<M::Shared, M::Thread>,
    at: usize,
) -> Result<bool, AllocError>
    requires { HasMetAt (reduced M.Moves system.now) (HasOwning table.now) at }
    ensures none { IfOk result (λ b. b ≡ false → IsUntimedAt (M.threads system.now) table.now at) }
    ensures some { IfOk result (λ b. b ≡ true → HasTimeout M.Moves system.now) }
{
    let Some(state) = state_at(alloc, system, table, at)? else {
        return Ok(true);
    };
    let next = wanted(alloc, system, &state.flat)?;
    Ok(any_timed(next.as_slice()))
}

/// Whether a thread waits next with a timeout, in one of the states of a table.
fn timed_among<M: Accesses>(
    alloc: Global,
    system: &M,
    table: &StateTable<M::Shared, M::Thread>,
) -> Result<bool, AllocError>
    requires { HasSound (reduced M.Moves system.now) (HasOwning table.now) }
    ensures none { IfOk result (λ b. b ≡ false → AreUntimed (M.threads system.now) table.now) }
    ensures some { IfOk result (λ b. b ≡ true → HasTimeout M.Moves system.now) }
{
    for place in 0..table.states.len() {
        if is_timed_at(alloc, system, table, place)? {
            return Ok(true);
        }
    }
    Ok(false)
}

/// The same of a search that met all; of another one it isn't said.
pub(crate) fn waits_timed<M: Accesses>(
    alloc: Global,
    system: &M,
    reached: &Reached<KnownTables<M::Shared, M::Thread>>,
) -> Result<bool, AllocError>
    requires { HasSound (reduced M.Moves system.now) (HasOwning reached.now.table.met) }
    ensures none { IfOk result (λ b. reached.now.verdict ≡ verdicts.All → b ≡ false
        → AreUntimed (M.threads system.now) reached.now.table.met) }
    ensures some { IfOk result (λ b. b ≡ true → HasTimeout M.Moves system.now) }
{
    match reached.verdict {
        Verdict::All => timed_among(alloc, system, &reached.table.met),
        Verdict::TooMany | Verdict::CannotTell | Verdict::Told | Verdict::Sought => Ok(false),
    }
}
