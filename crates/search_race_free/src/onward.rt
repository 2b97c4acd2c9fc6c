//! The turn of a thread, and plain ones after it.
ghost use Rattle.std.specs.Prelude.{◌≡◌, ◌≢◌, true, None, IfOk};
ghost use Rattle.search_race_free.specs.Reduced.{ComesOf};
ghost use Rattle.search_race_free.specs.Touches.{access_at};
ghost use Rattle.search_race_free.specs.Search.{AreWanted, WantsSome, IsOwned, ComesOnward, OfComing, IsCame};

use crate::alone::{Arrival, after_event, run_alone, wanted};
use crate::touches::{first_race, of_others, put_over};
use crate::{Accesses, Owning};
use search_settled::{NextAccess, RestingState};
use std::alloc::{AllocError, Global};

/// What thread m does next, as a list has it.
pub(crate) fn next_of(wanted: &[Option<NextAccess>], m: usize) -> Option<NextAccess>
    ensures { result ≡ access_at wanted.now m }
{
    if m < wanted.len() { wanted[m] } else { None }
}

/// Whether thread m may go on alone after the turn of thread n: it is that thread, or it couldn't go on before.
pub(crate) fn is_free(before: &[Option<NextAccess>], n: usize, m: usize) -> bool
    ensures { result ≡ true → m ≢ n → access_at before.now m ≡ None }
{
    match next_of(before, m) {
        Some(_) => m == n,
        None => true,
    }
}

/// Thread m goes on alone, if it may.
fn run_free<M: Accesses>(
    alloc: Global,
    system: &M,
    at: Owning<RestingState<M::Shared, M::Thread>>,
    before: &[Option<NextAccess>],
    n: usize,
    m: usize,
    most: u32,
) -> Result<Arrival<Owning<RestingState<M::Shared, M::Thread>>>, AllocError>
    requires { IsOwned (M.threads system.now) at }
    ensures { OfComing (M.threads system.now) n before.now at (λ s. IfOk result
        (IsCame (M.threads system.now) (M.stuck system.now) s.flat (ComesOnward (M.threads system.now) n s))) }
{
    if is_free(before, n, m) {
        run_alone(alloc, system, at, m, most)
    } else {
        Ok(Arrival::To(at))
    }
}

/// Where plain turns lead after the turn of thread n.
fn turn_onward<M: Accesses>(
    alloc: Global,
    system: &M,
    from: &Owning<RestingState<M::Shared, M::Thread>>,
    before: &[Option<NextAccess>],
    n: usize,
    access: NextAccess,
    most: u32,
) -> Result<Arrival<Owning<RestingState<M::Shared, M::Thread>>>, AllocError>
    requires owned { IsOwned (M.threads system.now) from.now }
    requires before { AreWanted (M.threads system.now) from.now.flat before.now }
    requires wants { WantsSome (M.threads system.now) from.now.flat n access }
    ensures { IfOk result
        (IsCame (M.threads system.now) (M.stuck system.now) from.now.flat (ComesOnward (M.threads system.now) n from.now)) }
{
    let Some(flat) = after_event(alloc, system, &from.flat, n, access)? else {
        return Ok(Arrival::Unknown);
    };
    let mut owned = of_others(alloc, from.owned.as_slice(), n)?;
    if let Some(race) = put_over(&mut owned, before, n, access)? {
        return Ok(Arrival::Races(race));
    }
    let count = flat.threads.len();
    let mut at = Owning { flat, owned };
    for m in 0..count {
        match run_free(alloc, system, at, before, n, m, most)? {
            Arrival::To(next) => at = next,
            Arrival::Races(race) => return Ok(Arrival::Races(race)),
            Arrival::Unknown => return Ok(Arrival::Unknown),
        }
    }
    Ok(Arrival::To(at))
}

/// The state after the turn of thread n and plain ones after it, where no thread is in another's way.
pub(crate) fn advance<M: Accesses>(
    alloc: Global,
    system: &M,
    from: &Owning<RestingState<M::Shared, M::Thread>>,
    before: &[Option<NextAccess>],
    n: usize,
    access: NextAccess,
    most: u32,
) -> Result<Arrival<Owning<RestingState<M::Shared, M::Thread>>>, AllocError>
    requires owned { IsOwned (M.threads system.now) from.now }
    requires before { AreWanted (M.threads system.now) from.now.flat before.now }
    requires wants { WantsSome (M.threads system.now) from.now.flat n access }
    ensures { IfOk result
        (IsCame (M.threads system.now) (M.stuck system.now) from.now.flat (ComesOf (M.threads system.now) from.now n)) }
{
    match turn_onward(alloc, system, from, before, n, access, most)? {
        Arrival::To(at) => {
            let next = wanted(alloc, system, &at.flat)?;
            match first_race(next.as_slice(), at.owned.as_slice()) {
                Some(race) => Ok(Arrival::Races(race)),
                None => Ok(Arrival::To(at)),
            }
        }
        Arrival::Races(race) => Ok(Arrival::Races(race)),
        Arrival::Unknown => Ok(Arrival::Unknown),
    }
}
