//! The next states: of each thread that can go on, where plain turns lead after its turn.
ghost use Rattle.std.specs.Prelude.{◌<◌, IfOk, length};
ghost use Rattle.search_race_free.specs.Reduced.{HasReduced};
ghost use Rattle.search_race_free.specs.Search.{AreWanted, IsKnown, IsCame, IsCameFirst, HasOneMore};

use crate::alone::{Arrival, wanted};
use crate::onward::{advance, next_of};
use crate::touches::first_race;
use crate::{Accesses, Owning};
use search_reach::NextState;
use search_settled::{NextAccess, RestingState};
use std::alloc::{AllocError, Global};

/// Where all threads come to rest in the beginning, where no thread is in another's way.
pub(crate) fn first_state<M: Accesses>(
    alloc: Global,
    system: &M,
) -> Result<Arrival<Owning<RestingState<M::Shared, M::Thread>>>, AllocError>
    ensures { IfOk result (IsCameFirst (M.threads system.now) (M.stuck system.now)) }
{
    let Some(flat) = system.first(alloc)? else {
        return Ok(Arrival::Unknown);
    };
    let at = Owning {
        flat,
        owned: Vec::new(alloc),
    };
    let next = wanted(alloc, system, &at.flat)?;
    match first_race(next.as_slice(), at.owned.as_slice()) {
        Some(race) => Ok(Arrival::Races(race)),
        None => Ok(Arrival::To(at)),
    }
}

/// Puts the next state by the turn of thread n, if it can go on, behind those of the threads before it.
fn put_next<M: Accesses>(
    alloc: Global,
    system: &M,
    from: &Owning<RestingState<M::Shared, M::Thread>>,
    before: &[Option<NextAccess>],
    n: usize,
    most: u32,
    all: &mut Vec<NextState<Owning<RestingState<M::Shared, M::Thread>>>>,
) -> Result<Arrival<()>, AllocError>
    requires known { IsKnown (M.threads system.now) from.now }
    requires before { AreWanted (M.threads system.now) from.now.flat before.now }
    requires there { n < length from.now.flat.threads.items }
    ensures { IfOk result (IsCame (M.threads system.now) (M.stuck system.now) from.now.flat
        (λ _. HasOneMore (M.threads system.now) from.now n all.old.items all.new.items)) }
{
    let Some(access) = next_of(before, n) else {
        return Ok(Arrival::To(()));
    };
    match advance(alloc, system, from, before, n, access, most)? {
        Arrival::To(state) => {
            all.push(NextState {
                thread: n as u32,
                state,
            })?;
            Ok(Arrival::To(()))
        }
        Arrival::Races(race) => Ok(Arrival::Races(race)),
        Arrival::Unknown => Ok(Arrival::Unknown),
    }
}

/// The next states of a state, each with the thread whose turn leads there.
pub(crate) fn next_states<M: Accesses>(
    alloc: Global,
    system: &M,
    from: &Owning<RestingState<M::Shared, M::Thread>>,
    most: u32,
) -> Result<Arrival<Vec<NextState<Owning<RestingState<M::Shared, M::Thread>>>>>, AllocError>
    requires { IsKnown (M.threads system.now) from.now }
    ensures { IfOk result (IsCame (M.threads system.now) (M.stuck system.now) from.now.flat
        (λ v. HasReduced (M.threads system.now) from.now v.items)) }
{
    let before = wanted(alloc, system, &from.flat)?;
    let count = from.flat.threads.len();
    let mut all = Vec::new(alloc);
    for n in 0..count {
        match put_next(alloc, system, from, before.as_slice(), n, most, &mut all)? {
            Arrival::To(()) => {}
            Arrival::Races(race) => return Ok(Arrival::Races(race)),
            Arrival::Unknown => return Ok(Arrival::Unknown),
        }
    }
    Ok(Arrival::To(all))
}
