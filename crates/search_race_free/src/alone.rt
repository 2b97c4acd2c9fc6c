//! A thread that makes plain turns alone.
ghost use Rattle.std.specs.Prelude.{◌≡◌, None, IfOk, IfSome};
ghost use Rattle.search_settled.specs.Next.{IsStuckAfter};
ghost use Rattle.search_race_free.specs.Reduced.{RestsSomewhere};
ghost use Rattle.search_race_free.specs.Search.{AreWanted, WantsSome, IsAfterEvent, GetsLost, IsOwned, IsAlone, IsCame, ComesAlone};

use crate::touches::{are_plain, put, struck};
use crate::{Accesses, Owning, ThreadRace, Touch};
use search_settled::{NextAccess, RestingState, threads_after};
use std::alloc::{AllocError, Global};

/// What each thread does next.
pub(crate) fn wanted<M: Accesses>(
    alloc: Global,
    system: &M,
    flat: &RestingState<M::Shared, M::Thread>,
) -> Result<Vec<Option<NextAccess>>, AllocError>
    requires { RestsSomewhere (M.threads system.now) flat.now }
    ensures { IfOk result (λ v. AreWanted (M.threads system.now) flat.now v.items) }
{
    let mut wanted = Vec::with_capacity(alloc, flat.threads.len())?;
    let mut n: usize = 0;
    while let Some(thread) = flat.threads.get(n) {
        let access = system.access(alloc, &flat.shared, thread, n)?;
        wanted.push(access)?;
        n += 1;
    }
    Ok(wanted)
}

/// Where all threads come to rest after the event that thread n wants, or nothing where that can't be told.
pub(crate) fn after_event<M: Accesses>(
    alloc: Global,
    system: &M,
    flat: &RestingState<M::Shared, M::Thread>,
    n: usize,
    access: NextAccess,
) -> Result<Option<RestingState<M::Shared, M::Thread>>, AllocError>
    requires somewhere { RestsSomewhere (M.threads system.now) flat.now }
    requires wants { WantsSome (M.threads system.now) flat.now n access }
    ensures next { IfOk result (λ o. IfSome o (IsAfterEvent (M.threads system.now) flat.now n)) }
    ensures gives_up { IfOk result (λ o. o ≡ None → GetsLost (M.threads system.now) (M.stuck system.now) flat.now) }
{
    let Some(thread) = flat.threads.get(n) else {
        return Ok(None);
    };
    let Some((shared, made)) = system.event(alloc, &flat.shared, thread, n)? else {
        return Ok(None);
    };
    let Some(threads) = threads_after(alloc, system, &shared, &made, n, flat.threads.as_slice())?
    else {
        return Ok(None);
    };
    Ok(Some(RestingState { shared, threads }))
}

/// What one turn of a thread comes to.
#[derive(Drop)]
pub(crate) enum PlainTurn<F> {
    /// Its next turn isn't plain, or it can't go on.
    Stops(Owning<F>),
    /// It made a plain one.
    GoesOn(Owning<F>),
    /// These threads race.
    Races(ThreadRace),
    /// Where it comes can't be told.
    Unknown,
}

/// Thread m makes its next turn, if that is plain.
pub(crate) fn turn_alone<M: Accesses>(
    alloc: Global,
    system: &M,
    from: Owning<RestingState<M::Shared, M::Thread>>,
    m: usize,
) -> Result<PlainTurn<RestingState<M::Shared, M::Thread>>, AllocError>
    requires { IsOwned (M.threads system.now) from }
    ensures { IfOk result (IsAlone (M.threads system.now) (M.stuck system.now) m from) }
{
    let Some(thread) = from.flat.threads.get(m) else {
        return Ok(PlainTurn::Stops(from));
    };
    let Some(access) = system.access(alloc, &from.flat.shared, thread, m)? else {
        return Ok(PlainTurn::Stops(from));
    };
    if !access.plain {
        return Ok(PlainTurn::Stops(from));
    }
    if !are_plain(from.owned.as_slice(), m) {
        return Ok(PlainTurn::Stops(from));
    }
    if let Some(one) = struck(from.owned.as_slice(), m, access) {
        return Ok(PlainTurn::Races(ThreadRace { one, other: m }));
    }
    let Some(flat) = after_event(alloc, system, &from.flat, m, access)? else {
        return Ok(PlainTurn::Unknown);
    };
    let mut owned = from.owned;
    put(&mut owned, Touch { thread: m, access })?;
    Ok(PlainTurn::GoesOn(Owning { flat, owned }))
}

/// Where threads came.
#[derive(Drop)]
pub enum Arrival<S> {
    /// There.
    To(S),
    /// These threads race.
    Races(ThreadRace),
    /// That can't be told.
    Unknown,
}

/// Thread m makes plain turns, alone, until its next one isn't plain, or it has made so many.
pub(crate) fn run_alone<M: Accesses>(
    alloc: Global,
    system: &M,
    from: Owning<RestingState<M::Shared, M::Thread>>,
    m: usize,
    most: u32,
) -> Result<Arrival<Owning<RestingState<M::Shared, M::Thread>>>, AllocError>
    requires { IsOwned (M.threads system.now) from }
    ensures { IfOk result
        (IsCame (M.threads system.now) (M.stuck system.now) from.flat (ComesAlone (M.threads system.now) m from)) }
{
    let mut at = from;
    for _ in 0..most {
        match turn_alone(alloc, system, at, m)? {
            PlainTurn::GoesOn(next) => at = next,
            PlainTurn::Stops(last) => return Ok(Arrival::To(last)),
            PlainTurn::Races(race) => return Ok(Arrival::Races(race)),
            PlainTurn::Unknown => return Ok(Arrival::Unknown),
        }
    }
    Ok(Arrival::To(at))
}
