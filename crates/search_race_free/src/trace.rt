//! The turns behind the choices of a search.
ghost use Rattle.std.specs.Prelude.{◌≡◌, IfOk, IfSome};
ghost use Rattle.search_race_free.specs.Choices as specified;
ghost use Rattle.search_race_free.specs.Choices.{IsChoice};
ghost use Rattle.search_race_free.specs.Search.{IsOwned};

use crate::alone::{Arrival, PlainTurn, after_event, turn_alone, wanted};
use crate::next::first_state;
use crate::onward::{advance, is_free, next_of};
use crate::touches::{first_race, of_others, over_at, put_over};
use crate::{Accesses, Owning, ThreadRace};
use search_settled::{NextAccess, RestingState};
use std::alloc::{AllocError, Global};

/// Which of the threads that can go on thread n is.
fn choice_of(wanted: &[Option<NextAccess>], n: usize) -> usize
    ensures { result ≡ specified.choice_of wanted.now n }
{
    let mut choice: usize = 0;
    for m in 0..usize::min(n, wanted.len()) {
        if wanted[m].is_some() {
            choice += 1;
        }
    }
    choice
}

/// The thread that is this one of those that can go on, if there are so many.
fn thread_of(wanted: &[Option<NextAccess>], choice: usize) -> Option<usize>
    ensures { IsChoice wanted.now choice result }
{
    let mut left = choice;
    for m in 0..wanted.len() {
        if wanted[m].is_some() {
            if left == 0 {
                return Some(m);
            }
            left -= 1;
        }
    }
    None
}

/// Thread n makes its turn, if it can: notes its choice.
fn note_turn<M: Accesses>(
    alloc: Global,
    system: &M,
    from: &Owning<RestingState<M::Shared, M::Thread>>,
    n: usize,
    choices: &mut Vec<usize>,
) -> Result<Option<Owning<RestingState<M::Shared, M::Thread>>>, AllocError>
    requires { IsOwned (M.threads system.now) from.now }
    ensures { IfOk result (λ o. IfSome o (IsOwned (M.threads system.now))) }
{
    let before = wanted(alloc, system, &from.flat)?;
    let Some(access) = next_of(before.as_slice(), n) else {
        return Ok(None);
    };
    let Some(flat) = after_event(alloc, system, &from.flat, n, access)? else {
        return Ok(None);
    };
    choices.push(choice_of(before.as_slice(), n))?;
    let mut owned = of_others(alloc, from.owned.as_slice(), n)?;
    if let Some(_race) = put_over(&mut owned, before.as_slice(), n, access)? {
        return Ok(None);
    }
    Ok(Some(Owning { flat, owned }))
}

/// Thread m makes plain turns, alone, as `run_alone` has it: notes the choice of each, that of one that races too.
fn note_alone<M: Accesses>(
    alloc: Global,
    system: &M,
    from: Owning<RestingState<M::Shared, M::Thread>>,
    m: usize,
    most: u32,
    choices: &mut Vec<usize>,
) -> Result<Option<Owning<RestingState<M::Shared, M::Thread>>>, AllocError>
    requires { IsOwned (M.threads system.now) from }
    ensures { IfOk result (λ o. IfSome o (IsOwned (M.threads system.now))) }
{
    let wanted = wanted(alloc, system, &from.flat)?;
    let choice = choice_of(wanted.as_slice(), m);
    let mut at = from;
    for _ in 0..most {
        match turn_alone(alloc, system, at, m)? {
            PlainTurn::GoesOn(next) => {
                choices.push(choice)?;
                at = next;
            }
            PlainTurn::Stops(last) => return Ok(Some(last)),
            PlainTurn::Races(_) => {
                choices.push(choice)?;
                return Ok(None);
            }
            PlainTurn::Unknown => return Ok(None),
        }
    }
    Ok(Some(at))
}

/// Thread n makes its turn, and plain ones follow, as `turn_onward` has it: notes the choice of each.
fn note_onward<M: Accesses>(
    alloc: Global,
    system: &M,
    from: &Owning<RestingState<M::Shared, M::Thread>>,
    n: usize,
    most: u32,
    choices: &mut Vec<usize>,
) -> Result<Option<Owning<RestingState<M::Shared, M::Thread>>>, AllocError>
    requires { IsOwned (M.threads system.now) from.now }
    ensures { IfOk result (λ o. IfSome o (IsOwned (M.threads system.now))) }
{
    let before = wanted(alloc, system, &from.flat)?;
    let Some(first) = note_turn(alloc, system, from, n, choices)? else {
        return Ok(None);
    };
    let count = first.flat.threads.len();
    let mut at = first;
    for m in 0..count {
        if is_free(before.as_slice(), n, m) {
            match note_alone(alloc, system, at, m, most, choices)? {
                Some(next) => at = next,
                None => return Ok(None),
            }
        }
    }
    Ok(Some(at))
}

/// The thread that has this choice, if one has it.
fn chosen_in<M: Accesses>(
    alloc: Global,
    system: &M,
    at: &Owning<RestingState<M::Shared, M::Thread>>,
    choice: usize,
) -> Result<Option<usize>, AllocError>
    requires { IsOwned (M.threads system.now) at.now }
{
    let wanted = wanted(alloc, system, &at.flat)?;
    Ok(thread_of(wanted.as_slice(), choice))
}

/// The choices of each turn, plain ones too, along choices of `search_race_free`: which of the threads that can go on
/// makes the next one. No clause says that they lead to the same: they are a hint, to be judged by whoever follows them.
///
/// # Errors
/// Where memory is refused.
pub fn all_choices<M: Accesses>(
    alloc: Global,
    system: &M,
    most_plain: u32,
    choices: &[usize],
) -> Result<Vec<usize>, AllocError> {
    let mut all = Vec::new(alloc);
    let Arrival::To(first) = first_state(alloc, system)? else {
        return Ok(all);
    };
    let mut at = first;
    for choice in choices {
        let Some(n) = chosen_in(alloc, system, &at, *choice)? else {
            return Ok(all);
        };
        match note_onward(alloc, system, &at, n, most_plain, &mut all)? {
            Some(next) => at = next,
            None => return Ok(all),
        }
    }
    Ok(all)
}

/// The race to which thread n's turn leads, if it can make one and that does.
fn race_behind<M: Accesses>(
    alloc: Global,
    system: &M,
    from: &Owning<RestingState<M::Shared, M::Thread>>,
    n: usize,
    most: u32,
) -> Result<Option<ThreadRace>, AllocError>
    requires { IsOwned (M.threads system.now) from.now }
{
    let before = wanted(alloc, system, &from.flat)?;
    let Some(access) = next_of(before.as_slice(), n) else {
        return Ok(None);
    };
    match advance(alloc, system, from, before.as_slice(), n, access, most)? {
        Arrival::Races(race) => Ok(Some(race)),
        Arrival::To(_) => Ok(None),
        Arrival::Unknown => Ok(None),
    }
}

/// A thread whose turn leads to a race, and that race.
#[derive(Clone, Copy)]
struct RacingTurn {
    thread: usize,
    race: ThreadRace,
}

/// The first thread whose turn leads to a race.
fn racing_turn<M: Accesses>(
    alloc: Global,
    system: &M,
    from: &Owning<RestingState<M::Shared, M::Thread>>,
    most: u32,
) -> Result<Option<RacingTurn>, AllocError>
    requires { IsOwned (M.threads system.now) from.now }
{
    for thread in 0..from.flat.threads.len() {
        if let Some(race) = race_behind(alloc, system, from, thread, most)? {
            return Ok(Some(RacingTurn { thread, race }));
        }
    }
    Ok(None)
}

/// The threads of which one is in the way of the other here make their turns, that one last: notes the choice of each.
fn note_meeting<M: Accesses>(
    alloc: Global,
    system: &M,
    from: &Owning<RestingState<M::Shared, M::Thread>>,
    choices: &mut Vec<usize>,
) -> Result<(), AllocError>
    requires { IsOwned (M.threads system.now) from.now }
{
    let next = wanted(alloc, system, &from.flat)?;
    let Some(race) = first_race(next.as_slice(), from.owned.as_slice()) else {
        return Ok(());
    };
    if let Some(behind) = note_turn(alloc, system, from, race.other, choices)? {
        note_turn(alloc, system, &behind, race.one, choices)?;
    }
    Ok(())
}

/// A turn of a thread that is made before a step of a way.
#[derive(Clone, Copy)]
struct TurnBefore {
    thread: usize,
    step: usize,
}

/// The thread whose turn is made before this step.
fn thread_before(sooner: Option<TurnBefore>, step: usize) -> Option<usize> {
    let turn = sooner?;
    if turn.step == step {
        Some(turn.thread)
    } else {
        None
    }
}

/// The threads of a way make their turns from the beginning on, as `note_onward` has it, and one of them one before: notes
/// the choice of each.
fn note_way<M: Accesses>(
    alloc: Global,
    system: &M,
    most: u32,
    way: &[usize],
    sooner: Option<TurnBefore>,
    choices: &mut Vec<usize>,
) -> Result<Option<Owning<RestingState<M::Shared, M::Thread>>>, AllocError>
    ensures { IfOk result (λ o. IfSome o (IsOwned (M.threads system.now))) }
{
    let Arrival::To(first) = first_state(alloc, system)? else {
        return Ok(None);
    };
    let mut at = first;
    for step in 0..way.len() {
        if let Some(thread) = thread_before(sooner, step) {
            match note_turn(alloc, system, &at, thread, choices)? {
                Some(next) => at = next,
                None => return Ok(None),
            }
        }
        match note_onward(alloc, system, &at, way[step], most, choices)? {
            Some(next) => at = next,
            None => return Ok(None),
        }
    }
    Ok(Some(at))
}

/// Whether the turn of thread n writes over what thread `one` would write next.
fn is_over<M: Accesses>(
    alloc: Global,
    system: &M,
    at: &Owning<RestingState<M::Shared, M::Thread>>,
    n: usize,
    one: usize,
) -> Result<bool, AllocError>
    requires { IsOwned (M.threads system.now) at.now }
{
    let before = wanted(alloc, system, &at.flat)?;
    let Some(access) = next_of(before.as_slice(), n) else {
        return Ok(false);
    };
    let next = next_of(before.as_slice(), one);
    Ok(over_at(next, one, n, access).is_some())
}

/// The first step of a way that writes over what thread `one` would write, where that makes no turn from there on.
fn step_over<M: Accesses>(
    alloc: Global,
    system: &M,
    most: u32,
    way: &[usize],
    one: usize,
) -> Result<Option<usize>, AllocError> {
    let Arrival::To(first) = first_state(alloc, system)? else {
        return Ok(None);
    };
    let mut unused = Vec::new(alloc);
    let mut at = first;
    let mut found = None;
    for step in 0..way.len() {
        if way[step] == one {
            found = None;
        } else if found.is_none() && is_over(alloc, system, &at, way[step], one)? {
            found = Some(step);
        }
        match note_onward(alloc, system, &at, way[step], most, &mut unused)? {
            Some(next) => at = next,
            None => return Ok(found),
        }
    }
    Ok(found)
}

/// The choices of each turn, plain ones too, to the accesses that race, along the way that `search_race_free` gives with
/// a race. Where one of them was written over, its thread makes it before. No clause says that they lead there: they are a
/// hint, to be judged by whoever follows them.
///
/// # Errors
/// Where memory is refused.
pub fn race_choices<M: Accesses>(
    alloc: Global,
    system: &M,
    most_plain: u32,
    way: &[usize],
) -> Result<Vec<usize>, AllocError> {
    let mut all = Vec::new(alloc);
    let Some(at) = note_way(alloc, system, most_plain, way, None, &mut all)? else {
        return Ok(all);
    };
    let Some(turn) = racing_turn(alloc, system, &at, most_plain)? else {
        return Ok(all);
    };
    let mut steps = way.to_vec(alloc)?;
    steps.push(turn.thread)?;
    let thread = turn.race.one;
    let sooner = match step_over(alloc, system, most_plain, steps.as_slice(), thread)? {
        Some(step) => Some(TurnBefore { thread, step }),
        None => None,
    };
    all.clear();
    if let Some(behind) = note_way(
        alloc,
        system,
        most_plain,
        steps.as_slice(),
        sooner,
        &mut all,
    )? {
        note_meeting(alloc, system, &behind, &mut all)?;
    }
    Ok(all)
}
