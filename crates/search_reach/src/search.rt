//! The search.
ghost use Rattle.std.specs.Prelude.{◌≡◌, ◌<◌, ◌≤◌, [], None, Some, OnOk, IfOk};
ghost use Rattle.indexmap.specs.IndexSet.{index_set_len};
ghost use Rattle.search_reach.specs.Explored.{IsWhole};
ghost use Rattle.search_reach.specs.Found.{IsSearched};
ghost use Rattle.search_reach.specs.Levels.{HasGoneThrough, IsBehind, IsLeveled, levels_by};
ghost use Rattle.search_reach.specs.Meeting.{IsBegun, IsReached, IsReachedIn};
ghost use Rattle.search_reach.specs.Moved.{IsMoved};
ghost use Rattle.search_reach.specs.Sought.{SeeksAmong};
ghost use Rattle.search_reach.specs.Stack.{IsOpened};
ghost use Rattle.search_reach.specs.Told.{Obeys, OfCount};
ghost use Rattle.search_reach.specs.Ways.{AreNumbered};

use crate::plain::ValueSystem;
use crate::seeking::has_sought;
use crate::{Explores, Follows, Meets, Seeks, Wish};
use indexmap::IndexSet;
use search_graph::Move;
use std::alloc::{AllocError, Global};
use std::hash::Hash;

/// In which order a search goes on from the states that it met.
#[derive(Clone, Copy, PartialEq, Eq, Debug)]
pub enum SearchOrder {
    /// As they were met: those that come by fewer moves before the others.
    Breadth,
    /// From the one that was met last of those that it hasn't gone on from.
    Depth,
}

impl SearchOrder {
    /// How many levels are said to be complete, where so many are: none are counted depth first.
    fn levels(self, complete: u32) -> Option<u32>
        ensures { result ≡ levels_by self complete }
    {
        match self {
            SearchOrder::Breadth => Some(complete),
            SearchOrder::Depth => None,
        }
    }
}

/// How a search goes.
#[derive(Drop)]
pub struct SearchPlan<Q> {
    /// In which order.
    pub order: SearchOrder,
    /// How many states it meets at most, and a few.
    pub most: u32,
    /// Who says at which endings it ends.
    pub sought: Q,
}

/// How far a search came.
#[derive(Clone, Copy, PartialEq, Eq, Debug)]
pub enum Verdict {
    /// It met all states.
    All,
    /// It met more than it was allowed.
    TooMany,
    /// It met one whose next states cannot be told, or the first one cannot.
    CannotTell,
    /// It was told to end.
    Told,
    /// It met an ending that is looked for.
    Sought,
}

/// What a search found.
#[derive(Drop)]
pub struct Exploration<S: Eq + Hash> {
    /// The states that it met, each once, in the order of their meeting.
    pub met: IndexSet<S>,
    /// The moves from each state that it went on from, in the order of its next states. A state's number is its place
    /// among those that were met.
    pub moves: Vec<Move>,
    /// Whether these are all.
    pub verdict: Verdict,
    /// All that comes by no more moves than this was met, if anything was and it went breadth first.
    pub levels: Option<u32>,
}

/// What a search found, where the states that it met are in a table.
#[derive(Drop)]
pub struct Reached<T> {
    pub table: T,
    /// As in `Exploration`.
    pub moves: Vec<Move>,
    pub verdict: Verdict,
    pub levels: Option<u32>,
    /// The place of the state that it went on from last, or gave up at. No clause speaks of it: it is a hint.
    pub last: u32,
}

/// All that comes by no more moves than `complete` is stood for by the states below `end`.
#[derive(Clone, Copy)]
struct Levels {
    complete: u32,
    end: usize,
}

impl Levels {
    /// What is complete where so many states were gone on from, of as many as are known: one level more, where these
    /// were all of the last one.
    fn behind(self, gone: u32, known: usize) -> Levels
        requires { self.complete < gone }
        ensures { IsBehind self gone known result }
    {
        let Levels { complete, end } = self;
        if gone as usize != end || known > u32::MAX as usize {
            return self;
        }
        Levels {
            complete: complete + 1,
            end: known,
        }
    }
}

/// Goes on from each state that was met, in their order, until there are no more, it has met more than the plan's most,
/// one of which the next states cannot be told, or one that has ended as is looked for, or it is told to end. Answers beside the
/// verdict how many levels are complete, and the place where it ended.
fn explore<T: Meets, Q: Seeks<T::Ending>, F: Follows>(
    alloc: Global,
    system: &T,
    plan: &SearchPlan<Q>,
    follower: &mut F,
    table: &mut T::Table,
    moves: &mut Vec<Move>,
) -> Result<(Verdict, Option<u32>, u32), AllocError>
    requires { IsBegun (T.system system.now) (T.holds system.now table.old) (T.equal system.now)
        (Q.sought plan.now.sought) moves.old.items }
    ensures reached { IfOk result (λ r. IsReached (T.system system.now) (T.holds system.now table.new)
        (T.equal system.now) plan.now.most (F.wish follower.new) (Q.sought plan.now.sought) moves.new.items r.0 r.1) }
    ensures levels { IfOk result (λ r. r.1 ≡ None → ⊥) }
    ensures obeys { IfOk result (λ r. OfCount (T.holds system.now table.new)
        (Obeys (F.wish follower.old) (F.wish follower.new) (F.told_at follower.new) r.0)) }
{
    let SearchPlan { most, sought, .. } = plan;
    let mut at: u32 = 0;
    let end = system.count(table);
    let mut levels = Levels { complete: 0, end };
    loop {
        let met = system.count(table);
        if met <= at as usize {
            return Ok((Verdict::All, Some(levels.complete), at));
        }
        if (*most as usize) < met {
            return Ok((Verdict::TooMany, Some(levels.complete), at));
        }
        if !system.next(alloc, table, at, moves)? {
            return Ok((Verdict::CannotTell, Some(levels.complete), at));
        }
        at += 1;
        let known = system.count(table);
        levels = levels.behind(at, known);
        if has_sought(alloc, system, table, met, sought)? {
            return Ok((Verdict::Sought, Some(levels.complete), at));
        }
        if let Wish::End = follower.states(known, known.saturating_sub(at as usize)) {
            return Ok((Verdict::Told, Some(levels.complete), at));
        }
    }
}

/// Puts these places on the stack.
fn open_places(stack: &mut Vec<u32>, from: usize, end: usize) -> Result<(), AllocError>
    requires { from ≤ end }
    ensures { OnOk result (IsOpened stack.old.items from end stack.new.items) }
{
    for place in from..end {
        stack.push(place.min(u32::MAX as usize) as u32)?;
    }
    Ok(())
}

/// The same depth first: the places of those that it hasn't gone on from are on a stack. No levels are counted.
fn explore_deep<T: Meets, Q: Seeks<T::Ending>, F: Follows>(
    alloc: Global,
    system: &T,
    plan: &SearchPlan<Q>,
    follower: &mut F,
    table: &mut T::Table,
    moves: &mut Vec<Move>,
) -> Result<(Verdict, Option<u32>, u32), AllocError>
    requires { IsBegun (T.system system.now) (T.holds system.now table.old) (T.equal system.now)
        (Q.sought plan.now.sought) moves.old.items }
    ensures reached { IfOk result (λ r. IsReached (T.system system.now) (T.holds system.now table.new)
        (T.equal system.now) plan.now.most (F.wish follower.new) (Q.sought plan.now.sought) moves.new.items r.0 r.1) }
    ensures levels { IfOk result (λ r. r.1 ≡ None) }
    ensures obeys { IfOk result (λ r. OfCount (T.holds system.now table.new)
        (Obeys (F.wish follower.old) (F.wish follower.new) (F.told_at follower.new) r.0)) }
{
    let SearchPlan { most, sought, .. } = plan;
    let mut stack = Vec::new(alloc);
    let first = system.count(table);
    open_places(&mut stack, 0, first)?;
    let mut gone: u32 = 0;
    loop {
        let Some(at) = stack.pop() else {
            return Ok((Verdict::All, None, 0));
        };
        let met = system.count(table);
        if (*most as usize) < met {
            return Ok((Verdict::TooMany, None, at));
        }
        if !system.next(alloc, table, at, moves)? {
            return Ok((Verdict::CannotTell, None, at));
        }
        gone += 1;
        let known = system.count(table);
        if has_sought(alloc, system, table, met, sought)? {
            return Ok((Verdict::Sought, None, at));
        }
        if let Wish::End = follower.states(known, known.saturating_sub(gone as usize)) {
            return Ok((Verdict::Told, None, at));
        }
        open_places(&mut stack, met, known)?;
    }
}

/// Goes through the states of a system, which it keeps in a table, until there are no more, it has met more than the
/// plan's most, or one that has ended as is looked for, or it is told to end: then at once. The follower hears behind each how many
/// were met. Depth first no levels are counted; breadth first they are, unless it can't tell the first state.
///
/// # Errors
/// Where memory is refused.
pub fn reach<T: Meets, Q: Seeks<T::Ending>, F: Follows>(
    alloc: Global,
    system: &T,
    plan: &SearchPlan<Q>,
    follower: &mut F,
) -> Result<Reached<T::Table>, AllocError>
    ensures reached { IfOk result (IsReachedIn (T.system system.now) (T.equal system.now) (T.holds system.now)
        plan.now.most (F.wish follower.new) (Q.sought plan.now.sought)) }
    ensures leveled { IfOk result (λ r. IsLeveled plan.now.order r.levels (T.holds system.now r.table [])) }
    ensures obeys { IfOk result (λ r. OfCount (T.holds system.now r.table)
        (Obeys (F.wish follower.old) (F.wish follower.new) (F.told_at follower.new) r.verdict)) }
{
    let mut table = system.table(alloc);
    let mut moves = Vec::new(alloc);
    if !system.first(alloc, &mut table)? {
        return Ok(Reached {
            table,
            moves,
            verdict: Verdict::CannotTell,
            levels: None,
            last: 0,
        });
    }
    if has_sought(alloc, system, &table, 0, &plan.sought)? {
        return Ok(Reached {
            table,
            moves,
            verdict: Verdict::Sought,
            levels: plan.order.levels(0),
            last: 0,
        });
    }
    let (verdict, levels, last) = match plan.order {
        SearchOrder::Breadth => explore(alloc, system, plan, follower, &mut table, &mut moves)?,
        SearchOrder::Depth => {
            explore_deep(alloc, system, plan, follower, &mut table, &mut moves)?
        }
    };
    Ok(Reached {
        table,
        moves,
        verdict,
        levels,
        last,
    })
}

/// The same of a system whose states are values.
pub fn reach_all<T: Explores, Q: Seeks<T::Ending>, F: Follows>(
    alloc: Global,
    system: &T,
    plan: &SearchPlan<Q>,
    follower: &mut F,
) -> Result<Exploration<T::State>, AllocError>
    ensures found { IfOk result (IsSearched (T.system system.now) plan.now.most (F.wish follower.new)) }
    ensures whole { IfOk result (λ f. IsWhole (T.system system.now) T.State.eq f.met.keys f.moves.items f.verdict) }
    ensures moved { IfOk result (λ f. AreNumbered f.verdict (index_set_len f.met)
        → IsMoved (T.system system.now) T.State.eq f.met.keys f.moves.items) }
    ensures seeks { IfOk result (λ f. SeeksAmong (T.system system.now) (Q.sought plan.now.sought) f.verdict f.met.keys) }
    ensures levels { IfOk result (λ f. HasGoneThrough (T.system system.now) f.met.keys f.levels) }
    ensures leveled { IfOk result (λ f. IsLeveled plan.now.order f.levels (f.met.keys ≡ [])) }
    ensures obeys { IfOk result (λ f.
        Obeys (F.wish follower.old) (F.wish follower.new) (F.told_at follower.new) f.verdict (index_set_len f.met)) }
{
    let plain = ValueSystem { system };
    let reached = reach(alloc, &plain, plan, follower)?;
    Ok(Exploration {
        met: reached.table,
        moves: reached.moves,
        verdict: reached.verdict,
        levels: reached.levels,
    })
}
