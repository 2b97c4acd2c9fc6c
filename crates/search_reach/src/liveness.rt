//! Whether all comes to an end: from which states no ending can be reached, and whether every fair run ends.
ghost use Rattle.std.specs.Prelude.{◌≡◌, ℕ, None, Some, IfOk, IfSome, All, length};
ghost use Rattle.std.specs.List.{slice_get};
ghost use Rattle.search_graph.specs.Graph.{IsWithin};
ghost use Rattle.search_fairness.specs.Judged.{Says, IsCycle};
ghost use Rattle.search_reach.specs.declared.follows.Wish.TheVariants as wishes;
ghost use Rattle.search_reach.specs.declared.search.Verdict.TheVariants as verdicts;
ghost use Rattle.search_reach.specs.Liveness.{IsRoundOf, SaysOfGraph, IsGraphLive, IsJudged};
ghost use Rattle.search_reach.specs.Moved.{AreWaysIn, IsPathTo, AreChoicesOf};
ghost use Rattle.search_reach.specs.Told.{Obeys, StillObeys};

use crate::path::{choices_of, path_to, ways_in};
use crate::{Follows, Verdict, Wish};
use search_fairness::{Cycle, Fairness, find_hint, judge};
use search_graph::{Graph, Move, cannot_end};
use std::alloc::{AllocError, Global};

/// A fair run that goes on for ever: it comes to a state, and from there goes round and round. The choices lead so
/// (`GoesRound`).
#[derive(Drop, Debug)]
pub struct FairCycle {
    /// The choices to the state where it begins to go round.
    pub path: Vec<usize>,
    /// The choices once round.
    pub walk: Vec<usize>,
    /// The threads whose choices these are, each once, ascending.
    pub threads: Vec<u32>,
    /// How many states it comes through while it goes round.
    pub states: usize,
}

/// What is known of fair runs: those in which each thread that can go on makes its next step then or later.
#[derive(Drop, Debug)]
pub enum FairRuns {
    /// Each ends.
    AllEnd,
    /// One goes on for ever, as this one does.
    GoOn(FairCycle),
    /// Whether each ends is not known.
    Unknown,
}

/// What is said of all states: it is said only where all were met.
#[derive(Drop, Debug)]
pub struct Liveness {
    /// The states from which no ending can be reached, by their places among those that were met, ascending.
    pub endless: Vec<usize>,
    /// The choices to the first of these, if there is one; they lead there (`LeadsToFirst`).
    pub path: Vec<usize>,
    /// Whether every fair run ends.
    pub fair_runs: FairRuns,
}

/// The run that goes round this cycle.
fn round_of(
    alloc: Global,
    moves: &[Move],
    ways: &[usize],
    cycle: Cycle,
) -> Result<FairCycle, AllocError>
    requires { AreWaysIn moves.now (length moves.now) ways.now }
    ensures threads { IfOk result (λ r. r.threads.items ≡ cycle.threads.items) }
    ensures states { IfOk result (λ r. r.states ≡ length cycle.states.items) }
    ensures path { IfOk result (λ r. IsPathTo moves.now (length ways.now) r.path.items cycle.start) }
    ensures walk { IfOk result (λ r. AreChoicesOf moves.now cycle.walk.items r.walk.items) }
{
    let path = path_to(alloc, moves, ways, cycle.start as usize)?;
    let walk = choices_of(alloc, moves, cycle.walk.as_slice())?;
    Ok(FairCycle {
        path,
        walk,
        states: cycle.states.len(),
        threads: cycle.threads,
    })
}

/// What is known of the fair runs of a graph.
fn fair_runs_of(alloc: Global, graph: &Graph, ways: &[usize]) -> Result<FairRuns, AllocError>
    requires within { All (IsWithin graph.now.states) graph.now.moves.items }
    requires ways { AreWaysIn graph.now.moves.items (length graph.now.moves.items) ways.now }
    requires len { length ways.now ≡ graph.now.states }
    ensures { IfOk result (SaysOfGraph graph.now) }
{
    let hint = find_hint(alloc, graph)?;
    match judge(alloc, graph, hint)? {
        Fairness::AllEnd => Ok(FairRuns::AllEnd),
        Fairness::Cycle(cycle) => {
            let round = round_of(alloc, graph.moves.as_slice(), ways, cycle)?;
            Ok(FairRuns::GoOn(round))
        }
        Fairness::Unknown => Ok(FairRuns::Unknown),
    }
}

/// The first of these places, or 0 where there is none.
fn first_of(places: &[usize]) -> usize
    ensures { (p : ℕ) → slice_get places.now 0 ≡ Some p → result ≡ p }
{
    match places.first() {
        Some(first) => *first,
        None => 0,
    }
}

/// What is said of the states of a graph, of which some are marked as ended, or nothing where the follower wishes the
/// end.
fn liveness_of<F: Follows>(
    alloc: Global,
    graph: &Graph,
    ended: &[bool],
    follower: &mut F,
) -> Result<Option<Liveness>, AllocError>
    requires within { All (IsWithin graph.now.states) graph.now.moves.items }
    requires marks { length ended.now ≡ graph.now.states }
    ensures live { IfOk result (λ o. IfSome o (IsGraphLive graph.now ended.now)) }
    ensures told { IfOk result (λ o. o ≡ None → F.wish follower.new ≡ wishes.End) }
    ensures heard { IfOk result (λ o. (F.wish follower.old ≡ wishes.End → ⊥) → F.wish follower.new ≡ wishes.End
        → (o ≡ None) × (graph.now.states ≡ F.told_at follower.new)) }
{
    let endless = cannot_end(alloc, graph, ended)?;
    if let Wish::End = follower.states(graph.states, 0) {
        return Ok(None);
    }
    let moves = graph.moves.as_slice();
    let ways = ways_in(alloc, graph.states, moves)?;
    let fair_runs = fair_runs_of(alloc, graph, ways.as_slice())?;
    let first = first_of(endless.as_slice());
    let path = path_to(alloc, moves, ways.as_slice(), first)?;
    Ok(Some(Liveness {
        endless,
        path,
        fair_runs,
    }))
}

/// What is said of the states where all were met, and the verdict behind it: the follower is asked before each part.
pub(crate) fn judged<F: Follows>(
    alloc: Global,
    graph: &Graph,
    ended: &[bool],
    verdict: Verdict,
    follower: &mut F,
) -> Result<(Verdict, Option<Liveness>), AllocError>
    requires within { verdict ≡ verdicts.All → All (IsWithin graph.now.states) graph.now.moves.items }
    requires marks { length ended.now ≡ graph.now.states }
    ensures judged { IfOk result
        (λ r. IsJudged graph.now ended.now verdict (F.wish follower.old) r.0 (F.wish follower.new) r.1) }
    ensures obeys { IfOk result (λ r. StillObeys
        (λ before. Obeys before (F.wish follower.old) (F.told_at follower.old) verdict graph.now.states)
        (F.wish follower.new) (F.told_at follower.new) r.0 graph.now.states) }
{
    let Verdict::All = verdict else {
        return Ok((verdict, None));
    };
    if let Wish::End = follower.states(graph.states, 0) {
        return Ok((Verdict::Told, None));
    }
    match liveness_of(alloc, graph, ended, follower)? {
        Some(liveness) => Ok((Verdict::All, Some(liveness))),
        None => Ok((Verdict::Told, None)),
    }
}
