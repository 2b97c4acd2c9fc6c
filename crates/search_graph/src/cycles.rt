//! Whether a walk that is made again and again is a fair run without end.
ghost use Rattle.std.specs.Prelude.{
  ◌≡◌,
  ◌<◌,
  ◌⊎◌,
  ◌↔◌,
  ℕ,
  None,
  IsTrue,
  IfOk,
  IfSome,
  All,
  length,
};
ghost use Rattle.search_graph.specs.Graph.{IsWithin, IsMarked, CanMove};
ghost use Rattle.search_graph.specs.Round.{moves_at, IsRound, GetsTurnIn, IsFairRound};
ghost use Rattle.search_graph.specs.Runs.{HasFairCycle};

use crate::ranks::all_are_marked;
use crate::{Graph, Move};
use std::alloc::{AllocError, Global};

/// The moves of these indices, or nothing where there is none of some index.
fn walk_of(alloc: Global, moves: &[Move], indices: &[u32]) -> Result<Option<Vec<Move>>, AllocError>
    ensures is { IfOk result (λ o. IfSome o (λ v. v.items ≡ moves_at moves.now indices.now)) }
    ensures within { IfOk result (λ o. IfSome o (λ _. All (λ k. k < length moves.now) indices.now)) }
    ensures outside { IfOk result (λ o. o ≡ None → All (λ k. k < length moves.now) indices.now → ⊥) }
{
    let mut walk = Vec::with_capacity(alloc, indices.len())?;
    for index in indices {
        let Some(m) = moves.get(*index as usize) else {
            return Ok(None);
        };
        walk.push(*m)?;
    }
    Ok(Some(walk))
}

/// Whether the moves lead on from one another, from the state back to it.
fn is_round(start: u32, walk: &[Move]) -> bool
    ensures { IsTrue result ↔ IsRound start walk.now }
{
    let mut at = start;
    for m in walk {
        if m.from != at {
            return false;
        }
        at = m.next;
    }
    at == start && !walk.is_empty()
}

/// Marks the states at which the thread has a move.
fn mark_thread(moves: &[Move], thread: u32, marks: &mut [bool])
    requires { All (IsWithin (length marks.old)) moves.now }
    ensures sound { (s : ℕ) → IsMarked marks.new s → IsMarked marks.old s ⊎ CanMove moves.now s thread }
    ensures all { (s : ℕ) → CanMove moves.now s thread → IsMarked marks.new s }
{
    for m in moves {
        if m.thread == thread {
            marks[m.from as usize] = true;
        }
    }
}

/// Whether the thread makes a move of the walk, or has none at some state of it.
fn gets_turn(
    alloc: Global,
    states: usize,
    moves: &[Move],
    walk: &[Move],
    thread: u32,
) -> Result<bool, AllocError>
    requires within { All (IsWithin states) moves.now }
    requires walk { All (IsWithin states) walk.now }
    ensures { IfOk result (λ yes. IsTrue yes ↔ GetsTurnIn moves.now walk.now thread) }
{
    if walk.iter().any(|m| m.thread == thread) {
        return Ok(true);
    }
    let mut room = vec![in alloc; false; states]?;
    let marks = room.as_mut_slice();
    mark_thread(moves, thread, marks);
    Ok(!all_are_marked(walk, marks))
}

/// Whether each thread with a move at the state gets a turn in the walk.
fn all_get_turns(
    alloc: Global,
    graph: &Graph,
    start: u32,
    walk: &[Move],
) -> Result<bool, AllocError>
    requires within { All (IsWithin graph.now.states) graph.now.moves.items }
    requires walk { All (IsWithin graph.now.states) walk.now }
    ensures { IfOk result (λ yes. IsTrue yes
        ↔ ((t : ℕ) → CanMove graph.now.moves.items start t → GetsTurnIn graph.now.moves.items walk.now t)) }
{
    let moves = graph.moves.as_slice();
    for m in moves {
        if m.from == start && !gets_turn(alloc, graph.states, moves, walk, m.thread)? {
            return Ok(false);
        }
    }
    Ok(true)
}

/// Whether the moves of these indices lead from the state round and back to it, so that each thread gets a turn on the
/// way: then the run that makes them again and again is fair and never ends. Whoever made the walk is not trusted.
pub fn is_fair_cycle(
    alloc: Global,
    graph: &Graph,
    start: u32,
    walk: &[u32],
) -> Result<bool, AllocError>
    requires { All (IsWithin graph.now.states) graph.now.moves.items }
    ensures exact { IfOk result (λ yes. IsTrue yes ↔ IsFairRound graph.now.moves.items start walk.now) }
    ensures cycle { IfOk result
        (λ yes. IsTrue yes → HasFairCycle graph.now.moves.items start (moves_at graph.now.moves.items walk.now)) }
{
    let Some(made) = walk_of(alloc, graph.moves.as_slice(), walk)? else {
        return Ok(false);
    };
    let made = made.as_slice();
    if !is_round(start, made) {
        return Ok(false);
    }
    all_get_turns(alloc, graph, start, made)
}
