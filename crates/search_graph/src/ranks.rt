//! Whether ranks show that every fair run ends.
ghost use Rattle.std.specs.Prelude.{◌≡◌, ◌⊎◌, ◌↔◌, ℕ, false, IsTrue, IfOk, All, length};
ghost use Rattle.std.specs.List.{Any};
ghost use Rattle.search_graph.specs.Graph.{IsWithin, IsMarked, CanMove};
ghost use Rattle.search_graph.specs.Ranks.{Falls, AreRanks, mover_at};
ghost use Rattle.search_graph.specs.Runs.{EveryFairRunEnds};

use crate::{Graph, Move};
use std::alloc::{AllocError, Global};

/// Whether no move leads to a greater rank, and those of the thread that the state's rank names to smaller ones. Marks
/// the states at which that thread has a move.
fn ranks_fall(moves: &[Move], ranks: &[u32], movers: &[u32], marks: &mut [bool]) -> bool
    requires within { All (IsWithin (length ranks.now)) moves.now }
    requires marks { length marks.old ≡ length ranks.now }
    ensures falls { IsTrue result ↔ All (Falls ranks.now movers.now) moves.now }
    ensures sound { (s : ℕ) → IsMarked marks.new s
        → IsMarked marks.old s ⊎ CanMove moves.now s (mover_at ranks.now movers.now s) }
    ensures all { IsTrue result → (s : ℕ) → CanMove moves.now s (mover_at ranks.now movers.now s)
        → IsMarked marks.new s }
{
    for m in moves {
        let from = m.from as usize;
        let rank = ranks[from];
        let next = ranks[m.next as usize];
        if next > rank || rank as usize >= movers.len() {
            return false;
        }
        if movers[rank as usize] == m.thread {
            if next == rank {
                return false;
            }
            marks[from] = true;
        }
    }
    true
}

/// Whether each state that a move is from is marked.
pub(crate) fn all_are_marked(moves: &[Move], marks: &[bool]) -> bool
    requires { All (IsWithin (length marks.now)) moves.now }
    ensures all { IsTrue result → All (λ m. IsMarked marks.now m.from) moves.now }
    ensures some { result ≡ false → Any (λ m. IsMarked marks.now m.from → ⊥) moves.now }
{
    for m in moves {
        if !marks[m.from as usize] {
            return false;
        }
    }
    true
}

/// Whether the ranks of the states, and the threads that the ranks name, show that every fair run ends: no move leads
/// to a greater rank, and at each state with moves the thread that its rank names has one, and only ones to smaller
/// ranks. Whoever made them is not trusted.
pub fn every_fair_run_ends(
    alloc: Global,
    graph: &Graph,
    ranks: &[u32],
    movers: &[u32],
) -> Result<bool, AllocError>
    requires { All (IsWithin graph.now.states) graph.now.moves.items }
    ensures exact { IfOk result
        (λ yes. IsTrue yes ↔ AreRanks graph.now.moves.items graph.now.states ranks.now movers.now) }
    ensures ends { IfOk result (λ yes. IsTrue yes → EveryFairRunEnds graph.now.moves.items) }
{
    if ranks.len() != graph.states {
        return Ok(false);
    }
    let mut room = vec![in alloc; false; graph.states]?;
    let marks = room.as_mut_slice();
    let moves = graph.moves.as_slice();
    Ok(ranks_fall(moves, ranks, movers, marks) && all_are_marked(moves, marks))
}
