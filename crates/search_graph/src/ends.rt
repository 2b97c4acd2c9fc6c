//! From which states one that has ended can be reached.
ghost use Rattle.std.specs.Prelude.{
  ◌≡◌,
  ◌+◌,
  ◌<◌,
  ◌≤◌,
  ◌⊎◌,
  ◌↔◌,
  ℕ,
  false,
  IsTrue,
  IfOk,
  OnOk,
  All,
  Contains,
  length,
};
ghost use Rattle.std.specs.List.Sorted.{IsStrictlyIncreasing};
ghost use Rattle.search_graph.specs.Graph.{IsWithin, IsMarked, CanEnd, CannotEnd};
ghost use Rattle.search_graph.specs.Marking.{unmarked_in, MarkCanEnd, IsClosed, AreUnmarked};

use crate::grouped::order_back;
use crate::{Graph, Move};
use std::alloc::{AllocError, Global};

/// Marks the state that the move is from, where it leads to a marked one, and says whether that mark is new.
fn mark_back(m: Move, marks: &mut [bool]) -> bool
    requires { IsWithin (length marks.old) m }
    ensures kept { (s : ℕ) → IsMarked marks.old s → IsMarked marks.new s }
    ensures marked { (s : ℕ) → IsMarked marks.new s
        → IsMarked marks.old s ⊎ ((s ≡ m.from) × IsMarked marks.old m.next) }
    ensures closed { IsMarked marks.new m.next → IsMarked marks.new m.from }
    ensures fewer { IsTrue result → unmarked_in marks.new + 1 ≡ unmarked_in marks.old }
    ensures most { unmarked_in marks.new ≤ unmarked_in marks.old }
    ensures same { result ≡ false → marks.new ≡ marks.old }
{
    let from = m.from as usize;
    if marks[from] || !marks[m.next as usize] {
        return false;
    }
    marks[from] = true;
    true
}

/// Marks back along each of these moves, the last one first, and says whether a mark is new.
fn mark_all_back(moves: &[Move], ended: &[bool], marks: &mut [bool]) -> bool
    requires within { All (IsWithin (length marks.old)) moves.now }
    requires ends { MarkCanEnd moves.now ended.now marks.old }
    ensures ends { MarkCanEnd moves.now ended.now marks.new }
    ensures fewer { IsTrue result → unmarked_in marks.new < unmarked_in marks.old }
    ensures closed { result ≡ false → IsClosed moves.now marks.new }
{
    let mut any = false;
    let mut k = moves.len();
    while k > 0 {
        k -= 1;
        if mark_back(moves[k], marks) {
            any = true;
        }
    }
    any
}

/// Marks back along the moves of these indices, in this order. Whoever made the order is not trusted.
fn mark_in_order(moves: &[Move], order: &[u32], ended: &[bool], marks: &mut [bool])
    requires within { All (IsWithin (length marks.old)) moves.now }
    requires ends { MarkCanEnd moves.now ended.now marks.old }
    ensures ends { MarkCanEnd moves.now ended.now marks.new }
    ensures fewer { unmarked_in marks.new ≤ unmarked_in marks.old }
{
    for k in order {
        let k = *k as usize;
        if k < moves.len() {
            let _is_new = mark_back(moves[k], marks);
        }
    }
}

/// After so many times an order of the moves is looked for.
const MANY: u32 = 8;

/// Marks the states from which one that has ended can be reached, where those that have ended are marked: goes through
/// the moves until no mark is new.
fn mark_ends(
    alloc: Global,
    graph: &Graph,
    ended: &[bool],
    marks: &mut [bool],
) -> Result<(), AllocError>
    requires within { All (IsWithin (length marks.old)) graph.now.moves.items }
    requires ended { marks.old ≡ ended.now }
    ensures { OnOk result ((s : ℕ) → IsMarked marks.new s ↔ CanEnd graph.now.moves.items ended.now s) }
{
    let moves = graph.moves.as_slice();
    let mut times = 0u32;
    'again: loop {
        if !mark_all_back(moves, ended, marks) {
            break;
        }
        times = times.wrapping_add(1);
        if times == MANY {
            let order = order_back(alloc, graph, ended)?;
            mark_in_order(moves, order.as_slice(), ended, marks);
        }
    }
    Ok(())
}

/// The states that are not marked.
fn unmarked(alloc: Global, marks: &[bool]) -> Result<Vec<usize>, AllocError>
    ensures found { IfOk result (λ v. AreUnmarked marks.now (length marks.now) v.items) }
    ensures order { IfOk result (λ v. IsStrictlyIncreasing v.items) }
{
    let mut found = Vec::new(alloc);
    for (s, marked) in marks.iter().enumerate() {
        if !*marked {
            found.push(s)?;
        }
    }
    Ok(found)
}

/// The states from which no path of moves leads to one that has ended, in increasing order. `ended` marks those that
/// have: a state without moves that is not among them is one from which none can be reached.
pub fn cannot_end(alloc: Global, graph: &Graph, ended: &[bool]) -> Result<Vec<usize>, AllocError>
    requires within { All (IsWithin graph.now.states) graph.now.moves.items }
    requires marks { length ended.now ≡ graph.now.states }
    ensures exact { IfOk result
        (λ v. (s : ℕ) → Contains v.items s ↔ CannotEnd graph.now.moves.items ended.now graph.now.states s) }
    ensures others { IfOk result
        (λ v. (s : ℕ) → s < graph.now.states → Contains v.items s ⊎ CanEnd graph.now.moves.items ended.now s) }
    ensures order { IfOk result (λ v. IsStrictlyIncreasing v.items) }
{
    let mut room = ended.to_vec(alloc)?;
    let marks = room.as_mut_slice();
    mark_ends(alloc, graph, ended, marks)?;
    unmarked(alloc, marks)
}
