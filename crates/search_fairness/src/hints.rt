//! What may show whether every fair run ends.
ghost use Rattle.std.specs.Prelude.{IfOk};
ghost use Rattle.search_fairness.specs.Hints.{IsHint};

use crate::components::find_components;
use crate::parted::Parted;
use crate::walks::fair_walk;
use search_graph::{Graph, Key, group_moves};
use std::alloc::{AllocError, Global};

/// What the checks are to judge.
#[derive(Drop)]
pub enum Hint {
    /// A rank of each state, and a thread of each rank.
    Ranks { ranks: Vec<u32>, movers: Vec<u32> },
    /// A state, and the indices of moves that lead from it round and back.
    Walk { start: u32, walk: Vec<u32> },
}

/// Finds ranks, if each component has a thread that leaves it, or no moves; or a walk round one that has neither.
pub fn find_hint(alloc: Global, graph: &Graph) -> Result<Hint, AllocError>
    ensures { IfOk result (IsHint graph.now.moves.items) }
{
    let out = group_moves(alloc, graph, Key::From)?;
    let found = find_components(alloc, graph, &out)?;
    let parted = Parted { graph, out, found };
    let mut movers = Vec::new(alloc);
    for component in 0..parted.found.count {
        let Some(mover) = parted.mover_of(component) else {
            let start = parted.first_member(component);
            let walk = fair_walk(alloc, &parted, start)?;
            return Ok(Hint::Walk { start, walk });
        };
        movers.push(mover)?;
    }
    let Parted {
        graph: _,
        out: _,
        found,
    } = parted;
    Ok(Hint::Ranks {
        ranks: found.of,
        movers,
    })
}
