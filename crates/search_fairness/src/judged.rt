//! Whether every fair run ends.
ghost use Rattle.std.specs.Prelude.{IfOk, All};
ghost use Rattle.search_graph.specs.Graph.{IsWithin};
ghost use Rattle.search_graph.specs.Round.{IsFairRound};
ghost use Rattle.search_fairness.specs.Judged.{AreEachOnce, IsCycle, Says};

use crate::Hint;
use search_graph::{Graph, every_fair_run_ends, is_fair_cycle};
use std::alloc::{AllocError, Global};

/// A fair run without end: it makes the moves of a walk one after the other, again and again.
#[derive(Drop, Debug)]
pub struct Cycle {
    /// The state where it starts.
    pub start: u32,
    /// The indices of the walk's moves.
    pub walk: Vec<u32>,
    /// The threads that make them, each once, in increasing order.
    pub threads: Vec<u32>,
    /// The states that it goes through, each once, in increasing order.
    pub states: Vec<u32>,
}

/// What is known of the fair runs of a graph.
#[derive(Drop, Debug)]
pub enum Fairness {
    /// Each comes to a state without moves.
    AllEnd,
    /// This one goes on for ever.
    Cycle(Cycle),
    /// It is not known whether each ends.
    Unknown,
}

/// The numbers, each once, in increasing order.
fn each_once(mut numbers: Vec<u32>) -> Vec<u32>
    ensures { AreEachOnce result.items numbers.items }
{
    numbers.sort_unstable();
    numbers.dedup();
    numbers
}

/// The cycle from the state along the moves of these indices.
fn cycle_of(alloc: Global, graph: &Graph, start: u32, walk: Vec<u32>) -> Result<Cycle, AllocError>
    requires { IsFairRound graph.now.moves.items start walk.items }
    ensures { IfOk result (IsCycle graph.now.moves.items) }
{
    let mut threads = Vec::with_capacity(alloc, walk.len())?;
    let mut states = Vec::with_capacity(alloc, walk.len())?;
    for index in &walk {
        let m = graph.moves[*index as usize];
        threads.push(m.thread)?;
        states.push(m.from)?;
    }
    Ok(Cycle {
        start,
        walk,
        threads: each_once(threads),
        states: each_once(states),
    })
}

/// Whether every fair run ends, by a hint: where it says so, or says that one does not, that is a theorem. That it isn't
/// known is said only where the checks refuse the hint. Whoever made that is not trusted.
pub fn judge(alloc: Global, graph: &Graph, hint: Hint) -> Result<Fairness, AllocError>
    requires { All (IsWithin graph.now.states) graph.now.moves.items }
    ensures { IfOk result (Says graph.now hint) }
{
    match hint {
        Hint::Ranks { ranks, movers } => {
            let all_end = every_fair_run_ends(alloc, graph, ranks.as_slice(), movers.as_slice())?;
            if all_end {
                Ok(Fairness::AllEnd)
            } else {
                Ok(Fairness::Unknown)
            }
        }
        Hint::Walk { start, walk } => {
            let is_cycle = is_fair_cycle(alloc, graph, start, walk.as_slice())?;
            if is_cycle {
                Ok(Fairness::Cycle(cycle_of(alloc, graph, start, walk)?))
            } else {
                Ok(Fairness::Unknown)
            }
        }
    }
}
