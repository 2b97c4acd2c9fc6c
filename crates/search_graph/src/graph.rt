//! Graphs of states and moves.
ghost use Rattle.std.specs.Prelude.{◌≡◌, ◌↔◌, IsTrue, All};
ghost use Rattle.search_graph.specs.Graph.{IsWithin};

/// A move of a thread from a state to a next one.
#[derive(Clone, Copy, PartialEq, Eq, Debug)]
pub struct Move {
    pub from: u32,
    pub thread: u32,
    pub next: u32,
}

/// The moves among the states whose numbers are below `states`, in any order.
#[derive(Drop)]
pub struct Graph {
    pub states: usize,
    pub moves: Vec<Move>,
}

fn is_within(states: usize, m: Move) -> bool
    ensures { IsTrue result ↔ IsWithin states m }
{
    (m.from as usize) < states && (m.next as usize) < states
}

/// Whether each move is from a state to a state.
pub fn is_graph(graph: &Graph) -> bool
    ensures { IsTrue result ↔ All (IsWithin graph.now.states) graph.now.moves.items }
{
    graph.moves.iter().all(|m| is_within(graph.states, *m))
}
