//! The strongly connected components of a graph, by Tarjan's search. It is proved to be safe and to end.
use search_graph::{Graph, Grouped, number_or_0, put_at};
use std::alloc::{AllocError, Global};

/// The components, by numbers: each move leads to a component of no greater number.
#[derive(Drop)]
pub struct Components {
    /// The component of each state.
    pub of: Vec<u32>,
    /// The states, component by component.
    pub members: Vec<u32>,
    /// Where in `members` each component's begin.
    pub starts: Vec<usize>,
    /// How many components there are.
    pub count: u32,
}

/// No component.
const NONE: u32 = u32::MAX;

/// A state on the search's path, and which of its moves is the next.
#[derive(Clone, Copy)]
struct PathState {
    state: u32,
    at: usize,
}

#[derive(Drop)]
struct ComponentSearch {
    /// When each state was met, from 1 on, or 0.
    met: Vec<u32>,
    /// How many were.
    count: u32,
    /// The earliest one that each state is known to lead to.
    low: Vec<u32>,
    /// The states whose components are not closed.
    open: Vec<u32>,
    path: Vec<PathState>,
    found: Components,
}

impl ComponentSearch {
    fn visit(&mut self, state: u32) -> Result<(), AllocError> {
        self.count = self.count.wrapping_add(1);
        put_at(&mut self.met, state as usize, self.count);
        put_at(&mut self.low, state as usize, self.count);
        self.open.push(state)?;
        self.path.push(PathState { state, at: 0 })?;
        Ok(())
    }

    fn lower(&mut self, state: u32, low: u32) {
        if low < number_or_0(&self.low, state as usize) {
            put_at(&mut self.low, state as usize, low);
        }
    }

    fn close(&mut self, state: u32) -> Result<(), AllocError> {
        self.found.starts.push(self.found.members.len())?;
        for _ in 0..self.open.len() {
            let Some(member) = self.open.pop() else {
                break;
            };
            put_at(&mut self.found.of, member as usize, self.found.count);
            self.found.members.push(member)?;
            if member == state {
                break;
            }
        }
        self.found.count = self.found.count.wrapping_add(1);
        Ok(())
    }

    /// The state that the next move of the one at the path's end leads to, if it wasn't met yet.
    fn go_on(&mut self, graph: &Graph, from: u32, index: u32) -> Option<u32> {
        let m = graph.moves.get(index as usize)?;
        let met = number_or_0(&self.met, m.next as usize);
        if met == 0 {
            return Some(m.next);
        }
        if number_or_0(&self.found.of, m.next as usize) == NONE {
            self.lower(from, met);
        }
        None
    }

    /// Goes back from a state whose moves are all gone along.
    fn go_back(&mut self, state: u32) -> Result<(), AllocError> {
        let low = number_or_0(&self.low, state as usize);
        if low == number_or_0(&self.met, state as usize) {
            self.close(state)?;
        }
        if let Some(before) = self.path.last() {
            let before = before.state;
            self.lower(before, low);
        }
        Ok(())
    }

    /// One step, or false where the path is at its end.
    fn step(&mut self, graph: &Graph, out: &Grouped) -> Result<bool, AllocError> {
        let Some(call) = self.path.pop() else {
            return Ok(false);
        };
        let Some(index) = out.moves_of(call.state).get(call.at) else {
            self.go_back(call.state)?;
            return Ok(true);
        };
        self.path.push(PathState {
            state: call.state,
            at: call.at.saturating_add(1),
        })?;
        if let Some(next) = self.go_on(graph, call.state, *index) {
            self.visit(next)?;
        }
        Ok(true)
    }
}

/// The components of the graph, whose moves are grouped by the states that they are from.
pub fn find_components(
    alloc: Global,
    graph: &Graph,
    out: &Grouped,
) -> Result<Components, AllocError> {
    let mut search = ComponentSearch {
        met: vec![in alloc; 0u32; graph.states]?,
        count: 0,
        low: vec![in alloc; 0u32; graph.states]?,
        open: Vec::new(alloc),
        path: Vec::new(alloc),
        found: Components {
            of: vec![in alloc; NONE; graph.states]?,
            members: Vec::new(alloc),
            starts: Vec::new(alloc),
            count: 0,
        },
    };
    let most = graph
        .states
        .saturating_add(graph.states)
        .saturating_add(graph.moves.len());
    let mut root = 0u32;
    for _ in 0..graph.states {
        if number_or_0(&search.met, root as usize) == 0 {
            search.visit(root)?;
            for _ in 0..=most {
                if !search.step(graph, out)? {
                    break;
                }
            }
        }
        root = root.wrapping_add(1);
    }
    Ok(search.found)
}
