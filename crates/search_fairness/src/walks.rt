//! A walk round a component on which each thread gets a turn. It is proved to be safe and to end.
use crate::parted::Parted;
use search_graph::{number_or_0, put_at};
use std::alloc::{AllocError, Global};

/// Goes through a component from state to state.
#[derive(Drop)]
struct Walker {
    /// The indices of the moves so far.
    walk: Vec<u32>,
    /// Where it stands.
    at: u32,
    /// The index of the move by which each state was met first, and one more, or 0.
    met_by: Vec<u32>,
    queue: Vec<u32>,
}

impl Walker {
    /// Meets the states of the component that are near, until it meets this one.
    fn look_for(&mut self, parted: &Parted, goal: u32) -> Result<(), AllocError> {
        let component = parted.component_of(goal);
        self.queue.clear();
        self.queue.push(self.at)?;
        for place in 0..parted.graph.states {
            let Some(state) = self.queue.get(place) else {
                break;
            };
            let state = *state;
            for index in parted.out.moves_of(state) {
                if let Some(m) = parted.graph.moves.get(*index as usize) {
                    let next = m.next as usize;
                    if m.next != self.at
                        && parted.component_of(m.next) == component
                        && number_or_0(&self.met_by, next) == 0
                    {
                        put_at(&mut self.met_by, next, index.wrapping_add(1));
                        self.queue.push(m.next)?;
                    }
                }
            }
            if number_or_0(&self.met_by, goal as usize) != 0 {
                break;
            }
        }
        Ok(())
    }

    /// Goes to the state, which is of the same component.
    fn go_to(&mut self, alloc: Global, parted: &Parted, goal: u32) -> Result<(), AllocError> {
        if self.at == goal {
            return Ok(());
        }
        self.look_for(parted, goal)?;
        let mut back = Vec::new(alloc);
        let mut at = goal;
        for _ in 0..parted.graph.states {
            if at == self.at {
                break;
            }
            let index = number_or_0(&self.met_by, at as usize).wrapping_sub(1);
            back.push(index)?;
            match parted.graph.moves.get(index as usize) {
                Some(m) => at = m.from,
                None => break,
            }
        }
        for index in back.iter().rev() {
            self.walk.push(*index)?;
        }
        for state in self.queue.iter() {
            put_at(&mut self.met_by, *state as usize, 0);
        }
        self.at = goal;
        Ok(())
    }

    /// Goes to where the move is from, and makes it.
    fn make(&mut self, alloc: Global, parted: &Parted, index: u32) -> Result<(), AllocError> {
        if let Some(m) = parted.graph.moves.get(index as usize) {
            self.go_to(alloc, parted, m.from)?;
            self.walk.push(index)?;
            self.at = m.next;
        }
        Ok(())
    }
}

/// The first state of the component at which the thread has no move, or else this one.
fn resting_place(parted: &Parted, component: u32, thread: u32, otherwise: u32) -> u32 {
    for state in parted.members_of(component) {
        if !parted.has_move(thread, *state) {
            return *state;
        }
    }
    otherwise
}

/// A walk from the state round its component and back to it: of each thread with a move at the state it makes one, or
/// comes through a state where the thread has none.
pub fn fair_walk(alloc: Global, parted: &Parted, start: u32) -> Result<Vec<u32>, AllocError> {
    let component = parted.component_of(start);
    let mut walker = Walker {
        walk: Vec::new(alloc),
        at: start,
        met_by: vec![in alloc; 0u32; parted.graph.states]?,
        queue: Vec::new(alloc),
    };
    let mut done = Vec::new(alloc);
    for index in parted.out.moves_of(start) {
        if let Some(m) = parted.graph.moves.get(*index as usize) {
            if !done.contains(&m.thread) {
                done.push(m.thread)?;
                match parted.inside(component, m.thread) {
                    Some(index) => walker.make(alloc, parted, index)?,
                    None => {
                        let goal = resting_place(parted, component, m.thread, start);
                        walker.go_to(alloc, parted, goal)?;
                    }
                }
            }
        }
    }
    walker.go_to(alloc, parted, start)?;
    let Walker {
        walk,
        at: _,
        met_by: _,
        queue: _,
    } = walker;
    Ok(walk)
}
