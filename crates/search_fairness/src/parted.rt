//! A graph in its parts, and which thread leaves one of them.
ghost use Rattle.std.specs.Prelude.{◌↔◌, ◌≡◌, IsTrue, MatchOption, slice_index};
ghost use Rattle.search_fairness.specs.Leaving.{
  IsOf,
  IsInside,
  HasMove,
  HasInside,
  LeavesAt,
  Leaves,
  HasNoLeaver,
  IsStillAt,
  IsStill,
  IsMover,
  IsNeverLeft,
  begin_of_members,
  members_in,
};

use crate::components::Components;
use search_graph::{Graph, Grouped, number_or_0};

/// A graph, its moves by the states that they are from, and its components.
#[derive(Drop)]
pub struct Parted<'g> {
    pub graph: &'g Graph,
    pub out: Grouped,
    pub found: Components,
}

impl Parted<'_> {
    /// Where the component's states begin.
    fn begin(&self, component: usize) -> usize
        ensures { result ≡ begin_of_members self.now.found component }
    {
        match self.found.starts.get(component) {
            Some(start) => *start,
            None => self.found.members.len(),
        }
    }

    /// The states of the component.
    pub fn members_of(&self, component: u32) -> &[u32]
        ensures { result.now ≡ members_in self.now.found component }
    {
        let component = component as usize;
        let end = self.begin(component + 1).min(self.found.members.len());
        let start = self.begin(component).min(end);
        &self.found.members[start..end]
    }

    /// The first state of the component: a search met it before the others, so the way to it is short.
    pub fn first_member(&self, component: u32) -> u32 {
        let mut first = u32::MAX;
        for state in self.members_of(component) {
            first = first.min(*state);
        }
        first
    }

    /// The component of the state.
    pub fn component_of(&self, state: u32) -> u32
        ensures { result ≡ slice_index self.now.found.of.items state }
    {
        number_or_0(&self.found.of, state as usize)
    }

    /// Whether the move of this index is of the thread.
    fn is_of(&self, thread: u32, index: u32) -> bool
        ensures { IsTrue result ↔ IsOf self.now.graph.now.moves.items thread index }
    {
        match self.graph.moves.get(index as usize) {
            Some(m) => m.thread == thread,
            None => false,
        }
    }

    /// Whether it is, and leads to the component.
    fn is_inside(&self, component: u32, thread: u32, index: u32) -> bool
        ensures { IsTrue result
            ↔ IsInside self.now.graph.now.moves.items self.now.found.of.items component thread index }
    {
        match self.graph.moves.get(index as usize) {
            Some(m) => m.thread == thread && self.component_of(m.next) == component,
            None => false,
        }
    }

    /// Whether the thread has a move at the state.
    pub fn has_move(&self, thread: u32, state: u32) -> bool
        ensures { IsTrue result ↔ HasMove self.now.graph.now.moves.items self.now.out thread state }
    {
        let moves = self.out.moves_of(state);
        moves.iter().any(|k| self.is_of(thread, *k))
    }

    /// Whether one of these leads to the component.
    fn has_inside(&self, component: u32, thread: u32, state: u32) -> bool
        ensures { IsTrue result
            ↔ HasInside self.now.graph.now.moves.items self.now.out self.now.found.of.items component thread state }
    {
        let moves = self.out.moves_of(state);
        moves.iter().any(|k| self.is_inside(component, thread, *k))
    }

    /// The index of a move of the thread inside of the component, the last one.
    pub fn inside(&self, component: u32, thread: u32) -> Option<u32> {
        for state in self.members_of(component).iter().rev() {
            for index in self.out.moves_of(*state).iter().rev() {
                if self.is_inside(component, thread, *index) {
                    return Some(*index);
                }
            }
        }
        None
    }

    /// Whether the thread has a move at the state, and none there that leads to the component.
    fn leaves_at(&self, component: u32, thread: u32, state: u32) -> bool
        ensures { IsTrue result
            ↔ LeavesAt self.now.graph.now.moves.items self.now.out self.now.found.of.items component thread state }
    {
        self.has_move(thread, state) && !self.has_inside(component, thread, state)
    }

    /// Whether that is so at each state of the component.
    fn leaves(&self, component: u32, thread: u32) -> bool
        ensures { IsTrue result
            ↔ Leaves self.now.graph.now.moves.items self.now.out self.now.found component thread }
    {
        for state in self.members_of(component) {
            if !self.leaves_at(component, thread, *state) {
                return false;
            }
        }
        true
    }

    /// Whether no move is from the state.
    fn is_still_at(&self, state: u32) -> bool
        ensures { IsTrue result ↔ IsStillAt self.now.out state }
    {
        self.out.moves_of(state).is_empty()
    }

    /// Whether no move is from a state of the component.
    fn is_still(&self, component: u32) -> bool
        ensures { IsTrue result ↔ IsStill self.now.out self.now.found component }
    {
        let members = self.members_of(component);
        members.iter().all(|s| self.is_still_at(*s))
    }

    /// The thread of the move of this index, if it leaves the component.
    fn leaver(&self, component: u32, index: u32) -> Option<u32>
        ensures { MatchOption result
            (HasNoLeaver self.now.graph.now.moves.items self.now.out self.now.found component index)
            (Leaves self.now.graph.now.moves.items self.now.out self.now.found component) }
    {
        let m = self.graph.moves.get(index as usize)?;
        if self.leaves(component, m.thread) {
            Some(m.thread)
        } else {
            None
        }
    }

    /// A thread that has a move at each state of the component, and none inside of it; any thread where no state has
    /// moves. None where there is no such thread.
    pub fn mover_of(&self, component: u32) -> Option<u32>
        ensures { MatchOption result
            (IsNeverLeft self.now.graph.now.moves.items self.now.out self.now.found component)
            (IsMover self.now.graph.now.moves.items self.now.out self.now.found component) }
    {
        if self.is_still(component) {
            return Some(0);
        }
        let first = self.members_of(component).first()?;
        for index in self.out.moves_of(*first) {
            if let Some(thread) = self.leaver(component, *index) {
                return Some(thread);
            }
        }
        None
    }
}
