//! Whether plain data show that it is enough if only some threads go on.
ghost use Rattle.std.specs.Prelude.{◌≡◌, ◌<◌, ◌↔◌, ℕ, IsTrue, All, length};
ghost use Rattle.search_graph.specs.Graph.{IsMarked};
ghost use Rattle.search_ample.specs.Ample.{IsAmple};
ghost use Rattle.search_ample.specs.Certificate.{
  standing_at,
  part_at,
  can_of,
  wants_of,
  may_of,
  explored_of,
  KeepsFootprints,
  ArePartsApart,
  IsApartAt,
  IsOwnMove,
  IsNearing,
  IsShownAt,
  AreShownAt,
  IsShown,
};

use crate::certificate::{Certificate, Standing};
use crate::rows::{are_all_disjoint, are_all_marked, includes, is_marked, marks_at, numbers_at};
use search_graph::Move;

/// What stands where there is no thread.
const NONE: Standing = Standing {
    part: 0,
    goes: false,
    by: 0,
    rank: 0,
};

/// Whether the move of this index is the thread's, from the state.
fn is_own_move(moves: &[Move], state: usize, thread: usize, index: u32) -> bool
    ensures { IsTrue result ↔ IsOwnMove moves.now state thread index }
{
    match moves.get(index as usize) {
        Some(m) => m.from as usize == state && m.thread as usize == thread,
        None => false,
    }
}

impl Certificate {
    fn standing(&self, state: usize, thread: usize) -> Standing
        ensures { result ≡ standing_at self.now state thread }
    {
        match self.states.get(state) {
            Some(row) => match row.as_slice().get(thread) {
                Some(standing) => *standing,
                None => NONE,
            },
            None => NONE,
        }
    }

    /// Whether a thread that is this part can go on.
    fn can(&self, part: u32) -> bool
        ensures { result ≡ can_of self.now part }
    {
        is_marked(&self.parts.can, part as usize)
    }

    /// Its footprint.
    fn may(&self, part: u32) -> &[bool]
        ensures { result.now ≡ may_of self.now part }
    {
        marks_at(&self.parts.may, part as usize)
    }

    /// Whether each part's footprint has what it wants.
    fn holds_wants(&self) -> bool
        ensures { IsTrue result ↔ ((part : ℕ) → part < length self.now.parts.wants.items
            → All (IsMarked (may_of self.now part)) (wants_of self.now part)) }
    {
        for part in 0..self.parts.wants.len() {
            let wants = numbers_at(&self.parts.wants, part);
            if !are_all_marked(wants, marks_at(&self.parts.may, part)) {
                return false;
            }
        }
        true
    }

    /// Whether along the move each thread's footprint has what it has behind it.
    fn keeps_footprints(&self, m: Move) -> bool
        ensures { IsTrue result ↔ KeepsFootprints self.now m }
    {
        for thread in 0..self.threads {
            let before = self.standing(m.from as usize, thread).part;
            let after = self.standing(m.next as usize, thread).part;
            if before != after && !includes(self.may(before), self.may(after)) {
                return false;
            }
        }
        true
    }

    /// Whether what the one part wants or heeds conflicts with nothing in the other's footprint.
    fn are_parts_apart(&self, one: u32, other: u32) -> bool
        ensures { IsTrue result ↔ ArePartsApart self.now one other }
    {
        let may = self.may(other);
        let wants = numbers_at(&self.parts.wants, one as usize);
        let heeds = numbers_at(&self.parts.heeds, one as usize);
        are_all_disjoint(&self.conflicts, wants, may)
            && are_all_disjoint(&self.conflicts, heeds, may)
    }

    /// Whether it is so of the thread and each that doesn't go on at the state.
    fn is_apart_at(&self, state: usize, thread: usize) -> bool
        ensures { IsTrue result ↔ IsApartAt self.now state thread }
    {
        let part = self.standing(state, thread).part;
        for other in 0..self.threads {
            let beside = self.standing(state, other);
            if !beside.goes && !self.are_parts_apart(part, beside.part) {
                return false;
            }
        }
        true
    }

    /// Whether the move of this index is from the state, of a thread that goes on there, and leads to a smaller rank of
    /// this thread.
    fn is_nearing(&self, moves: &[Move], state: usize, thread: usize, index: u32) -> bool
        ensures { IsTrue result ↔ IsNearing self.now moves.now state thread index }
    {
        match moves.get(index as usize) {
            Some(m) => {
                m.from as usize == state
                    && (m.thread as usize) < self.threads
                    && self.standing(state, m.thread as usize).goes
                    && self.standing(m.next as usize, thread).rank
                        < self.standing(state, thread).rank
            }
            None => false,
        }
    }

    /// Whether it is shown of a thread at a state.
    fn is_shown_at(&self, moves: &[Move], state: usize, thread: usize) -> bool
        ensures { IsTrue result ↔ IsShownAt self.now moves.now state thread }
    {
        let standing = self.standing(state, thread);
        let can = self.can(standing.part);
        if standing.goes {
            (!can || is_own_move(moves, state, thread, standing.by))
                && self.is_apart_at(state, thread)
        } else {
            !can || self.is_nearing(moves, state, thread, standing.by)
        }
    }

    /// Whether it is shown of each thread at a state.
    fn are_shown_at(&self, moves: &[Move], state: usize) -> bool
        ensures { IsTrue result ↔ AreShownAt self.now moves.now state }
    {
        for thread in 0..self.threads {
            if !self.is_shown_at(moves, state, thread) {
                return false;
            }
        }
        true
    }

    /// Whether each move keeps footprints.
    fn keeps_all_footprints(&self, moves: &[Move]) -> bool
        ensures { IsTrue result ↔ All (KeepsFootprints self.now) moves.now }
    {
        moves.iter().all(|m| self.keeps_footprints(*m))
    }

    /// Whether it is shown of each state.
    fn are_all_shown(&self, moves: &[Move]) -> bool
        ensures { IsTrue result ↔ ((i : ℕ) → i < length self.now.states.items → AreShownAt self.now moves.now i) }
    {
        for state in 0..self.states.len() {
            if !self.are_shown_at(moves, state) {
                return false;
            }
        }
        true
    }

    /// Whether it is shown of each part, each move and each state.
    fn is_shown(&self, moves: &[Move]) -> bool
        ensures { IsTrue result ↔ IsShown self.now moves.now }
    {
        self.holds_wants() && self.keeps_all_footprints(moves) && self.are_all_shown(moves)
    }

    /// Whether the data show that it is enough if the threads go on that are meant to. Whoever made them is not
    /// trusted.
    pub fn is_ample(&self, moves: &[Move]) -> bool
        ensures exact { IsTrue result ↔ IsShown self.now moves.now }
        ensures ample { IsTrue result → IsAmple (explored_of self.now moves.now) }
    {
        self.is_shown(moves)
    }
}
