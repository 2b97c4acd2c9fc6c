//! Where the threads of a replay trapped.

ghost use Rattle.std.specs.Prelude.{◌≡◌};

use crate::frames::Frames;
use interp::Thread;
use interp_trait::{TakesTurns, Turn};
use replay_walk::{Walk, Watch};
use shared_memory_sequential::OneMemory;
use types::Entry;

/// Sees a replay to the end of its log, and has kept then where its threads trapped.
#[derive(Clone, Copy)]
pub struct Replayed<'a> {
    pub frames: &'a Frames,
    /// How many entries the log has.
    pub entries: usize,
}

impl<'m> Watch<Thread<'m>> for Replayed<'_> {
    ghost sees = { λ old moment new. Unit {0} };

    fn came(&mut self, entries: usize, walk: &Walk<Thread<'m>>)
        ensures { self.new ≡ self.old }
    {
        if entries != self.entries {
            return;
        }
        let mut name = 0u32;
        for thread in &walk.threads {
            thread.tell_trap(name, &self.frames);
            name = name.saturating_add(1);
        }
    }

    fn event(&mut self, _entry: &Entry, _thread: &Thread<'m>, _memory: &OneMemory)
        ensures { self.new ≡ self.old }
    {}

    fn settled(&mut self, _thread: u32, _turn: Turn)
        ensures { self.new ≡ self.old }
    {}
}
