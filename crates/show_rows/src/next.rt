//! What the thread of the entry that comes next along a log does.

ghost use Rattle.std.specs.Prelude.{◌≡◌};

use interp::{CodePlace, Thread};
use interp_trait::Turn;
use replay_walk::{Walk, Watch};
use shared_memory_sequential::OneMemory;
use types::Entry;

/// A thread, where it stands behind its last entry, and what it comes to from there by turns of its own.
#[derive(Clone, Copy)]
pub struct Stood {
    pub thread: u32,
    pub place: CodePlace,
    /// `None` where it isn't asked: it is owed an answer, or is gone.
    pub turn: Option<Turn>,
}

/// Keeps, of the entry that comes next along a log, what its thread does: behind a walk, of the first one that doesn't
/// fit.
#[derive(Drop)]
pub struct NextStood<'a> {
    log: &'a [Entry],
    /// `None` behind the last entry.
    pub stood: Option<Stood>,
}

impl<'a> NextStood<'a> {
    /// Before the log's first entry.
    pub fn new(log: &'a [Entry]) -> Self {
        NextStood { log, stood: None }
    }

    /// Where the thread of the entry of this number stands among these, if there is such an entry.
    fn stood_at(&self, entries: usize, threads: &[Thread]) -> Option<Stood> {
        let entry = self.log.get(entries)?;
        let thread = threads.get(entry.thread as usize)?;
        Some(Stood {
            thread: entry.thread,
            place: thread.place(),
            turn: None,
        })
    }
}

impl<'a, 'm> Watch<Thread<'m>> for NextStood<'a> {
    ghost sees = { λ old moment new. Unit {0} };

    fn came(&mut self, entries: usize, walk: &Walk<Thread<'m>>)
        ensures { self.new.log ≡ self.old.log }
    {
        self.stood = self.stood_at(entries, &walk.threads);
    }

    fn event(&mut self, _entry: &Entry, _thread: &Thread<'m>, _memory: &OneMemory)
        ensures { self.new ≡ self.old }
    {}

    fn settled(&mut self, _thread: u32, turn: Turn)
        ensures { self.new.log ≡ self.old.log }
    {
        if let Some(stood) = self.stood {
            self.stood = Some(Stood {
                turn: Some(turn),
                ..stood
            });
        }
    }
}
