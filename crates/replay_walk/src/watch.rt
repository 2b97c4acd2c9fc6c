//! Who looks on while a walk goes along a log.
ghost use Rattle.std.specs.Prelude.{◌≡◌, ◌<◌, length};
ghost use Rattle.std.specs.List.{slice_get};
ghost use Rattle.interp_trait.specs.Turns.{Running, WantsEvent};
ghost use Rattle.replay_walk.specs.Standing.{WantsAt};
ghost use Rattle.replay_walk.specs.Walked.{HasComeBy};
ghost use Rattle.replay_walk.specs.Seen.Sight.{Wanted};

use crate::walk::Walk;
use interp_trait::{TakesTurns, Turn};
use shared_memory_sequential::OneMemory;
use types::Entry;

/// Sees a walk behind each of its entries, and each event before it is made.
pub trait Watch<T: TakesTurns> {
    ghost use Rattle.replay_walk.specs.Seen.{Sight};
    ghost use Rattle.replay_walk.specs.Seen.Sight.{Came, Settled, Wanted};

    /// What it makes of being told something: how it is before, what it is told, and how it is then.
    ghost sees: { Self → Sight T → Self → Type 0 };

    /// The walk came along as many entries of a run's log. Threads haven't made the turns of their own behind their
    /// last entries.
    fn came(&mut self, entries: usize, walk: &Walk<T>)
        requires { HasComeBy T.meaning walk.now entries }
        ensures { sees self.old (Came entries walk.now) self.new };

    /// The thread wants the event of this entry. The memory is as it is before it.
    fn event(&mut self, entry: &Entry, thread: &T, memory: &OneMemory)
        requires { (t : Running) × WantsEvent (T.meaning thread.now) entry.now.event t }
        ensures { sees self.old (Wanted entry.now thread.now memory.now) self.new };

    /// The thread of the next entry has made its turns of its own, and comes to this, whether the entry fits or not. It
    /// isn't asked where the entry is an answer, or the thread is owed one or is gone.
    fn settled(&mut self, thread: u32, turn: Turn)
        ensures { sees self.old (Settled thread turn) self.new };
}

/// Nobody looks on.
#[derive(Clone, Copy, PartialEq, Eq, Default)]
pub struct Unwatched;

impl<T: TakesTurns> Watch<T> for Unwatched {
    ghost sees = { λ old moment new. Unit {0} };

    fn came(&mut self, _entries: usize, _walk: &Walk<T>) {}

    fn event(&mut self, _entry: &Entry, _thread: &T, _memory: &OneMemory) {}

    fn settled(&mut self, _thread: u32, _turn: Turn) {}
}

/// Shows the event that is wanted by the thread of an entry.
pub(crate) fn show_event<T: TakesTurns, W: Watch<T>>(
    watch: &mut W,
    entry: &Entry,
    threads: &[T],
    memory: &OneMemory,
)
    requires within { entry.now.thread < length threads.now }
    requires wants { WantsAt T.meaning threads.now entry.now.thread entry.now.event }
    ensures { (x : T) × (slice_get threads.now entry.now.thread ≡ Some x)
        × W.sees watch.old (Wanted entry.now x memory.now) watch.new }
{
    watch.event(entry, &threads[entry.thread as usize], memory);
}
