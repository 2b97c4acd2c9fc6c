//! The moments of a run, told apart by numbers: where two are equal the run is the same, and hardly ever else. Nothing
//! rests on them: what is left out by them is tried.
ghost use Rattle.std.specs.Prelude.{◌≡◌};

use interp::{Kept, Thread};
use interp_state::{Progress, word};
use interp_trait::Turn;
use replay_walk::{Walk, Watch};
use shared_memory_sequential::OneMemory;
use std::alloc::{AllocError, Global};
use std::hash::{FoldHasher, Hash, Hasher};
use types::{Entry, Event, MOST_THREADS};
use waiters::KeptQueue;

/// Before an event of a run.
#[derive(Clone, Copy)]
pub(crate) struct BeforeEvent {
    /// Who makes the event.
    pub thread: u32,
    /// The number of the memory, the queue and all threads.
    pub run: u64,
    /// The number of that thread, and of what it has changed of the memory and the queue.
    pub own: u64,
}

/// The number of two numbers.
fn mixed(one: u64, other: u64) -> u64 {
    let mut state = FoldHasher::default();
    state.write_u64(one);
    state.write_u64(other);
    state.finish()
}

/// The number of a thread.
fn of_thread(kept: &Kept) -> u64 {
    let mut state = FoldHasher::default();
    kept.function.hash(&mut state);
    kept.pc.hash(&mut state);
    kept.values.as_slice().hash(&mut state);
    for global in kept.globals.as_slice() {
        state.write_u64(word(*global));
    }
    for caller in kept.callers.as_slice() {
        caller.function.hash(&mut state);
        caller.pc.hash(&mut state);
    }
    match kept.progress {
        Progress::Fresh => state.write_u64(0),
        Progress::Halfway(number) => state.write_u64(number),
        Progress::Asked => state.write_u8(1),
    }
    state.finish()
}

/// The number of a queue.
fn of_queue(queue: &KeptQueue) -> u64 {
    let mut state = FoldHasher::default();
    queue.alive.as_slice().hash(&mut state);
    queue.args.as_slice().hash(&mut state);
    for sleeper in queue.sleepers.as_slice() {
        sleeper.thread.hash(&mut state);
        sleeper.addr.hash(&mut state);
    }
    state.finish()
}

/// Where the word of eight bytes stands that an event may change.
fn word_of(event: Event) -> Option<u64> {
    match event {
        Event::Store { addr, .. } | Event::Rmw { addr, .. } | Event::Cmpxchg { addr, .. } => {
            Some(addr - addr % 8)
        }
        _ => None,
    }
}

/// The hash of the word at an address, with that.
fn hash_of_word(memory: &OneMemory, addr: u64) -> u64 {
    let first = usize::try_from(addr).unwrap_or(usize::MAX);
    let last = first.saturating_add(8);
    match memory.bytes().get(first..last) {
        Some(bytes) => {
            let mut state = FoldHasher::default();
            state.write_u64(addr);
            bytes.hash(&mut state);
            state.finish()
        }
        None => 0,
    }
}

/// Looks at a run along its log, and notes its moments.
#[derive(Drop)]
pub(crate) struct Moments<'a> {
    alloc: Global,
    log: &'a [Entry],
    /// The sum of the numbers of what was changed in memory, and of what stands there now, less of what stood there.
    memory: u64,
    queue: u64,
    pages: u64,
    /// The number of each thread as it was behind its last entry, and the sum of these.
    threads: [u64; MOST_THREADS],
    all: u64,
    /// The number of what threads share as it was before the last entry.
    before: u64,
    /// What each thread has changed of it.
    changed: [u64; MOST_THREADS],
    pub seen: Vec<BeforeEvent>,
    /// Whether memory was refused for any of this.
    pub is_short: bool,
}

impl<'a> Moments<'a> {
    /// Before a walk along this log.
    pub fn new(alloc: Global, log: &'a [Entry]) -> Moments<'a> {
        Moments {
            alloc,
            log,
            memory: 0,
            queue: 0,
            pages: 0,
            threads: [0; MOST_THREADS],
            all: 0,
            before: 0,
            changed: [0; MOST_THREADS],
            seen: Vec::new(alloc),
            is_short: false,
        }
    }

    /// The number of what threads share.
    fn shared(&self) -> u64 {
        self.memory
            .wrapping_add(self.queue)
            .wrapping_add(self.pages)
    }

    /// Sees what threads share behind an event.
    fn see_shared<'m>(&mut self, event: Event, walk: &Walk<Thread<'m>>) -> Result<(), AllocError> {
        if let Some(addr) = word_of(event) {
            self.memory = self.memory.wrapping_add(hash_of_word(&walk.memory, addr));
        }
        match event {
            Event::Ask(_) | Event::Told(_) => {
                self.queue = of_queue(&walk.stage.queue.keep(self.alloc)?);
            }
            Event::Grow(_) => self.pages = mixed(1, u64::from(walk.memory.pages())),
            _ => {}
        }
        Ok(())
    }

    /// Sees a thread behind its entry, and what it changed by that.
    fn see_thread(&mut self, n: usize, thread: &Thread) -> Result<(), AllocError> {
        let number = mixed(n as u64, of_thread(&thread.keep(self.alloc)?));
        let by = self.shared().wrapping_sub(self.before);
        if let Some(seat) = self.threads.get_mut(n) {
            self.all = self.all.wrapping_sub(*seat).wrapping_add(number);
            *seat = number;
        }
        if let Some(changed) = self.changed.get_mut(n) {
            *changed = changed.wrapping_add(by);
        }
        Ok(())
    }

    /// Sees what the last entry made of the run.
    fn see<'m>(&mut self, entry: &Entry, walk: &Walk<Thread<'m>>) -> Result<(), AllocError> {
        self.see_shared(entry.event, walk)?;
        let n = entry.thread as usize;
        match walk.threads.get(n) {
            Some(thread) => self.see_thread(n, thread),
            None => Ok(()),
        }
    }

    /// The moment before the next event of a thread.
    fn moment(&self, thread: u32) -> BeforeEvent {
        let n = thread as usize;
        let number = self.threads.get(n).copied().unwrap_or(0);
        let changed = self.changed.get(n).copied().unwrap_or(0);
        BeforeEvent {
            thread,
            run: mixed(self.shared(), self.all),
            own: mixed(number, changed),
        }
    }

    /// Sees the run behind so many entries.
    fn look<'m>(&mut self, entries: usize, walk: &Walk<Thread<'m>>) -> Result<(), AllocError> {
        if let Some(last) = entries.checked_sub(1)
            && let Some(entry) = self.log.get(last)
        {
            self.see(entry, walk)?;
        }
        if let Some(next) = self.log.get(entries)
            && !matches!(next.event, Event::Told(_))
        {
            let moment = self.moment(next.thread);
            self.seen.push(moment)?;
        }
        self.before = self.shared();
        Ok(())
    }
}

impl<'a, 'm> Watch<Thread<'m>> for Moments<'a> {
    ghost sees = { λ before sight after. Unit {0} };

    fn came(&mut self, entries: usize, walk: &Walk<Thread<'m>>) {
        if self.look(entries, walk).is_err() {
            self.is_short = true;
        }
    }

    fn event(&mut self, entry: &Entry, _thread: &Thread<'m>, memory: &OneMemory) {
        if let Some(addr) = word_of(entry.event) {
            self.memory = self.memory.wrapping_sub(hash_of_word(memory, addr));
        }
    }

    fn settled(&mut self, _thread: u32, _turn: Turn)
        ensures { self.new ≡ self.old }
    {}
}
