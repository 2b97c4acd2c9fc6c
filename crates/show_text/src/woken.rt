//! Which notify woke whom.

ghost use Rattle.std.specs.Prelude.{◌≡◌, ◌++◌, ℕ, IfOk, OnOk, Some, drop};
ghost use Rattle.std.specs.List.{slice_get, filter};
ghost use Rattle.std.specs.Option.{option_to_list};
ghost use Rattle.show_text.specs.Woken as specified;
ghost use Rattle.show_text.specs.Woken.{AreWakes, is_at, most_by, woken_from, woken_in};

use crate::context::Context;
use std::alloc::{AllocError, Global};
use types::{Answer, Entry, Event, Question, Reply};

/// A thread that slept and was woken: the places in the log of the notify and of the wait.
#[derive(Clone, Copy, PartialEq, Eq)]
pub struct Wake {
    pub notify: usize,
    pub wait: usize,
    pub thread: u32,
}

/// A thread that sleeps until it is woken.
#[derive(Clone, Copy)]
struct SleepingThread {
    addr: u64,
    wait: usize,
    thread: u32,
}

/// Whom the notifies of a log woke.
#[derive(Drop)]
pub struct Wakes {
    /// In the order of the notifies.
    pub all: Vec<Wake>,
    /// How many come before those of each entry, and how many there are.
    starts: Vec<usize>,
}

/// Who sleeps, in the order in which they fell asleep, and who was woken.
#[derive(Drop)]
struct Sleepers {
    sleepers: Vec<SleepingThread>,
    wakes: Vec<Wake>,
}

/// A notify: where, and how many it wakes at most.
#[derive(Clone, Copy)]
struct NotifyCall {
    addr: u64,
    most: u32,
}

/// Sleepers of whom one notify wakes the first ones at its address.
#[derive(Drop)]
struct Waking {
    notify: usize,
    addr: u64,
    /// How many it wakes yet.
    left: u32,
    kept: Vec<SleepingThread>,
}

impl Waking {
    /// Wakes a sleeper, or keeps him.
    fn pass(&mut self, sleeper: SleepingThread, wakes: &mut Vec<Wake>) -> Result<(), AllocError>
        ensures same { (self.new.notify ≡ self.old.notify) × (self.new.addr ≡ self.old.addr) }
        ensures left { OnOk result (self.new.left ≡ specified.left_behind self.old sleeper) }
        ensures kept { OnOk result (self.new.kept.items ≡ self.old.kept.items ++ specified.kept_of self.old sleeper) }
        ensures wakes { OnOk result (wakes.new.items ≡ wakes.old.items ++ specified.woken_of self.old sleeper) }
    {
        if sleeper.addr == self.addr && self.left > 0 {
            self.left -= 1;
            wakes.push(Wake {
                notify: self.notify,
                wait: sleeper.wait,
                thread: sleeper.thread,
            })?;
        } else {
            self.kept.push(sleeper)?;
        }
        Ok(())
    }
}

/// Wakes the first sleepers at an address, at most so many; and who sleeps on.
fn wake_first(
    alloc: Global,
    sleepers: &[SleepingThread],
    notify: usize,
    notified: NotifyCall,
    wakes: &mut Vec<Wake>,
) -> Result<Vec<SleepingThread>, AllocError>
    ensures wakes { OnOk result (wakes.new.items ≡ wakes.old.items
        ++ woken_from notify (Some notified) (λ addr. filter (is_at addr) sleepers.now)) }
    ensures kept { IfOk result (λ kept. (addr : ℕ) → filter (is_at addr) kept.items
        ≡ drop (most_by addr (Some notified)) (filter (is_at addr) sleepers.now)) }
{
    let mut waking = Waking {
        notify,
        addr: notified.addr,
        left: notified.most,
        kept: Vec::with_capacity(alloc, sleepers.len())?,
    };
    for k in 0..sleepers.len() {
        waking.pass(sleepers[k], wakes)?;
    }
    Ok(waking.kept)
}

impl Sleepers {
    /// Wakes the first at an address, if there is a notify.
    fn wake(
        &mut self,
        alloc: Global,
        notify: usize,
        notified: Option<NotifyCall>,
    ) -> Result<(), AllocError>
        ensures wakes { OnOk result (self.new.wakes.items ≡ self.old.wakes.items
            ++ woken_from notify notified (λ addr. filter (is_at addr) self.old.sleepers.items)) }
        ensures kept { OnOk result ((addr : ℕ) → filter (is_at addr) self.new.sleepers.items
            ≡ drop (most_by addr notified) (filter (is_at addr) self.old.sleepers.items)) }
    {
        if let Some(notified) = notified {
            self.sleepers = wake_first(alloc, &self.sleepers, notify, notified, &mut self.wakes)?;
        }
        Ok(())
    }

    /// Someone falls asleep, or nobody.
    fn lay_down(&mut self, sleeper: Option<SleepingThread>) -> Result<(), AllocError>
        ensures sleepers { OnOk result (self.new.sleepers.items ≡ self.old.sleepers.items ++ option_to_list sleeper) }
        ensures wakes { OnOk result (self.new.wakes.items ≡ self.old.wakes.items) }
    {
        if let Some(sleeper) = sleeper {
            self.sleepers.push(sleeper)?;
        }
        Ok(())
    }
}

/// Whether a wait ends by a notify, as far as the log says.
fn is_woken(context: Option<Context>) -> bool
    ensures { result ≡ specified.is_woken context }
{
    !matches!(
        context,
        Some(Context::Answered(Answer::Number(1 | 2) | Answer::ForGood))
    )
}

/// How many a notify wakes at most: as many as it is told that it woke, or as it asks for.
fn most_of(context: Option<Context>, count: u32) -> u32
    ensures { result ≡ specified.most_of context count }
{
    match context {
        Some(Context::Answered(Answer::Number(woken))) => woken,
        _ => count,
    }
}

/// What an event is for those who sleep, if it is a notify.
fn notified_by(event: Event, context: Option<Context>) -> Option<NotifyCall>
    ensures { result ≡ specified.notified_by context event }
{
    match event {
        Event::Ask(Question::Notify { addr, count }) => Some(NotifyCall {
            addr,
            most: most_of(context, count),
        }),
        _ => None,
    }
}

/// Who falls asleep by the entry at a place, until a notify wakes him.
fn sleeper_of(at: usize, made: Entry, context: Option<Context>) -> Option<SleepingThread>
    ensures { result ≡ specified.sleeper_by at context made }
{
    let Event::Ask(
        Question::Wait {
            addr,
            expected,
            timeout,
            ..
        },
    ) = made.event
    else {
        return None;
    };
    if made.reply == Reply::Value(expected) && timeout != 0 && is_woken(context) {
        Some(SleepingThread {
            addr,
            wait: at,
            thread: made.thread,
        })
    } else {
        None
    }
}

fn context_at(contexts: &[Context], at: usize) -> Option<Context>
    ensures { result ≡ slice_get contexts.now at }
{
    contexts.get(at).copied()
}

impl Wakes {
    /// Each thread that a notify of the log woke, by the answers in the log.
    ///
    /// Who times out or sleeps for good isn't woken by a notify, nor is who waits for no time; those who are woken at
    /// an address fell asleep there the earliest.
    pub fn new(alloc: Global, log: &[Entry], contexts: &[Context]) -> Result<Wakes, AllocError>
        ensures { IfOk result (AreWakes log.now contexts.now) }
    {
        let mut asleep = Sleepers {
            sleepers: Vec::new(alloc),
            wakes: Vec::new(alloc),
        };
        let mut starts = Vec::with_capacity(alloc, log.len().saturating_add(1))?;
        for at in 0..log.len() {
            starts.push(asleep.wakes.len())?;
            let context = context_at(contexts, at);
            asleep.wake(alloc, at, notified_by(log[at].event, context))?;
            asleep.lay_down(sleeper_of(at, log[at], context))?;
        }
        starts.push(asleep.wakes.len())?;
        Ok(Wakes {
            all: asleep.wakes,
            starts,
        })
    }

    /// How many come before those of the entry at a place.
    fn start(&self, at: usize) -> usize
        ensures { result ≡ specified.start_in self.now at }
    {
        match self.starts.get(at) {
            Some(start) => *start,
            None => self.all.len(),
        }
    }

    /// Whom the entry at a place woke.
    pub fn by(&self, at: usize) -> &[Wake]
        ensures { result.now ≡ woken_in self.now at }
    {
        let first = self.start(at);
        let last = self.start(at.saturating_add(1));
        let rest = self.all.get(first..).unwrap_or(&[]);
        rest.get(..last.saturating_sub(first)).unwrap_or(rest)
    }
}
