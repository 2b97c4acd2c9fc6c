//! Which spawns start which threads, and which notifies wake whom.
ghost use Rattle.std.specs.Prelude.{◌≡◌, ◌≤◌, ◌==◌, ◌++◌, IfOk, OnOk, filter, length, map, not, vec_len};
ghost use Rattle.shared_memory.specs.declared.sleeper.Sleeper.{Sleeper};
ghost use Rattle.shared_memory.specs.History.{queue_step, value_of};
ghost use Rattle.shared_memory.specs.Legal.{IsAllowed, IsQueueLegal};
ghost use Rattle.race_history.specs.Calls.{AreCalls, noted, notified, started, wakers_at};
ghost use Rattle.types.specs.declared.limits.TheConstants.{MOST_SPAWNED};

use crate::access::is_out_of_bounds;
use shared_memory::Sleeper;
use std::alloc::{AllocError, Global};
use types::{Entry, Event, MOST_THREADS, Question, Reply};
use waiters::Queue;

/// What the calls of a history order.
#[derive(Drop)]
pub(crate) struct Calls {
    /// The places at which threads are started: thread n's at n - 1.
    pub(crate) starts: Vec<usize>,
    /// Of each place at which an answer is taken, the places of the notifies that woke the thread for it.
    pub(crate) wakers: Vec<Vec<usize>>,
}

/// A thread that was woken and hasn't taken its answer yet, and the place of the notify.
#[derive(Clone, Copy)]
pub(crate) struct Woken {
    pub(crate) place: usize,
    pub(crate) thread: u32,
}

/// The value that a question loaded.
fn value_of(reply: Reply) -> u64
    ensures { result ≡ value_of reply }
{
    match reply {
        Reply::Value(value) => value,
        _ => 0,
    }
}

/// The queue moves at an entry.
pub(crate) fn enter(queue: &mut Queue, entry: &Entry)
    requires { IsAllowed queue.old entry.now.thread entry.now.event }
    ensures { queue.new ≡ queue_step queue.old entry.now.thread entry.now.event entry.now.reply }
{
    match &entry.event {
        Event::Ask(question) => {
            if !is_out_of_bounds(entry.reply) {
                queue.ask(entry.thread, question, value_of(entry.reply));
            }
        }
        Event::Told(_) => {
            queue.told(entry.thread);
        }
        _ => {}
    }
}

/// The places of the notifies that woke this thread.
fn wakers_of(alloc: Global, woken: &[Woken], thread: u32) -> Result<Vec<usize>, AllocError>
    ensures { IfOk result (λ v. v.items ≡ map (λ w. w.place) (filter (λ w. w.thread == thread) woken.now)) }
{
    woken
        .iter()
        .filter(|w| w.thread == thread)
        .map(|w| w.place)
        .collect(alloc)
}

/// The others than this thread.
fn keep_others(woken: &mut Vec<Woken>, thread: u32)
    ensures { woken.new.items ≡ filter (λ w. not (w.thread == thread)) woken.old.items }
{
    woken.retain(|w| w.thread != thread);
}

/// The sleepers at an address.
fn at_address(alloc: Global, sleepers: &[Sleeper], addr: u64) -> Result<Vec<Sleeper>, AllocError>
    ensures { IfOk result (λ v. v.items ≡ filter (λ (s : Sleeper). s.addr == addr) sleepers.now) }
{
    let mut found = Vec::new(alloc);
    for s in sleepers {
        if s.addr == addr {
            found.push(*s)?;
        }
    }
    Ok(found)
}

/// Notes whom a notify at this place wakes, of these sleepers.
fn note_woken(
    alloc: Global,
    sleepers: &[Sleeper],
    addr: u64,
    count: u32,
    place: usize,
    woken: &mut Vec<Woken>,
) -> Result<(), AllocError>
    ensures { OnOk result (woken.new.items ≡ woken.old.items ++ notified sleepers.now addr count place) }
{
    let mut first = at_address(alloc, sleepers, addr)?;
    first.truncate(count as usize);
    for s in &first {
        woken.push(Woken {
            place,
            thread: s.thread,
        })?;
    }
    Ok(())
}

/// Notes whom an entry wakes, or takes out whom it lets hear, and answers who had woken that one.
fn note(
    alloc: Global,
    queue: &Queue,
    entry: &Entry,
    place: usize,
    woken: &mut Vec<Woken>,
) -> Result<Vec<usize>, AllocError>
    ensures wakers { IfOk result (λ v. v.items ≡ wakers_at entry.now woken.old.items) }
    ensures woken { OnOk result (woken.new.items ≡ noted queue.now.sleepers place entry.now woken.old.items) }
{
    match entry.event {
        Event::Told(_) => {
            let wakers = wakers_of(alloc, woken.as_slice(), entry.thread)?;
            keep_others(woken, entry.thread);
            Ok(wakers)
        }
        Event::Ask(Question::Notify { addr, count }) => {
            if !is_out_of_bounds(entry.reply) {
                let kept = queue.keep(alloc)?;
                note_woken(alloc, kept.sleepers.as_slice(), addr, count, place, woken)?;
            }
            Ok(Vec::new(alloc))
        }
        _ => Ok(Vec::new(alloc)),
    }
}

/// Notes that an entry started a thread, where the queue after it has one more than was noted.
fn note_start(queue: &Queue, place: usize, starts: &mut Vec<usize>) -> Result<(), AllocError>
    requires { vec_len starts.old ≤ MOST_SPAWNED }
    ensures { OnOk result (starts.new.items ≡ started queue.now place starts.old.items) }
{
    if queue.arg_of(starts.len() as u32 + 1).is_some() {
        starts.push(place)?;
    }
    Ok(())
}

/// What the calls of the history order.
pub(crate) fn find_calls(alloc: Global, log: &[Entry]) -> Result<Calls, AllocError>
    requires { IsQueueLegal log.now }
    ensures { IfOk result (λ calls. AreCalls log.now (length log.now) calls) }
{
    let mut queue = Queue::new(MOST_THREADS as u32);
    let mut woken = Vec::new(alloc);
    let mut calls = Calls {
        starts: Vec::new(alloc),
        wakers: Vec::with_capacity(alloc, log.len())?,
    };
    for (place, entry) in log.iter().enumerate() {
        calls
            .wakers
            .push(note(alloc, &queue, entry, place, &mut woken)?)?;
        enter(&mut queue, entry);
        note_start(&queue, place, &mut calls.starts)?;
    }
    Ok(calls)
}
