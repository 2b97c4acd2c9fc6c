//! Threads that are blocked at a desk, each in a system thread of its own, until a call of another one lets them go on.
//! Whoever comes first there is blocked last, so a call that lets only one of them look would let the wrong one.
ghost use Rattle.std.specs.Prelude.{OnSome};
ghost use Rattle.shared_memory_tests.specs.Standing.{StandsFree, StandsNew, StandsWaiting};

use crate::desk::calls::{begins, collects, notifies, sleeps, spawns};
use crate::desk::script::spawn_two;
use shared_memory::SharedMemory;
use std::sync::Wait;
use std::thread;
use std::thread::Threads;
use std::time::{Clock, Duration};
use types::Answer;
use waiters_desk::{Desk, Full, Notified};

/// What a blocked thread was told, and whom it woke then.
pub type Told = (Answer, Result<Notified, Full>);

/// So many milliseconds later the others are blocked.
const PAUSE: u64 = 50;

/// Gives the others time, so often.
fn pause<R: Clock>(rt: &R, times: u32) {
    for _ in 0..times {
        thread::sleep(rt, Duration::from_millis(PAUSE));
    }
}

/// Takes the answer behind so many pauses, and notifies one at 8.
fn collect_and_notify<M: SharedMemory, W: Wait + Drop, R: Clock>(
    rt: &R,
    desk: &Desk<M, W>,
    memory: &M,
    seat: &mut M::Seat,
    pauses: u32,
) -> Told
    requires { StandsWaiting (M.name seat.old) (M.seen seat.old) }
{
    pause(rt, pauses);
    let told = collects(desk, memory, seat);
    (told, notifies(desk, memory, seat, 8, 1))
}

/// Two threads are blocked.
fn two_collect<M, W, R>(
    rt: &R,
    desk: &Desk<M, W>,
    memory: &M,
    one: &mut M::Seat,
    two: &mut M::Seat,
) -> (Told, Told)
where
    M: SharedMemory + Sync,
    W: Wait + Drop + Sync,
    R: Threads + Clock + Sync,
    requires one { StandsWaiting (M.name one.old) (M.seen one.old) }
    requires two { StandsWaiting (M.name two.old) (M.seen two.old) }
{
    thread::join(
        rt,
        move || -> Told
            requires { StandsWaiting (M.name one.now) (M.seen one.now) }
        { collect_and_notify(rt, desk, memory, one, 1) },
        move || -> Told
            requires { StandsWaiting (M.name two.now) (M.seen two.now) }
        { collect_and_notify(rt, desk, memory, two, 0) },
    )
}

/// Two threads are spawned, begin and fall asleep at 8.
fn sleep_both<M: SharedMemory, W: Wait + Drop>(
    desk: &Desk<M, W>,
    memory: &M,
    zero: &mut M::Seat,
    one: &mut M::Seat,
    two: &mut M::Seat,
) -> Option<()>
    requires zero { StandsFree (M.name zero.old) (M.seen zero.old) }
    requires one { StandsNew (M.name one.old) (M.seen one.old) }
    requires two { StandsNew (M.name two.old) (M.seen two.old) }
    ensures zero { OnSome result (StandsFree (M.name zero.new) (M.seen zero.new)) }
    ensures one { OnSome result (StandsWaiting (M.name one.new) (M.seen one.new)) }
    ensures two { OnSome result (StandsWaiting (M.name two.new) (M.seen two.new)) }
{
    let _ = spawn_two(desk, memory, zero, one, two)?;
    if !sleeps(desk, memory, one, 4, -1) || !sleeps(desk, memory, two, 4, -1) {
        return None;
    }
    Some(())
}

/// Two threads are blocked, and one is notified. It wakes the other.
pub fn wake_in_turn<M, W, R>(
    rt: &R,
    desk: &Desk<M, W>,
    memory: &M,
    zero: &mut M::Seat,
    one: &mut M::Seat,
    two: &mut M::Seat,
) -> Option<(Result<Notified, Full>, [Told; 2])>
where
    M: SharedMemory + Sync,
    W: Wait + Drop + Sync,
    R: Threads + Clock + Sync,
    requires zero { StandsFree (M.name zero.old) (M.seen zero.old) }
    requires one { StandsNew (M.name one.old) (M.seen one.old) }
    requires two { StandsNew (M.name two.old) (M.seen two.old) }
{
    sleep_both(desk, memory, zero, one, two)?;
    let ((first, second), woke) = thread::join(
        rt,
        move || -> (Told, Told)
            requires one { StandsWaiting (M.name one.now) (M.seen one.now) }
            requires two { StandsWaiting (M.name two.now) (M.seen two.now) }
        { two_collect(rt, desk, memory, one, two) },
        move || -> Result<Notified, Full>
            requires { StandsFree (M.name zero.now) (M.seen zero.now) }
        {
            pause(rt, 2);
            notifies(desk, memory, zero, 8, 1)
        },
    );
    Some((woke, [first, second]))
}

/// Takes the answer, and ends when the other one is blocked.
fn collect_and_end<M: SharedMemory, W: Wait + Drop, R: Clock>(
    rt: &R,
    desk: &Desk<M, W>,
    memory: &M,
    seat: &mut M::Seat,
) -> Answer
    requires { StandsWaiting (M.name seat.old) (M.seen seat.old) }
{
    let told = collects(desk, memory, seat);
    pause(rt, 1);
    desk.end(memory, seat);
    told
}

/// Falls asleep when the other one is blocked, and takes the answer.
fn sleep_and_collect<M: SharedMemory, W: Wait + Drop, R: Clock>(
    rt: &R,
    desk: &Desk<M, W>,
    memory: &M,
    seat: &mut M::Seat,
) -> Option<Answer>
    requires { StandsFree (M.name seat.old) (M.seen seat.old) }
{
    pause(rt, 1);
    if !sleeps(desk, memory, seat, 4, -1) {
        return None;
    }
    Some(collects(desk, memory, seat))
}

/// Thread 1 sleeps with a timeout and is blocked. The timeout ends since thread 0 falls asleep, which is blocked in
/// turn and sleeps for good since thread 1 ends: what both were told.
pub fn sleep_beside<M, W, R>(
    rt: &R,
    desk: &Desk<M, W>,
    memory: &M,
    zero: &mut M::Seat,
    one: &mut M::Seat,
) -> Option<(Answer, Option<Answer>)>
where
    M: SharedMemory + Sync,
    W: Wait + Drop + Sync,
    R: Threads + Clock + Sync,
    requires zero { StandsFree (M.name zero.old) (M.seen zero.old) }
    requires one { StandsNew (M.name one.old) (M.seen one.old) }
{
    spawns(desk, memory, zero, 7).ok()?;
    begins(desk, memory, one)?;
    if !sleeps(desk, memory, one, 4, 5) {
        return None;
    }
    Some(thread::join(
        rt,
        move || -> Answer
            requires { StandsWaiting (M.name one.now) (M.seen one.now) }
        { collect_and_end(rt, desk, memory, one) },
        move || -> Option<Answer>
            requires { StandsFree (M.name zero.now) (M.seen zero.now) }
        { sleep_and_collect(rt, desk, memory, zero) },
    ))
}

/// Begins behind so many pauses.
fn begin_late<M: SharedMemory, W: Wait + Drop, R: Clock>(
    rt: &R,
    desk: &Desk<M, W>,
    memory: &M,
    seat: &mut M::Seat,
    pauses: u32,
) -> Option<u32>
    requires { StandsNew (M.name seat.old) (M.seen seat.old) }
{
    pause(rt, pauses);
    begins(desk, memory, seat)
}

/// Two threads are blocked until they are spawned.
fn two_begin<M, W, R>(
    rt: &R,
    desk: &Desk<M, W>,
    memory: &M,
    one: &mut M::Seat,
    two: &mut M::Seat,
) -> (Option<u32>, Option<u32>)
where
    M: SharedMemory + Sync,
    W: Wait + Drop + Sync,
    R: Threads + Clock + Sync,
    requires one { StandsNew (M.name one.old) (M.seen one.old) }
    requires two { StandsNew (M.name two.old) (M.seen two.old) }
{
    thread::join(
        rt,
        move || -> Option<u32>
            requires { StandsNew (M.name one.now) (M.seen one.now) }
        { begin_late(rt, desk, memory, one, 1) },
        move || -> Option<u32>
            requires { StandsNew (M.name two.now) (M.seen two.now) }
        { begin_late(rt, desk, memory, two, 0) },
    )
}

/// Spawns two threads, or ends.
fn spawn_or_end<M: SharedMemory, W: Wait + Drop, R: Clock>(
    rt: &R,
    desk: &Desk<M, W>,
    memory: &M,
    zero: &mut M::Seat,
    spawns_both: bool,
)
    requires { StandsFree (M.name zero.old) (M.seen zero.old) }
{
    pause(rt, 2);
    if spawns_both {
        let _ = spawns(desk, memory, zero, 100);
        let _ = spawns(desk, memory, zero, 101);
    } else {
        desk.end(memory, zero);
    }
}

/// Two threads are blocked until they are spawned, or until thread 0 has ended: with what each begins.
pub fn begin_beside<M, W, R>(
    rt: &R,
    desk: &Desk<M, W>,
    memory: &M,
    zero: &mut M::Seat,
    one: &mut M::Seat,
    two: &mut M::Seat,
    spawns_both: bool,
) -> [Option<u32>; 2]
where
    M: SharedMemory + Sync,
    W: Wait + Drop + Sync,
    R: Threads + Clock + Sync,
    requires zero { StandsFree (M.name zero.old) (M.seen zero.old) }
    requires one { StandsNew (M.name one.old) (M.seen one.old) }
    requires two { StandsNew (M.name two.old) (M.seen two.old) }
{
    let ((first, second), ()) = thread::join(
        rt,
        move || -> (Option<u32>, Option<u32>)
            requires one { StandsNew (M.name one.now) (M.seen one.now) }
            requires two { StandsNew (M.name two.now) (M.seen two.now) }
        { two_begin(rt, desk, memory, one, two) },
        move || -> ()
            requires { StandsFree (M.name zero.now) (M.seen zero.now) }
        { spawn_or_end(rt, desk, memory, zero, spawns_both) },
    );
    [first, second]
}
