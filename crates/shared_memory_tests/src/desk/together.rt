//! Two threads at one desk.
ghost use Rattle.std.specs.Prelude.{OnSome};
ghost use Rattle.shared_memory_tests.specs.Standing.{StandsFree, StandsNew, StandsWaiting};

use crate::desk::calls::{begins, collects, notifies, sleeps, spawns};
use shared_memory::SharedMemory;
use std::sync::Wait;
use std::thread;
use std::thread::Threads;
use types::Answer;
use waiters_desk::{Desk, Notified};

/// What both threads heard.
#[derive(Clone, Copy, PartialEq)]
pub struct Together {
    /// The argument with which the spawned thread began.
    pub begun: u32,
    /// What it was told where it waited.
    pub told: Answer,
    /// What the notify there got.
    pub woke: Notified,
}

/// Notifies a thousand times where nobody sleeps, and then at 8: what the last one got.
fn notify_late<M: SharedMemory, W: Wait + Drop>(
    desk: &Desk<M, W>,
    memory: &M,
    zero: &mut M::Seat,
) -> Option<Notified>
    requires { StandsFree (M.name zero.old) (M.seen zero.old) }
{
    for _ in 0..1000 {
        let _ = notifies(desk, memory, zero, 16, 1);
    }
    notifies(desk, memory, zero, 8, 1).ok()
}

/// One thread is blocked until the other notifies it.
pub fn notify_beside<M, W, R>(
    rt: &R,
    desk: &Desk<M, W>,
    memory: &M,
    zero: &mut M::Seat,
    one: &mut M::Seat,
) -> Option<Together>
where
    M: SharedMemory + Sync,
    W: Wait + Drop + Sync,
    R: Threads,
    requires zero { StandsFree (M.name zero.old) (M.seen zero.old) }
    requires one { StandsNew (M.name one.old) (M.seen one.old) }
{
    spawns(desk, memory, zero, 7).ok()?;
    let begun = begins(desk, memory, one)?;
    if !sleeps(desk, memory, one, 4, -1) {
        return None;
    }
    let (told, woke) = thread::join(
        rt,
        move || -> Answer
            requires { StandsWaiting (M.name one.now) (M.seen one.now) }
        { collects(desk, memory, one) },
        move || -> Option<Notified>
            requires { StandsFree (M.name zero.now) (M.seen zero.now) }
        { notify_late(desk, memory, zero) },
    );
    Some(Together {
        begun,
        told,
        woke: woke?,
    })
}
