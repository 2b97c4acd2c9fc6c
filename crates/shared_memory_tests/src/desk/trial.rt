//! What the calls of a desk answer, over a recorder.
ghost use Rattle.std.specs.Prelude.{◌≡◌};
ghost use Rattle.shared_memory_tests.specs.Standing.{StandsFree, StandsNew};

use crate::desk::blocked::{Told, begin_beside, sleep_beside, wake_in_turn};
use crate::desk::script::ThreadSeats;
use crate::desk::together::{Together, notify_beside};
use crate::trial::PAGE;
use locked_recorder::{Finished, LockedRecorder, Naming, Prepared};
use shared_memory::SharedMemory;
use shared_memory_script::{Dealt, deal};
use std::alloc::Global;
use std::marker::Brand;
use std::sync::Wait;
use std::test::Fail;
use std::thread::Threads;
use std::time::Clock;
use test_cases::hold;
use types::Answer;
use waiters_desk::{Desk, Full, Notified};

/// What is tried at a desk.
#[derive(Clone, Copy)]
enum Trial {
    Together,
    InTurn,
    Asleep,
    Spawned,
    Over,
}

/// What was heard there.
#[derive(Clone, Copy, PartialEq)]
enum Heard {
    Together(Option<Together>),
    InTurn(Option<(Result<Notified, Full>, [Told; 2])>),
    Asleep(Option<(Answer, Option<Answer>)>),
    Begun([Option<u32>; 2]),
}

/// Makes a trial with threads 0 to 2.
fn make<M, W, R>(
    rt: &R,
    trial: Trial,
    desk: &Desk<M, W>,
    memory: &M,
    seats: &mut ThreadSeats<M::Seat>,
) -> Heard
where
    M: SharedMemory + Sync,
    W: Wait + Drop + Sync,
    R: Threads + Clock + Sync,
    requires zero { StandsFree (M.name seats.old.zero) (M.seen seats.old.zero) }
    requires one { StandsNew (M.name seats.old.one) (M.seen seats.old.one) }
    requires two { StandsNew (M.name seats.old.two) (M.seen seats.old.two) }
{
    let ThreadSeats { zero, one, two } = seats;
    match trial {
        Trial::Together => Heard::Together(notify_beside(rt, desk, memory, zero, one)),
        Trial::InTurn => Heard::InTurn(wake_in_turn(rt, desk, memory, zero, one, two)),
        Trial::Asleep => Heard::Asleep(sleep_beside(rt, desk, memory, zero, one)),
        Trial::Spawned => Heard::Begun(begin_beside(rt, desk, memory, zero, one, two, true)),
        Trial::Over => Heard::Begun(begin_beside(rt, desk, memory, zero, one, two, false)),
    }
}

/// Makes a trial at a recorder: what was heard, and what is left of the recorder.
fn make_at_recorder<B: Naming + Send + Sync, R: Threads + Wait + Clock + Sync>(
    rt: &R,
    alloc: Global,
    prepared: Prepared,
    trial: Trial,
) -> Result<(Heard, Finished), Fail>
    requires table { prepared.table ≡ B.table }
    requires opening { prepared.opening ≡ B.opening }
    requires limit { prepared.limit ≡ B.limit }
{
    let (memory, seats) = LockedRecorder::<B, &R>::open(alloc, rt, prepared)?;
    let Some(dealt) = deal(seats) else {
        return Err(Fail::new("no seats"));
    };
    let Dealt {
        desk,
        zero,
        one,
        two,
    } = dealt;
    let desk = Desk::open(rt, &memory, desk);
    let mut seats = ThreadSeats { zero, one, two };
    let heard = make(rt, trial, &desk, &memory, &mut seats);
    let ThreadSeats { zero, one, two } = seats;
    let seats = Vec::from_array(alloc, [desk.close(), zero, one, two])?;
    Ok((heard, memory.finish(seats)))
}

/// Makes a trial over a page of zeros and a log of so many entries: what was heard, and the log.
fn try_at<R: Threads + Wait + Clock + Sync>(
    rt: &R,
    alloc: Global,
    limit: u32,
    trial: Trial,
) -> Result<(Heard, Finished), Fail> {
    let prepared = Prepared::new(alloc, &PAGE, 1, limit)?;
    make_at_recorder::<Brand, R>(rt, alloc, prepared, trial)
}

/// Makes a trial over a page of zeros and a log of at most `limit` entries, where this has to be heard, and the log has
/// to have so many entries then.
fn hears<R: Threads + Wait + Clock + Sync>(
    rt: &R,
    alloc: Global,
    limit: u32,
    trial: Trial,
    wanted: Heard,
    entries: usize,
) -> Result<(), Fail> {
    let (heard, end) = try_at(rt, alloc, limit, trial)?;
    hold(&[
        ("what was heard", heard == wanted),
        ("the log's length", end.log.len() == entries),
    ])
}

#[test]
fn a_blocked_thread_is_woken_by_another(rt: HostRuntime) -> Result<(), Fail> {
    let together = Together {
        begun: 7,
        told: Answer::Number(0),
        woke: Notified::Woke(1),
    };
    hears(
        &rt,
        rt.alloc(),
        100_000,
        Trial::Together,
        Heard::Together(Some(together)),
        2006,
    )
}

#[test]
fn blocked_threads_are_woken_in_turn(rt: HostRuntime) -> Result<(), Fail> {
    let told = [
        (Answer::Number(0), Ok(Notified::Woke(1))),
        (Answer::Number(0), Ok(Notified::Woke(0))),
    ];
    let in_turn = Heard::InTurn(Some((Ok(Notified::Woke(1)), told)));
    hears(&rt, rt.alloc(), 1000, Trial::InTurn, in_turn, 14)
}

#[test]
fn a_timeout_ends_when_another_sleeps(rt: HostRuntime) -> Result<(), Fail> {
    let told = (Answer::Number(2), Some(Answer::ForGood));
    hears(
        &rt,
        rt.alloc(),
        1000,
        Trial::Asleep,
        Heard::Asleep(Some(told)),
        8,
    )
}

#[test]
fn blocked_threads_begin_when_spawned(rt: HostRuntime) -> Result<(), Fail> {
    let begun = Heard::Begun([Some(100), Some(101)]);
    hears(&rt, rt.alloc(), 1000, Trial::Spawned, begun, 4)
}

#[test]
fn blocked_threads_go_home_when_all_is_over(rt: HostRuntime) -> Result<(), Fail> {
    hears(
        &rt,
        rt.alloc(),
        1000,
        Trial::Over,
        Heard::Begun([None, None]),
        2,
    )
}
