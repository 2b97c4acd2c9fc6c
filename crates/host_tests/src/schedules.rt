//! Runs on schedules that gates force: each leaves what the module says, whoever comes first. The expected ends are
//! counted by hand, from the modules' texts.

use crate::holding::{Hold, Holding, Sign};
use crate::runs::{BOTH, END, Ended, FUEL, Memory, Trouble, has_ends, run};
use std::alloc::Global;
use std::process::Abort;
use std::sync::Wait;
use std::test::Fail;
use std::thread::Threads;
use test_modules::{COUNTING, SLEEPERS, SPAWNING_ALL, TABLE, TELLING, TREE};
use types::{Outcome, Stop, Trap, Value};

/// A module, what its threads wait for, and how they end over each of these memories.
#[derive(Clone, Copy)]
struct Scheduled {
    name: &'static str,
    module: &'static [u8],
    args: &'static [Value],
    memories: &'static [Memory],
    holds: &'static [Hold],
    ends: &'static [Ended],
    /// The first bytes of the memory at the end.
    bytes: &'static [u8],
}

/// Over both memories, without a hold.
const FREE: Scheduled = Scheduled {
    name: "",
    module: b"",
    args: &[],
    memories: &BOTH,
    holds: &[],
    ends: &[],
    bytes: b"",
};

/// Whether a run ends as it should, where each held thread goes on behind its sign.
fn is_right<R: Threads + Wait + Sync>(
    rt: &R,
    alloc: Global,
    row: &Scheduled,
    memory: Memory,
) -> Result<bool, Trouble> {
    let gate = Holding::new(alloc, row.holds)?;
    let end = run(rt, alloc, row.module, row.args, FUEL, memory, &gate)?;
    Ok(gate.was_kept() && has_ends(&end, row.ends) && end.bytes.starts_with(row.bytes))
}

/// Makes each of the runs, over each of its memories.
fn check_all<R: Threads + Wait + Abort + Sync>(
    rt: &R,
    alloc: Global,
    rows: &[Scheduled],
) -> Result<(), Trouble> {
    for row in rows {
        for memory in row.memories {
            let name = row.name;
            assert!(rt; is_right(rt, alloc, row, *memory)?, "{name}: {memory:?}");
        }
    }
    Ok(())
}

/// Thread 0 of the tree, and the others.
#[rattlefmt::skip]
const GROWN: [Ended; 16] = [
    (Outcome::Done(Some(Value::I32(7))), None),
    END, END, END, END, END, END, END, END, END, END, END, END, END, END, END,
];

/// Thread 0 goes on only when the fifteenth thread comes, which another one spawned.
#[rattlefmt::skip]
const LAST_OF_TREE: [Hold; 1] = [
    Hold { thread: 0, from: 7, sign: Sign { thread: 15, spent: 0, turns: 1 } },
];

/// The spawned thread has stored before the other goes on.
#[rattlefmt::skip]
const STORED_FIRST: [Hold; 1] = [
    Hold { thread: 0, from: 3, sign: Sign { thread: 1, spent: 3, turns: 1 } },
];

/// The other goes on before the spawned thread begins.
#[rattlefmt::skip]
const STORED_LAST: [Hold; 1] = [
    Hold { thread: 1, from: 0, sign: Sign { thread: 0, spent: 3, turns: 1 } },
];

/// A thread that spawned through a table, and the other.
#[rattlefmt::skip]
const SPAWNED_THROUGH_TABLE: [Ended; 2] = [
    (Outcome::Done(Some(Value::I32(1))), Some(4)),
    (Outcome::Done(None), Some(4)),
];

static SPAWNS: [Scheduled; 3] = [
    Scheduled {
        name: "a tree behind a gate",
        module: TREE,
        holds: &LAST_OF_TREE,
        ends: &GROWN,
        bytes: b"\xfe\xff\x00\x00",
        ..FREE
    },
    Scheduled {
        name: "through a table, stored first",
        module: TABLE,
        holds: &STORED_FIRST,
        ends: &SPAWNED_THROUGH_TABLE,
        bytes: b"\x05\x00\x00\x00",
        ..FREE
    },
    Scheduled {
        name: "through a table, stored last",
        module: TABLE,
        holds: &STORED_LAST,
        ends: &SPAWNED_THROUGH_TABLE,
        bytes: b"\x05\x00\x00\x00",
        ..FREE
    },
];

#[test]
fn spawns_behind_gates(rt: HostRuntime) -> Result<(), Fail> {
    check_all(&rt, rt.alloc(), &SPAWNS)?;
    Ok(())
}

/// Two sleepers hear that they sleep for good; the other threads trap.
#[rattlefmt::skip]
const SLEPT: [Ended; 5] = [
    (Outcome::Trap(Trap::DivideByZero), Some(15)),
    (Outcome::Stop(Stop::AsleepForGood), Some(10)),
    (Outcome::Trap(Trap::Unreachable), Some(6)),
    (Outcome::Stop(Stop::AsleepForGood), Some(10)),
    (Outcome::Trap(Trap::OutOfBounds), Some(7)),
];

/// The traps come when both sleep.
#[rattlefmt::skip]
const ASLEEP_FIRST: [Hold; 6] = [
    Hold { thread: 0, from: 14, sign: Sign { thread: 1, spent: 9, turns: 2 } },
    Hold { thread: 0, from: 14, sign: Sign { thread: 3, spent: 9, turns: 2 } },
    Hold { thread: 2, from: 0, sign: Sign { thread: 1, spent: 9, turns: 2 } },
    Hold { thread: 2, from: 0, sign: Sign { thread: 3, spent: 9, turns: 2 } },
    Hold { thread: 4, from: 0, sign: Sign { thread: 1, spent: 9, turns: 2 } },
    Hold { thread: 4, from: 0, sign: Sign { thread: 3, spent: 9, turns: 2 } },
];

/// Both fall asleep behind the traps.
#[rattlefmt::skip]
const ASLEEP_LAST: [Hold; 6] = [
    Hold { thread: 1, from: 0, sign: Sign { thread: 0, spent: 14, turns: 1 } },
    Hold { thread: 1, from: 0, sign: Sign { thread: 2, spent: 5, turns: 1 } },
    Hold { thread: 1, from: 0, sign: Sign { thread: 4, spent: 6, turns: 1 } },
    Hold { thread: 3, from: 0, sign: Sign { thread: 0, spent: 14, turns: 1 } },
    Hold { thread: 3, from: 0, sign: Sign { thread: 2, spent: 5, turns: 1 } },
    Hold { thread: 3, from: 0, sign: Sign { thread: 4, spent: 6, turns: 1 } },
];

static SLEEPS: [Scheduled; 2] = [
    Scheduled {
        name: "asleep first",
        module: SLEEPERS,
        holds: &ASLEEP_FIRST,
        ends: &SLEPT,
        ..FREE
    },
    Scheduled {
        name: "asleep last",
        module: SLEEPERS,
        holds: &ASLEEP_LAST,
        ends: &SLEPT,
        ..FREE
    },
];

#[test]
fn traps_while_others_sleep(rt: HostRuntime) -> Result<(), Fail> {
    check_all(&rt, rt.alloc(), &SLEEPS)?;
    Ok(())
}

/// Thread 0 notifies when thread 1 sleeps.
#[rattlefmt::skip]
const TOLD_LAST: [Hold; 1] = [
    Hold { thread: 0, from: 3, sign: Sign { thread: 1, spent: 4, turns: 2 } },
];

/// Thread 1 begins when thread 0 has notified.
#[rattlefmt::skip]
const TOLD_FIRST: [Hold; 1] = [
    Hold { thread: 1, from: 0, sign: Sign { thread: 0, spent: 6, turns: 1 } },
];

static FULL_LOGS: [Scheduled; 4] = [
    Scheduled {
        name: "a log of three, asleep for good",
        module: TELLING,
        args: &[Value::I32(u32::MAX)],
        memories: &[Memory::Locked { limit: 3 }],
        holds: &TOLD_LAST,
        ends: &[
            (Outcome::Stop(Stop::RecordFull), Some(5)),
            (Outcome::Stop(Stop::AsleepForGood), Some(5)),
        ],
        ..FREE
    },
    Scheduled {
        name: "a log of three, and a timeout",
        module: TELLING,
        args: &[Value::I32(5)],
        memories: &[Memory::Locked { limit: 3 }],
        holds: &TOLD_LAST,
        ends: &[
            (Outcome::Stop(Stop::RecordFull), Some(5)),
            (Outcome::Done(None), Some(7)),
        ],
        ..FREE
    },
    Scheduled {
        name: "a log of three, told first",
        module: TELLING,
        args: &[Value::I32(u32::MAX)],
        memories: &[Memory::Locked { limit: 3 }],
        holds: &TOLD_FIRST,
        ends: &[
            (Outcome::Done(Some(Value::I32(0))), Some(7)),
            (Outcome::Stop(Stop::RecordFull), Some(4)),
        ],
        ..FREE
    },
    Scheduled {
        name: "a log of four",
        module: TELLING,
        args: &[Value::I32(u32::MAX)],
        memories: &[Memory::Locked { limit: 4 }],
        holds: &TOLD_LAST,
        ends: &[
            (Outcome::Done(Some(Value::I32(1))), Some(7)),
            (Outcome::Done(None), Some(7)),
        ],
        ..FREE
    },
];

/// Two entries are the spawn and its answer, so a log of three is full behind the next question.
#[test]
fn a_full_log_meets_a_wait(rt: HostRuntime) -> Result<(), Fail> {
    check_all(&rt, rt.alloc(), &FULL_LOGS)?;
    Ok(())
}

/// Thread 0, whose last spawn was refused, and the others.
#[rattlefmt::skip]
const REFUSED_ONE: [Ended; 64] = [
    (Outcome::Done(Some(Value::I32(u32::MAX))), None),
    END, END, END, END, END, END, END, END, END, END, END, END, END, END, END, END, END, END, END, END, END,
    END, END, END, END, END, END, END, END, END, END, END, END, END, END, END, END, END, END, END, END, END,
    END, END, END, END, END, END, END, END, END, END, END, END, END, END, END, END, END, END, END, END, END,
];

/// Each thread begins when the next one has stored, and thread 0 spawns once more behind all of them.
#[rattlefmt::skip]
const LAST_FIRST: [Hold; 63] = [
    Hold { thread: 0, from: 570, sign: Sign { thread: 1, spent: 3, turns: 1 } },
    Hold { thread: 1, from: 0, sign: Sign { thread: 2, spent: 3, turns: 1 } },
    Hold { thread: 2, from: 0, sign: Sign { thread: 3, spent: 3, turns: 1 } },
    Hold { thread: 3, from: 0, sign: Sign { thread: 4, spent: 3, turns: 1 } },
    Hold { thread: 4, from: 0, sign: Sign { thread: 5, spent: 3, turns: 1 } },
    Hold { thread: 5, from: 0, sign: Sign { thread: 6, spent: 3, turns: 1 } },
    Hold { thread: 6, from: 0, sign: Sign { thread: 7, spent: 3, turns: 1 } },
    Hold { thread: 7, from: 0, sign: Sign { thread: 8, spent: 3, turns: 1 } },
    Hold { thread: 8, from: 0, sign: Sign { thread: 9, spent: 3, turns: 1 } },
    Hold { thread: 9, from: 0, sign: Sign { thread: 10, spent: 3, turns: 1 } },
    Hold { thread: 10, from: 0, sign: Sign { thread: 11, spent: 3, turns: 1 } },
    Hold { thread: 11, from: 0, sign: Sign { thread: 12, spent: 3, turns: 1 } },
    Hold { thread: 12, from: 0, sign: Sign { thread: 13, spent: 3, turns: 1 } },
    Hold { thread: 13, from: 0, sign: Sign { thread: 14, spent: 3, turns: 1 } },
    Hold { thread: 14, from: 0, sign: Sign { thread: 15, spent: 3, turns: 1 } },
    Hold { thread: 15, from: 0, sign: Sign { thread: 16, spent: 3, turns: 1 } },
    Hold { thread: 16, from: 0, sign: Sign { thread: 17, spent: 3, turns: 1 } },
    Hold { thread: 17, from: 0, sign: Sign { thread: 18, spent: 3, turns: 1 } },
    Hold { thread: 18, from: 0, sign: Sign { thread: 19, spent: 3, turns: 1 } },
    Hold { thread: 19, from: 0, sign: Sign { thread: 20, spent: 3, turns: 1 } },
    Hold { thread: 20, from: 0, sign: Sign { thread: 21, spent: 3, turns: 1 } },
    Hold { thread: 21, from: 0, sign: Sign { thread: 22, spent: 3, turns: 1 } },
    Hold { thread: 22, from: 0, sign: Sign { thread: 23, spent: 3, turns: 1 } },
    Hold { thread: 23, from: 0, sign: Sign { thread: 24, spent: 3, turns: 1 } },
    Hold { thread: 24, from: 0, sign: Sign { thread: 25, spent: 3, turns: 1 } },
    Hold { thread: 25, from: 0, sign: Sign { thread: 26, spent: 3, turns: 1 } },
    Hold { thread: 26, from: 0, sign: Sign { thread: 27, spent: 3, turns: 1 } },
    Hold { thread: 27, from: 0, sign: Sign { thread: 28, spent: 3, turns: 1 } },
    Hold { thread: 28, from: 0, sign: Sign { thread: 29, spent: 3, turns: 1 } },
    Hold { thread: 29, from: 0, sign: Sign { thread: 30, spent: 3, turns: 1 } },
    Hold { thread: 30, from: 0, sign: Sign { thread: 31, spent: 3, turns: 1 } },
    Hold { thread: 31, from: 0, sign: Sign { thread: 32, spent: 3, turns: 1 } },
    Hold { thread: 32, from: 0, sign: Sign { thread: 33, spent: 3, turns: 1 } },
    Hold { thread: 33, from: 0, sign: Sign { thread: 34, spent: 3, turns: 1 } },
    Hold { thread: 34, from: 0, sign: Sign { thread: 35, spent: 3, turns: 1 } },
    Hold { thread: 35, from: 0, sign: Sign { thread: 36, spent: 3, turns: 1 } },
    Hold { thread: 36, from: 0, sign: Sign { thread: 37, spent: 3, turns: 1 } },
    Hold { thread: 37, from: 0, sign: Sign { thread: 38, spent: 3, turns: 1 } },
    Hold { thread: 38, from: 0, sign: Sign { thread: 39, spent: 3, turns: 1 } },
    Hold { thread: 39, from: 0, sign: Sign { thread: 40, spent: 3, turns: 1 } },
    Hold { thread: 40, from: 0, sign: Sign { thread: 41, spent: 3, turns: 1 } },
    Hold { thread: 41, from: 0, sign: Sign { thread: 42, spent: 3, turns: 1 } },
    Hold { thread: 42, from: 0, sign: Sign { thread: 43, spent: 3, turns: 1 } },
    Hold { thread: 43, from: 0, sign: Sign { thread: 44, spent: 3, turns: 1 } },
    Hold { thread: 44, from: 0, sign: Sign { thread: 45, spent: 3, turns: 1 } },
    Hold { thread: 45, from: 0, sign: Sign { thread: 46, spent: 3, turns: 1 } },
    Hold { thread: 46, from: 0, sign: Sign { thread: 47, spent: 3, turns: 1 } },
    Hold { thread: 47, from: 0, sign: Sign { thread: 48, spent: 3, turns: 1 } },
    Hold { thread: 48, from: 0, sign: Sign { thread: 49, spent: 3, turns: 1 } },
    Hold { thread: 49, from: 0, sign: Sign { thread: 50, spent: 3, turns: 1 } },
    Hold { thread: 50, from: 0, sign: Sign { thread: 51, spent: 3, turns: 1 } },
    Hold { thread: 51, from: 0, sign: Sign { thread: 52, spent: 3, turns: 1 } },
    Hold { thread: 52, from: 0, sign: Sign { thread: 53, spent: 3, turns: 1 } },
    Hold { thread: 53, from: 0, sign: Sign { thread: 54, spent: 3, turns: 1 } },
    Hold { thread: 54, from: 0, sign: Sign { thread: 55, spent: 3, turns: 1 } },
    Hold { thread: 55, from: 0, sign: Sign { thread: 56, spent: 3, turns: 1 } },
    Hold { thread: 56, from: 0, sign: Sign { thread: 57, spent: 3, turns: 1 } },
    Hold { thread: 57, from: 0, sign: Sign { thread: 58, spent: 3, turns: 1 } },
    Hold { thread: 58, from: 0, sign: Sign { thread: 59, spent: 3, turns: 1 } },
    Hold { thread: 59, from: 0, sign: Sign { thread: 60, spent: 3, turns: 1 } },
    Hold { thread: 60, from: 0, sign: Sign { thread: 61, spent: 3, turns: 1 } },
    Hold { thread: 61, from: 0, sign: Sign { thread: 62, spent: 3, turns: 1 } },
    Hold { thread: 62, from: 0, sign: Sign { thread: 63, spent: 3, turns: 1 } },
];

/// The bytes at the ids: the arguments.
const ARGUMENTS: &[u8] = b"\
\x00\x3f\x3e\x3d\x3c\x3b\x3a\x39\x38\x37\x36\x35\x34\x33\x32\x31\
\x30\x2f\x2e\x2d\x2c\x2b\x2a\x29\x28\x27\x26\x25\x24\x23\x22\x21\
\x20\x1f\x1e\x1d\x1c\x1b\x1a\x19\x18\x17\x16\x15\x14\x13\x12\x11\
\x10\x0f\x0e\x0d\x0c\x0b\x0a\x09\x08\x07\x06\x05\x04\x03\x02\x01\
\x00";

static REFUSED: [Scheduled; 1] = [Scheduled {
    name: "a 64th spawn behind all ends",
    module: SPAWNING_ALL,
    holds: &LAST_FIRST,
    ends: &REFUSED_ONE,
    bytes: ARGUMENTS,
    ..FREE
}];

/// The last spawn is refused also where all 63 have come to their ends before.
#[test]
fn refuses_a_64th_spawn(rt: HostRuntime) -> Result<(), Fail> {
    check_all(&rt, rt.alloc(), &REFUSED)?;
    Ok(())
}

/// The last turns of the threads that count.
const LAST: u64 = 9_012;

/// One thread after the other, no try is lost: each has spent its units over both memories.
#[rattlefmt::skip]
const COUNTED: [Ended; 5] = [
    (Outcome::Done(Some(Value::I32(160))), Some(24)),
    (Outcome::Done(None), Some(9_013)),
    (Outcome::Done(None), Some(9_013)),
    (Outcome::Done(None), Some(9_013)),
    (Outcome::Done(None), Some(9_013)),
];

/// All at once.
#[rattlefmt::skip]
const COUNTED_AT_ONCE: [Ended; 5] = [
    (Outcome::Done(Some(Value::I32(160))), None),
    END, END, END, END,
];

/// Threads 1 to 4 in order, and then thread 0 behind its spawns.
#[rattlefmt::skip]
const IN_ORDER: [Hold; 4] = [
    Hold { thread: 2, from: 0, sign: Sign { thread: 1, spent: LAST, turns: 1 } },
    Hold { thread: 3, from: 0, sign: Sign { thread: 2, spent: LAST, turns: 1 } },
    Hold { thread: 4, from: 0, sign: Sign { thread: 3, spent: LAST, turns: 1 } },
    Hold { thread: 0, from: 12, sign: Sign { thread: 4, spent: LAST, turns: 1 } },
];

/// Threads 4 to 1, and then thread 0.
#[rattlefmt::skip]
const FROM_THE_LAST: [Hold; 4] = [
    Hold { thread: 3, from: 0, sign: Sign { thread: 4, spent: LAST, turns: 1 } },
    Hold { thread: 2, from: 0, sign: Sign { thread: 3, spent: LAST, turns: 1 } },
    Hold { thread: 1, from: 0, sign: Sign { thread: 2, spent: LAST, turns: 1 } },
    Hold { thread: 0, from: 12, sign: Sign { thread: 1, spent: LAST, turns: 1 } },
];

/// They begin when thread 0 sleeps.
#[rattlefmt::skip]
const SLEEPING: [Hold; 4] = [
    Hold { thread: 1, from: 0, sign: Sign { thread: 0, spent: 22, turns: 2 } },
    Hold { thread: 2, from: 0, sign: Sign { thread: 0, spent: 22, turns: 2 } },
    Hold { thread: 3, from: 0, sign: Sign { thread: 0, spent: 22, turns: 2 } },
    Hold { thread: 4, from: 0, sign: Sign { thread: 0, spent: 22, turns: 2 } },
];

/// Thread 0 comes behind all of them.
#[rattlefmt::skip]
const BEHIND_ALL: [Hold; 4] = [
    Hold { thread: 0, from: 12, sign: Sign { thread: 1, spent: LAST, turns: 1 } },
    Hold { thread: 0, from: 12, sign: Sign { thread: 2, spent: LAST, turns: 1 } },
    Hold { thread: 0, from: 12, sign: Sign { thread: 3, spent: LAST, turns: 1 } },
    Hold { thread: 0, from: 12, sign: Sign { thread: 4, spent: LAST, turns: 1 } },
];

static COUNTS: [Scheduled; 4] = [
    Scheduled {
        name: "in order",
        module: COUNTING,
        holds: &IN_ORDER,
        ends: &COUNTED,
        bytes: b"\xa0\x00\x00\x00\x00\x00\x00\x00\x04\x00\x00\x00",
        ..FREE
    },
    Scheduled {
        name: "from the last",
        module: COUNTING,
        holds: &FROM_THE_LAST,
        ends: &COUNTED,
        bytes: b"\xa0\x00\x00\x00\x00\x00\x00\x00\x04\x00\x00\x00",
        ..FREE
    },
    Scheduled {
        name: "asleep first",
        module: COUNTING,
        holds: &SLEEPING,
        ends: &COUNTED_AT_ONCE,
        bytes: b"\xa0\x00\x00\x00\x00\x00\x00\x00\x04\x00\x00\x00",
        ..FREE
    },
    Scheduled {
        name: "behind all",
        module: COUNTING,
        holds: &BEHIND_ALL,
        ends: &COUNTED_AT_ONCE,
        bytes: b"\xa0\x00\x00\x00\x00\x00\x00\x00\x04\x00\x00\x00",
        ..FREE
    },
];

#[test]
fn counts(rt: HostRuntime) -> Result<(), Fail> {
    check_all(&rt, rt.alloc(), &COUNTS)?;
    Ok(())
}
