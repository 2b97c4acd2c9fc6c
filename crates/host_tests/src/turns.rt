//! Every turn of small runs, as a gate hears of it: counted by hand, from the modules' texts. A try of an event takes
//! two turns, one that wants it and one that gets its reply; a question takes a third, which gets its answer.

use crate::noting::Noting;
use crate::runs::{BOTH, FUEL, Memory, Trouble, run};
use std::alloc::Global;
use std::process::Abort;
use std::sync::Wait;
use std::test::Fail;
use std::thread::Threads;
use test_modules::{
    ADDING, FOUR, GIVING_NOTHING, Module, OVER_THE_END, Small, TWO_WORDS, WAITING, WAITING_FOR_GOOD,
};

/// A module, and the units with which each turn of each thread comes.
#[derive(Clone, Copy)]
struct Noted {
    name: &'static str,
    module: Module,
    fuel: u64,
    turns: &'static [&'static [u64]],
}

static RUNS: [Noted; 9] = [
    Noted {
        name: "an access",
        module: Module::Small(ADDING),
        fuel: FUEL,
        turns: &[&[0, 1, 2, 2, 3]],
    },
    Noted {
        name: "an access in two parts",
        module: Module::Small(TWO_WORDS),
        fuel: FUEL,
        turns: &[&[0, 1, 2, 2, 3, 3, 4, 5]],
    },
    Noted {
        name: "an access out of bounds",
        module: Module::Small(OVER_THE_END),
        fuel: FUEL,
        turns: &[&[0, 1, 2, 2]],
    },
    Noted {
        name: "a wait",
        module: Module::Small(WAITING),
        fuel: FUEL,
        turns: &[&[0, 1, 2, 3, 3, 4, 4]],
    },
    Noted {
        name: "a wait for good",
        module: Module::Small(WAITING_FOR_GOOD),
        fuel: FUEL,
        turns: &[&[0, 1, 2, 3, 3, 4]],
    },
    Noted {
        name: "a trap",
        module: Module::Small(Small {
            body: b"\x01\x00",
            ..GIVING_NOTHING
        }),
        fuel: FUEL,
        turns: &[&[0, 1]],
    },
    Noted {
        name: "out of fuel",
        module: Module::Small(ADDING),
        fuel: 2,
        turns: &[&[0, 1, 2]],
    },
    Noted {
        name: "no fuel",
        module: Module::Small(ADDING),
        fuel: 0,
        turns: &[&[0]],
    },
    Noted {
        name: "four threads",
        module: Module::Bytes(FOUR),
        fuel: FUEL,
        turns: &[
            &[
                0, 1, 1, 2, 2, 3, 4, 4, 5, 5, 6, 7, 7, 8, 8, 9, 10, 10, 11, 11, 12, 13,
            ],
            &[0],
            &[0],
            &[0],
            &[0],
        ],
    },
];

/// Whether a run makes these turns and no others.
fn makes<R: Threads + Wait + Sync>(
    rt: &R,
    alloc: Global,
    row: &Noted,
    memory: Memory,
) -> Result<bool, Trouble> {
    let module = row.module.bytes(alloc)?;
    let gate = Noting::new(alloc)?;
    let _end = run(rt, alloc, &module, &[], row.fuel, memory, &gate)?;
    let mut count = 0u64;
    for (thread, units) in row.turns.iter().enumerate() {
        if !gate.has(thread as u64, units) {
            return Ok(false);
        }
        count = count.saturating_add(units.len() as u64);
    }
    Ok(gate.count() == count)
}

fn check_runs<R: Threads + Wait + Abort + Sync>(rt: &R, alloc: Global) -> Result<(), Trouble> {
    for row in &RUNS {
        for memory in BOTH {
            let name = row.name;
            assert!(rt; makes(rt, alloc, row, memory)?, "{name}: {memory:?}");
        }
    }
    Ok(())
}

/// Each turn has one call of the gate, before it, with the thread's number and the units that it has spent.
#[test]
fn hears_of_each_turn_once(rt: HostRuntime) -> Result<(), Fail> {
    check_runs(&rt, rt.alloc())?;
    Ok(())
}
