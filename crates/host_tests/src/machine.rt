//! Runs of real threads, and the scheduled machine along the schedules of their logs.

use interp_trait::OpenGate;
use report_jobs::load;
use report_runs::{EndState, record_run};
use schedule_program::{Kind, Mark};
use spawn_host::Call;
use std::alloc::{AllocError, Global};
use std::process::Abort;
use std::sync::Wait;
use std::test::Fail;
use std::thread::Threads;
use test_modules::{
    ADDING, COUNTING, ENDLESS, GROWING, OUTSIDE, RACING, SUMMING, SUMMING_ALL, TIMEOUTS, TRAPPING,
    WAITING_FOR_GOOD,
};
use test_schedules::{MachineFault, machine_of, schedule_of};
use types::{Entry, Event, MOST_FUEL, Outcome, Stop, ThreadReport, Value};
use validate_module::ValidModule;

/// How many turns of its own a thread makes at most between two entries.
const MOST: u32 = 100_000;

const FUEL: u64 = 1_000_000_000;

const LIMIT: u32 = 100_000;

/// A call of `f` without arguments.
fn call_with(fuel: u64) -> Call<'static> {
    Call {
        name: "f",
        args: &[],
        fuel,
    }
}

/// A run over the memory that records: its log, and what it left.
#[derive(Drop)]
struct Recorded {
    log: Vec<Entry>,
    end: EndState,
}

fn record<R: Threads + Wait + Abort + Sync>(
    rt: &R,
    alloc: Global,
    module: &ValidModule,
    fuel: u64,
    limit: u32,
) -> Result<Recorded, Fail> {
    let call = call_with(fuel);
    assert!(rt; call.fuel <= MOST_FUEL);
    let (record, end) = record_run(rt, alloc, module, call, limit, &mut OpenGate)?;
    Ok(Recorded {
        log: Vec::from_slice(alloc, record.parts().log.as_slice())?,
        end,
    })
}

/// The entries of a log that are no answers heard.
fn events(alloc: Global, log: &[Entry]) -> Result<Vec<Entry>, AllocError> {
    let mut made = Vec::new(alloc);
    for entry in log {
        if !matches!(entry.event, Event::Told(_)) {
            made.push(*entry)?;
        }
    }
    Ok(made)
}

/// Whether the machine makes the log's events along its schedule, and comes to the same end.
fn agrees(
    alloc: Global,
    module: &ValidModule,
    fuel: u64,
    recorded: &Recorded,
) -> Result<bool, MachineFault> {
    let mut scout = machine_of(alloc, module, call_with(fuel))?;
    let marks = schedule_of(alloc, &mut scout, &recorded.log, MOST)?;
    let mut machine = machine_of(alloc, module, call_with(fuel))?;
    let mut entries = Vec::new(alloc);
    machine.step_along(&marks, &mut entries)?;
    Ok(
        entries == events(alloc, &recorded.log)?
            && machine.reports(alloc)? == recorded.end.threads
            && machine.memory().pages() == recorded.end.pages
            && machine.memory().bytes() == recorded.end.bytes.as_slice(),
    )
}

/// Runs a module so often, and steps the machine along the schedule of each run. Gives what the last run left.
fn check<R: Threads + Wait + Abort + Sync>(
    rt: &R,
    alloc: Global,
    bytes: &[u8],
    fuel: u64,
    limit: u32,
    times: u32,
) -> Result<EndState, Fail> {
    let module = load(alloc, bytes)?;
    let mut recorded = record(rt, alloc, &module, fuel, limit)?;
    for time in 0..times {
        assert!(rt; agrees(alloc, &module, fuel, &recorded)?, "in run {time}");
        recorded = record(rt, alloc, &module, fuel, limit)?;
    }
    Ok(recorded.end)
}

/// Modules, how often each is run, and how many threads have an end.
static STEPPED: [(&[u8], u32, usize); 5] = [
    (COUNTING, 5, 5),
    (SUMMING, 20, 17),
    (SUMMING_ALL, 5, 64),
    (TRAPPING, 20, 2),
    (TIMEOUTS, 20, 4),
];

#[test]
fn modules_are_stepped_again(rt: HostRuntime) -> Result<(), Fail> {
    for (module, times, threads) in STEPPED {
        let end = check(&rt, rt.alloc(), module, FUEL, LIMIT, times)?;
        assert_eq!(rt; end.threads.len(), threads);
    }
    Ok(())
}

#[test]
fn the_examples_are_stepped_again(rt: HostRuntime) -> Result<(), Fail> {
    for module in RACING {
        check(&rt, rt.alloc(), module, FUEL, LIMIT, 2)?;
    }
    Ok(())
}

/// Whether some thread was stopped so.
fn has_stopped(end: &EndState, stop: Stop) -> bool {
    end.threads
        .iter()
        .any(|report| report.outcome == Outcome::Stop(stop))
}

#[test]
fn a_log_is_full(rt: HostRuntime) -> Result<(), Fail> {
    let end = check(&rt, rt.alloc(), COUNTING, FUEL, 1_000, 5)?;
    assert!(rt; has_stopped(&end, Stop::RecordFull), "{end:?}");
    let module = ENDLESS.bytes(rt.alloc())?;
    let end = check(&rt, rt.alloc(), &module, FUEL, 7, 1)?;
    assert!(rt; has_stopped(&end, Stop::RecordFull), "{end:?}");
    Ok(())
}

#[test]
fn the_units_are_spent(rt: HostRuntime) -> Result<(), Fail> {
    let module = ENDLESS.bytes(rt.alloc())?;
    for fuel in [0, 1, 2, 3, 100, 1_001] {
        let end = check(&rt, rt.alloc(), &module, fuel, LIMIT, 1)?;
        assert!(rt; has_stopped(&end, Stop::OutOfFuel), "{end:?}");
    }
    let end = check(&rt, rt.alloc(), COUNTING, 1_000, LIMIT, 5)?;
    assert!(rt; has_stopped(&end, Stop::AsleepForGood), "{end:?}");
    Ok(())
}

#[test]
fn one_thread_alone(rt: HostRuntime) -> Result<(), Fail> {
    for small in [ADDING, OUTSIDE, GROWING, WAITING_FOR_GOOD] {
        let module = small.bytes(rt.alloc())?;
        let end = check(&rt, rt.alloc(), &module, FUEL, LIMIT, 1)?;
        assert_eq!(rt; end.threads.len(), 1);
    }
    Ok(())
}

/// Of these marks the first is a try that can't be lost, one is of a thread that isn't there, one finds no full log,
/// and the last is of a thread that has left.
const SOME_IDLE: [Mark; 10] = [
    Mark {
        thread: 0,
        kind: Kind::Loses,
    },
    Mark {
        thread: 1,
        kind: Kind::Turn,
    },
    Mark {
        thread: 0,
        kind: Kind::Turn,
    },
    Mark {
        thread: 0,
        kind: Kind::Turn,
    },
    Mark {
        thread: 0,
        kind: Kind::Loses,
    },
    Mark {
        thread: 0,
        kind: Kind::Turn,
    },
    Mark {
        thread: 0,
        kind: Kind::Turn,
    },
    Mark {
        thread: 0,
        kind: Kind::Fills,
    },
    Mark {
        thread: 0,
        kind: Kind::Turn,
    },
    Mark {
        thread: 0,
        kind: Kind::Turn,
    },
];

/// The thread spends a unit on each of two constants, on the try that it loses, on the one that it makes, and on its
/// return.
#[test]
fn some_marks_are_idle(rt: HostRuntime) -> Result<(), Fail> {
    let bytes = ADDING.bytes(rt.alloc())?;
    let module = load(rt.alloc(), &bytes)?;
    let mut machine = machine_of(rt.alloc(), &module, call_with(10))?;
    let mut entries = Vec::new(rt.alloc());
    machine.step_along(&SOME_IDLE, &mut entries)?;
    assert_eq!(rt; entries.len(), 2);
    let report = ThreadReport {
        outcome: Outcome::Done(Some(Value::I32(0))),
        spent: 5,
    };
    assert_eq!(rt; machine.report(0), Some(report));
    assert_eq!(rt; machine.report(1), None);
    Ok(())
}

#[test]
fn refused_as_a_run(rt: HostRuntime) -> Result<(), Fail> {
    let bytes = ADDING.bytes(rt.alloc())?;
    let module = load(rt.alloc(), &bytes)?;
    let unknown = Call {
        name: "g",
        args: &[],
        fuel: 10,
    };
    assert!(rt;
        matches!(
            machine_of(rt.alloc(), &module, unknown),
            Err(MachineFault::Run(_))
        )
    );
    Ok(())
}
