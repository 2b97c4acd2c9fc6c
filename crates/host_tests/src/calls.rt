//! Each call with ample memory, and with what it refuses.

use host_calls::{HostFault, Plan, endings_of, functions_of, is_well, replay_of, run_of};
use replay_text::write_record;
use selection::Way;
use spawn_host::{CallFault, EndState};
use std::alloc::Global;
use std::test::Fail;
use test_modules::{ATOMIC_ADD, BROKEN_LOCK};
use types::{Outcome, Value};

const PLAN: Plan = Plan {
    way: Way::Mix,
    seed: 1,
    run: 1,
    fuel: 1_000_000,
    limit: 10_000,
};

/// How thread 0 ended.
fn first_of(end: &EndState) -> Option<Outcome> {
    let report = end.threads.first()?;
    Some(report.outcome)
}

/// Whether a call of `f` is refused so by a plan.
fn is_refused(alloc: Global, name: &str, args: &[Value], plan: &Plan, fault: HostFault) -> bool {
    match run_of(alloc, ATOMIC_ADD, name, args, plan) {
        Ok(_) => false,
        Err(met) => met == fault,
    }
}

#[test]
fn modules(rt: HostRuntime) -> Result<(), Fail> {
    let alloc = rt.alloc();
    assert!(rt; functions_of(alloc, ATOMIC_ADD) == Ok(1));
    assert!(rt; matches!(functions_of(alloc, b"\0asm"), Err(HostFault::Module(_))));
    Ok(())
}

#[test]
fn a_run_and_its_record(rt: HostRuntime) -> Result<(), Fail> {
    let alloc = rt.alloc();
    let made = run_of(alloc, ATOMIC_ADD, "f", &[], &PLAN)?;
    assert!(rt; first_of(&made.end) == Some(Outcome::Done(Some(Value::I32(0)))));
    assert!(rt; made.end.bytes.first() == Some(&5));
    let mut text = Vec::new(alloc);
    assert!(rt; write_record(&made.record, &mut text).is_ok());
    let again = replay_of(alloc, ATOMIC_ADD, &text)?;
    assert!(rt; again == made.end);
    assert!(rt;
        matches!(
            replay_of(alloc, BROKEN_LOCK, &text),
            Err(HostFault::Replay(_))
        )
    );
    assert!(rt;
        matches!(
            replay_of(alloc, ATOMIC_ADD, b"wathread"),
            Err(HostFault::Record(_))
        )
    );
    Ok(())
}

#[test]
fn calls_that_are_refused(rt: HostRuntime) -> Result<(), Fail> {
    let alloc = rt.alloc();
    let unknown = HostFault::Call(CallFault::UnknownExport);
    assert!(rt; is_refused(alloc, "g", &[], &PLAN, unknown));
    let wrong = HostFault::Call(CallFault::WrongArguments);
    assert!(rt; is_refused(alloc, "f", &[Value::I32(1)], &PLAN, wrong));
    let none = Plan { limit: 0, ..PLAN };
    assert!(rt; is_refused(alloc, "f", &[], &none, HostFault::Range));
    let much = Plan {
        fuel: 1_000_000_000_001,
        ..PLAN
    };
    assert!(rt; is_refused(alloc, "f", &[], &much, HostFault::Range));
    Ok(())
}

/// What the broken lock's function answers in the run of this number.
fn counted(alloc: Global, run: u64) -> Result<Option<Outcome>, HostFault> {
    let plan = Plan { run, ..PLAN };
    let made = run_of(alloc, BROKEN_LOCK, "f", &[], &plan)?;
    Ok(first_of(&made.end))
}

#[test]
fn another_run_of_another_number(rt: HostRuntime) -> Result<(), Fail> {
    let alloc = rt.alloc();
    let all = Some(Outcome::Done(Some(Value::I32(600))));
    assert!(rt; counted(alloc, 2)? == all);
    let lost = counted(alloc, 1)?;
    assert!(rt; lost != all && lost == counted(alloc, 1)?);
    Ok(())
}

#[test]
fn all_endings(rt: HostRuntime) -> Result<(), Fail> {
    let alloc = rt.alloc();
    let all = endings_of(alloc, ATOMIC_ADD, "f", &[], 1000, 4)?;
    assert!(rt; is_well(&all) && all.endings.len() == 1);
    let few = endings_of(alloc, BROKEN_LOCK, "f", &[], 3, 0)?;
    assert!(rt; !is_well(&few));
    Ok(())
}
