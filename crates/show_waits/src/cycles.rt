//! Which threads wait for one another.
ghost use Rattle.std.specs.Prelude.{◌≡◌, ◌↔◌, ◌++◌, ℕ, true, List, IfOk, MatchOption, OnOk, option_to_list};
ghost use Rattle.show_waits.specs.Cycles.{AreToldCycles, AreWaits, IsCycle, IsStopped, IsToldCycle, IsWait};
ghost use Rattle.show_waits.specs.Cycles.{StandsElsewhere, wait_in};

use crate::stands::{is_same, stand_of};
use selection::{NumberSpan, Spans};
use show_named::{Act, last_of};
use std::alloc::{AllocError, Global};
use types::{Entry, Outcome, ThreadReport};

/// Whether a thread was stopped.
fn is_stopped(ends: &[ThreadReport], n: usize) -> bool
    ensures { (result ≡ true) ↔ IsStopped ends.now n }
{
    match ends.get(n) {
        Some(report) => matches!(report.outcome, Outcome::Stop(_)),
        None => false,
    }
}

/// Whether a thread stands at other bytes than these.
fn stands_elsewhere(log: &[Entry], m: usize, out: &Option<Spans>, addrs: NumberSpan) -> bool
    ensures { (result ≡ true) ↔ StandsElsewhere m log.now out.now addrs }
{
    match stand_of(log, m, out) {
        Some(stand) => !is_same(stand.addrs, addrs),
        None => false,
    }
}

/// The thread for which this one waits: where it stands, this was the last one of the others to write, both were
/// stopped, and that one stands elsewhere.
fn wait_of(log: &[Entry], ends: &[ThreadReport], out: &Option<Spans>, n: usize) -> Option<usize>
    ensures { IsWait log.now ends.now out.now n result }
{
    if !is_stopped(ends, n) {
        return None;
    }
    let stand = stand_of(log, n, out)?;
    let at = last_of(log, log.len(), Act::OtherWrite(stand.addrs, n))?;
    let writer = log[at].thread as usize;
    if !is_stopped(ends, writer) {
        return None;
    }
    if stands_elsewhere(log, writer, out, stand.addrs) {
        Some(writer)
    } else {
        None
    }
}

/// For whom each thread waits, or none.
pub(crate) fn waits_of(
    alloc: Global,
    log: &[Entry],
    ends: &[ThreadReport],
    out: &Option<Spans>,
) -> Result<Vec<Option<usize>>, AllocError>
    ensures { IfOk result (λ waits. AreWaits log.now ends.now out.now waits.items) }
{
    let mut waits = Vec::new(alloc);
    for n in 0..ends.len() {
        waits.push(wait_of(log, ends, out, n))?;
    }
    Ok(waits)
}

/// The one for which a thread waits.
fn wait_in(waits: &[Option<usize>], n: usize) -> Option<usize>
    ensures { result ≡ wait_in waits.now n }
{
    match waits.get(n) {
        Some(wait) => *wait,
        None => None,
    }
}

/// The others that wait in a cycle with a thread, the one first for which it waits; or none where it waits in no cycle,
/// or isn't the one of the lowest number.
pub(crate) fn cycle_from(
    alloc: Global,
    waits: &[Option<usize>],
    n: usize,
) -> Result<Option<Vec<usize>>, AllocError>
    ensures { IfOk result (λ found. MatchOption found ((others : List ℕ) → IsCycle waits.now n others → ⊥)
        (λ others. IsCycle waits.now n others.items)) }
{
    let mut others = Vec::new(alloc);
    let mut at = n;
    for _ in 0..waits.len() {
        let Some(next) = wait_in(waits, at) else {
            return Ok(None);
        };
        if next == n {
            return Ok(Some(others));
        }
        if next < n {
            return Ok(None);
        }
        others.push(next)?;
        at = next;
    }
    Ok(None)
}

/// The cycle of a thread, from it on, if it waits in one and is its thread of the lowest number.
fn cycle_at(
    alloc: Global,
    waits: &[Option<usize>],
    n: usize,
) -> Result<Option<Vec<usize>>, AllocError>
    ensures { IfOk result (IsToldCycle waits.now n) }
{
    let Some(others) = cycle_from(alloc, waits, n)? else {
        return Ok(None);
    };
    let mut cycle = Vec::new(alloc);
    cycle.push(n)?;
    cycle.extend_from_slice(others.as_slice())?;
    Ok(Some(cycle))
}

/// Puts a cycle behind the others, if there is one.
fn put_if_any(cycles: &mut Vec<Vec<usize>>, cycle: Option<Vec<usize>>) -> Result<(), AllocError>
    ensures { OnOk result (cycles.new.items ≡ cycles.old.items ++ option_to_list cycle) }
{
    if let Some(cycle) = cycle {
        cycles.push(cycle)?;
    }
    Ok(())
}

/// The cycles in which threads wait for one another at the end of a log, each from its thread of the lowest number on, where
/// this memory is left out.
///
/// # Errors
/// Where memory is refused.
pub fn cycles_told(
    alloc: Global,
    log: &[Entry],
    ends: &[ThreadReport],
    out: &Option<Spans>,
) -> Result<Vec<Vec<usize>>, AllocError>
    ensures { IfOk result (λ cycles. AreToldCycles log.now ends.now out.now cycles.items) }
{
    let waits = waits_of(alloc, log, ends, out)?;
    let mut cycles = Vec::new(alloc);
    for n in 0..ends.len() {
        let cycle = cycle_at(alloc, waits.as_slice(), n)?;
        put_if_any(&mut cycles, cycle)?;
    }
    Ok(cycles)
}
