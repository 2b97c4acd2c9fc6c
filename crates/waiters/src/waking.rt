//! Whom of the sleepers a notify or settling wakes.
ghost use Rattle.std.specs.Prelude.{◌≡◌, ◌≤◌, ◌==◌, length, filter};
ghost use Rattle.types.specs.declared.limits.TheConstants.{MOST_THREADS};
ghost use Rattle.shared_memory.specs.declared.sleeper.Sleeper.{Sleeper};
ghost use Rattle.shared_memory.specs.WaitQueue.{amount, due_after, earlier, ends_at_once, ends_before};
ghost use Rattle.shared_memory.specs.WaitQueue.{first_to_end, has_timeout, is_among, woken_at};
ghost use Rattle.waiters.specs.Queue.{AreNumbered};

use arrayvec::ArrayVec;
use shared_memory::Sleeper;
use types::{Answer, MOST_THREADS};

/// The sleepers at an address.
fn at_address(sleepers: &[Sleeper], addr: u64) -> ArrayVec<Sleeper, MOST_THREADS>
    requires { length sleepers.now ≤ MOST_THREADS }
    ensures { result.items ≡ filter (λ (s : Sleeper). s.addr == addr) sleepers.now }
{
    let mut found = ArrayVec::new();
    for s in sleepers {
        if s.addr == addr {
            found.push(*s);
        }
    }
    found
}

/// Whom a notify wakes: those that have slept longest at the address, as many as it counts.
pub(crate) fn woken_at(
    sleepers: &[Sleeper],
    addr: u64,
    count: u32,
) -> ArrayVec<Sleeper, MOST_THREADS>
    requires { length sleepers.now ≤ MOST_THREADS }
    ensures { result.items ≡ woken_at addr count sleepers.now }
{
    let mut woken = at_address(sleepers, addr);
    woken.truncate(count as usize);
    woken
}

/// Whether the thread is among the sleepers.
pub(crate) fn is_among(thread: u32, sleepers: &[Sleeper]) -> bool
    ensures { result ≡ is_among thread sleepers.now }
{
    sleepers.iter().any(|s| s.thread == thread)
}

/// Whether a timeout ends at once: it is 0.
pub(crate) fn ends_at_once(timeout: i64) -> bool
    ensures { result ≡ ends_at_once timeout }
{
    timeout == 0
}

/// How long a timeout is. A negative one, which never ends, counts as 0.
fn amount(timeout: i64) -> u64
    ensures { result ≡ amount timeout }
{
    if timeout < 0 { 0 } else { timeout as u64 }
}

/// Whether the timeout of a sleeper ends.
fn has_timeout(s: &Sleeper) -> bool
    ensures { result ≡ has_timeout s.now }
{
    amount(s.timeout) > 0
}

/// Whether the timeout of one sleeper ends before another's: it is less, or they are equal and the thread's number is
/// less.
fn ends_before(s: &Sleeper, t: &Sleeper) -> bool
    ensures { result ≡ ends_before s.now t.now }
{
    let (mine, other) = (amount(s.timeout), amount(t.timeout));
    mine < other || mine == other && s.thread < t.thread
}

/// This sleeper, or the other where there is one whose timeout ends before.
fn earlier(s: Sleeper, other: Option<Sleeper>) -> Sleeper
    ensures { result ≡ earlier s other }
{
    match other {
        Some(t) if ends_before(&t, &s) => t,
        _ => s,
    }
}

/// The sleeper whose timeout ends first, where some sleeper has one.
pub(crate) fn first_to_end(sleepers: &[Sleeper]) -> Option<Sleeper>
    ensures { result ≡ first_to_end sleepers.now }
{
    let mut first = None;
    for s in sleepers.iter().rev() {
        if has_timeout(s) {
            first = Some(earlier(*s, first));
        }
    }
    first
}

/// Gives each of these sleepers an answer.
pub(crate) fn tell_each(due: &mut [Option<Answer>], woken: &[Sleeper], answer: Answer)
    requires { AreNumbered (length due.old) woken.now }
    ensures { due.new ≡ due_after woken.now answer due.old }
{
    for s in woken {
        due[s.thread as usize] = Some(answer);
    }
}
