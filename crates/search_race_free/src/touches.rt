//! What threads touch, and where that conflicts.
ghost use Rattle.std.specs.Prelude.{◌≡◌, ◌≢◌, ◌↔◌, ◌⊎◌, true, false, Some, IfOk, OnOk, IfSome, IfNone, IsTrue};
ghost use Rattle.search_settled.specs.Accesses.{Meet, Conflict, AreMatched, Race as AreRacing, Covers, WritesOver};
ghost use Rattle.search_race_free.specs.Touches.{StrikesNobody, Strikes, AreOfOthers, MeetsNobody, Meets, IsPut};
ghost use Rattle.search_race_free.specs.Touches.{AreClear, AreInTheWay, ArePlainOf, ArePutOver};

use crate::{ThreadRace, Touch};
use search_settled::NextAccess;
use std::alloc::{AllocError, Global};

/// Whether both touch a byte in common.
fn meet(a: NextAccess, b: NextAccess) -> bool
    ensures { IsTrue result ↔ Meet a b }
{
    if a.addr <= b.addr {
        b.width > 0 && b.addr - a.addr < a.width
    } else {
        a.width > 0 && a.addr - b.addr < b.width
    }
}

/// Whether both touch a byte in common, and one of them writes.
fn conflict(a: NextAccess, b: NextAccess) -> bool
    ensures { IsTrue result ↔ Conflict a b }
{
    (a.writes || b.writes) && meet(a, b)
}

/// Whether neither is plain, and both are allowed, or neither is and they are of exactly the same bytes.
fn are_matched(a: NextAccess, b: NextAccess) -> bool
    ensures { IsTrue result ↔ AreMatched a b }
{
    !a.plain
        && !b.plain
        && a.is_allowed == b.is_allowed
        && (a.is_allowed || a.addr == b.addr && a.width == b.width)
}

/// Whether they race where they are next at once.
fn are_racing(a: NextAccess, b: NextAccess) -> bool
    ensures { IsTrue result ↔ AreRacing a b }
{
    conflict(a, b) && !are_matched(a, b)
}

/// Whether this is a touch of another thread with which a thread's access races.
fn strikes(touch: Touch, thread: usize, access: NextAccess) -> bool
    ensures { IsTrue result ↔ (touch.thread ≢ thread) × AreRacing access touch.access }
{
    touch.thread != thread && are_racing(access, touch.access)
}

/// A thread one of whose touches races with this access of another thread.
pub(crate) fn struck(owned: &[Touch], thread: usize, access: NextAccess) -> Option<usize>
    ensures none { IfNone result (StrikesNobody owned.now thread access) }
    ensures some { IfSome result (Strikes owned.now thread access) }
{
    for touch in owned {
        if strikes(*touch, thread, access) {
            return Some(touch.thread);
        }
    }
    None
}

/// Whether this next access of a thread races with one of another thread.
fn meets(next: Option<NextAccess>, other: usize, thread: usize, access: NextAccess) -> bool
    ensures { IsTrue result ↔ (b : NextAccess) × (next ≡ Some b) × (other ≢ thread) × AreRacing access b }
{
    match next {
        Some(next) => other != thread && are_racing(access, next),
        None => false,
    }
}

/// A thread whose next access races with this one of another thread.
fn meeting(wanted: &[Option<NextAccess>], thread: usize, access: NextAccess) -> Option<usize>
    ensures none { IfNone result (MeetsNobody wanted.now thread access) }
    ensures some { IfSome result (Meets wanted.now thread access) }
{
    for other in 0..wanted.len() {
        if meets(wanted[other], other, thread, access) {
            return Some(other);
        }
    }
    None
}

/// A thread that this access of another thread strikes or meets.
fn in_the_way(
    wanted: &[Option<NextAccess>],
    owned: &[Touch],
    thread: usize,
    access: NextAccess,
) -> Option<usize>
    ensures none { IfNone result (StrikesNobody owned.now thread access × MeetsNobody wanted.now thread access) }
    ensures some { IfSome result (λ one. Strikes owned.now thread access one ⊎ Meets wanted.now thread access one) }
{
    match struck(owned, thread, access) {
        Some(one) => Some(one),
        None => meeting(wanted, thread, access),
    }
}

/// Two threads of which one is in the way of the other's next access.
pub(crate) fn first_race(wanted: &[Option<NextAccess>], owned: &[Touch]) -> Option<ThreadRace>
    ensures none { IfNone result (AreClear wanted.now owned.now) }
    ensures some { IfSome result (λ r. AreInTheWay wanted.now owned.now r.one r.other) }
{
    for other in 0..wanted.len() {
        if let Some(access) = wanted[other] {
            if let Some(one) = in_the_way(wanted, owned, other, access) {
                return Some(ThreadRace { one, other });
            }
        }
    }
    None
}

/// Whether this is a touch of another thread.
fn is_of_other(touch: Touch, thread: usize) -> bool
    ensures { IsTrue result ↔ (touch.thread ≢ thread) }
{
    touch.thread != thread
}

/// The touches of the other threads.
pub(crate) fn of_others(
    alloc: Global,
    owned: &[Touch],
    thread: usize,
) -> Result<Vec<Touch>, AllocError>
    ensures { IfOk result (λ v. AreOfOthers owned.now thread v.items) }
{
    let mut others = Vec::new(alloc);
    for touch in owned {
        if is_of_other(*touch, thread) {
            others.push(*touch)?;
        }
    }
    Ok(others)
}

/// Adds a touch, unless it is there. They stay in order, so that what is owned alike is alike.
pub(crate) fn put(touches: &mut Vec<Touch>, touch: Touch) -> Result<(), AllocError>
    ensures { OnOk result (IsPut touches.old.items touch touches.new.items) }
{
    let mut at: usize = 0;
    while at < touches.len() && touches[at] < touch {
        at += 1;
    }
    if at < touches.len() && touches[at] == touch {
        return Ok(());
    }
    touches.insert(at, touch)?;
    Ok(())
}

/// Whether this is a touch of the thread that isn't plain.
fn is_atomic(touch: Touch, thread: usize) -> bool
    ensures { IsTrue result ↔ (touch.thread ≡ thread) × (touch.access.plain ≡ false) }
{
    touch.thread == thread && !touch.access.plain
}

/// Whether all touches of the thread are plain.
pub(crate) fn are_plain(owned: &[Touch], thread: usize) -> bool
    ensures { result ≡ true → ArePlainOf owned.now thread }
{
    for touch in owned {
        if is_atomic(*touch, thread) {
            return false;
        }
    }
    true
}

/// Whether each byte of the second is one of the first.
fn covers(a: NextAccess, b: NextAccess) -> bool
    ensures { IsTrue result ↔ Covers a b }
{
    a.addr <= b.addr && b.addr - a.addr <= a.width && b.width <= a.width - (b.addr - a.addr)
}

/// Whether the one writes over what the other would write, and may not where it finds something else.
fn writes_over(over: NextAccess, access: NextAccess) -> bool
    ensures { IsTrue result ↔ WritesOver over access }
{
    are_matched(access, over)
        && covers(over, access)
        && access.writes
        && access.is_conditional
        && over.writes
        && !over.reads
}

/// What another thread does next, if this access of thread n writes over that.
pub(crate) fn over_at(
    next: Option<NextAccess>,
    other: usize,
    n: usize,
    access: NextAccess,
) -> Option<NextAccess>
    ensures some { IfSome result (λ b. (next ≡ Some b) × (other ≢ n) × WritesOver access b) }
    ensures none { IfNone result ((b : _) → next ≡ Some b → other ≢ n → WritesOver access b → ⊥) }
{
    let next = next?;
    if other != n && writes_over(access, next) {
        Some(next)
    } else {
        None
    }
}

/// Puts a touch of each other thread over whose next access this one of thread n writes; or answers with such a thread and
/// one whose touch that access races with.
pub(crate) fn put_over(
    touches: &mut Vec<Touch>,
    wanted: &[Option<NextAccess>],
    n: usize,
    access: NextAccess,
) -> Result<Option<ThreadRace>, AllocError>
    ensures none { IfOk result (λ o. IfNone o (ArePutOver wanted.now n access touches.old.items touches.new.items)) }
    ensures some { IfOk result (λ o. IfSome o (λ r. AreInTheWay wanted.now touches.old.items r.one r.other)) }
{
    for other in 0..wanted.len() {
        if let Some(next) = over_at(wanted[other], other, n, access) {
            if let Some(one) = struck(touches.as_slice(), other, next) {
                return Ok(Some(ThreadRace { one, other }));
            }
            let touch = Touch {
                thread: other,
                access: next,
            };
            put(touches, touch)?;
        }
    }
    Ok(None)
}
