//! What an entry does: the accesses that it makes, each to a location.
ghost use Rattle.std.specs.Prelude.{◌≡◌, ◌++◌, ◌+◌, IfOk, OnOk, nat_lt, true, false};
ghost use Rattle.std.specs.Option.{option_to_list};
ghost use Rattle.race_history.specs.Accesses.{accesses_of, bytes_of, bytes_within, call_of, call_within, changing};
ghost use Rattle.race_history.specs.Accesses.{counting, end_of, entering, has_value, is_atomic, is_atomic_by, is_out_of_bounds};
ghost use Rattle.race_history.specs.Accesses.{each_byte, judged, one_byte, pages_of, reading};
ghost use Rattle.race_history.specs.Tests.{are_alike, are_matched, conflicts, is_same, location_number, overlap};
ghost use Rattle.race_history.specs.Tests.{touches};
ghost use Rattle.race_history.specs.declared.access.Location.TheVariants.{Waiters, Threads};

use std::alloc::{AllocError, Global};
use types::{Entry, Event, Question, Reply};

/// By which instruction an access was made: a plain one or an atomic one.
#[derive(Clone, Copy, PartialEq, Eq, Debug)]
pub enum AccessKind {
    Plain,
    Atomic,
}

/// What an access is to.
#[derive(Clone, Copy, PartialEq, Eq, Debug)]
pub enum Location {
    /// Bytes of the memory.
    Bytes,
    /// The number of the memory's pages.
    Pages,
    /// The list of those that wait at an address.
    Waiters,
    /// How many threads were started.
    Threads,
}

/// The instruction that made an entry.
#[derive(Clone, Copy, PartialEq, Eq, Debug)]
pub struct Site {
    pub kind: AccessKind,
    /// A number of its place in the code. Two are equal exactly where the places are.
    pub code: u64,
    /// Whether each byte of its access is one of its own, and atomic, so that it races with no other such byte.
    pub is_allowed: bool,
}

/// An access to a location.
#[derive(Clone, Copy, PartialEq, Eq, Debug)]
pub struct ThreadAccess {
    /// The thread's number.
    pub thread: u32,
    pub location: Location,
    /// The first byte's address, or that of the list of waiters. Elsewhere 0.
    pub addr: u64,
    /// How many bytes, 1 to 8. They lie in one aligned 8-byte word. Elsewhere 1.
    pub width: u8,
    pub reads: bool,
    pub writes: bool,
    pub atomic: bool,
    /// Of an access to bytes the number of the instruction's place. Elsewhere 0: such accesses of one thread are the
    /// same wherever they are made.
    pub code: u64,
}

/// What a refused `Grow` gets.
const REFUSED: u64 = 4294967295;

/// Whether the value that was read is this one.
fn has_value(reply: Reply, n: u64) -> bool
    ensures { result ≡ has_value reply n }
{
    match reply {
        Reply::Value(v) => v == n,
        _ => false,
    }
}

/// Whether the event ended past the memory's length.
pub(crate) fn is_out_of_bounds(reply: Reply) -> bool
    ensures { result ≡ is_out_of_bounds reply }
{
    match reply {
        Reply::OutOfBounds => true,
        _ => false,
    }
}

fn is_atomic(kind: AccessKind) -> bool
    ensures { result ≡ is_atomic kind }
{
    match kind {
        AccessKind::Plain => false,
        AccessKind::Atomic => true,
    }
}

/// Whether its access counts as atomic.
fn is_atomic_by(site: &Site) -> bool
    ensures { result ≡ is_atomic_by site.now }
{
    is_atomic(site.kind) || site.is_allowed
}

/// An access to bytes that reads alone.
fn reading(thread: u32, addr: u64, width: u8, atomic: bool, code: u64) -> ThreadAccess
    ensures { result ≡ reading thread addr width atomic code }
{
    ThreadAccess {
        thread,
        location: Location::Bytes,
        addr,
        width,
        reads: true,
        writes: false,
        atomic,
        code,
    }
}

/// An atomic access to bytes that reads and may write.
fn changing(thread: u32, addr: u64, width: u8, writes: bool, code: u64) -> ThreadAccess
    ensures { result ≡ changing thread addr width writes code }
{
    ThreadAccess {
        thread,
        location: Location::Bytes,
        addr,
        width,
        reads: true,
        writes,
        atomic: true,
        code,
    }
}

/// An access to the list of waiters at an address, or to the count of threads.
fn entering(thread: u32, location: Location, addr: u64) -> ThreadAccess
    ensures { result ≡ entering thread location addr }
{
    ThreadAccess {
        thread,
        location,
        addr,
        width: 1,
        reads: true,
        writes: true,
        atomic: true,
        code: 0,
    }
}

/// An access to the number of pages.
fn counting(thread: u32, writes: bool, atomic: bool) -> ThreadAccess
    ensures { result ≡ counting thread writes atomic }
{
    ThreadAccess {
        thread,
        location: Location::Pages,
        addr: 0,
        width: 1,
        reads: true,
        writes,
        atomic,
        code: 0,
    }
}

/// The access to bytes that an event makes within bounds.
fn bytes_within(thread: u32, event: Event, reply: Reply, site: &Site) -> Option<ThreadAccess>
    ensures { result ≡ bytes_within thread event reply site.now }
{
    match event {
        Event::Load {
            addr,
            width,
            reach: _,
        } => Some(reading(thread, addr, width, is_atomic_by(site), site.code)),
        Event::Store {
            addr,
            width,
            reach: _,
            value: _,
        } => Some(ThreadAccess {
            thread,
            location: Location::Bytes,
            addr,
            width,
            reads: false,
            writes: true,
            atomic: is_atomic_by(site),
            code: site.code,
        }),
        Event::Rmw {
            op: _,
            addr,
            width,
            value: _,
        } => Some(changing(thread, addr, width, true, site.code)),
        Event::Cmpxchg {
            addr,
            width,
            expected,
            replacement: _,
        } => Some(changing(thread, addr, width, has_value(reply, expected), site.code)),
        Event::Ask(
            Question::Wait {
                addr,
                width,
                expected: _,
                timeout: _,
            },
        ) => Some(reading(thread, addr, width, true, site.code)),
        _ => None,
    }
}

/// The access to bytes that an entry makes.
pub fn bytes_of(entry: &Entry, site: &Site) -> Option<ThreadAccess>
    ensures { result ≡ bytes_of entry.now site.now }
{
    if is_out_of_bounds(entry.reply) {
        return None;
    }
    bytes_within(entry.thread, entry.event, entry.reply, site)
}

/// The access that a question makes to the list of waiters, or to the count of threads, within bounds.
fn call_within(thread: u32, event: Event) -> Option<ThreadAccess>
    ensures { result ≡ call_within thread event }
{
    match event {
        Event::Ask(
            Question::Wait {
                addr,
                width: _,
                expected: _,
                timeout: _,
            },
        ) => Some(entering(thread, Location::Waiters, addr)),
        Event::Ask(Question::Notify { addr, count: _ }) => Some(entering(
            thread,
            Location::Waiters,
            addr,
        )),
        Event::Ask(Question::Spawn { arg: _ }) => Some(entering(thread, Location::Threads, 0)),
        _ => None,
    }
}

/// The access that an entry makes to the list of waiters, or to the count of threads.
fn call_of(entry: &Entry) -> Option<ThreadAccess>
    ensures { result ≡ call_of entry.now }
{
    if is_out_of_bounds(entry.reply) {
        return None;
    }
    call_within(entry.thread, entry.event)
}

/// Where the bytes end that a bounds check is for; 0 where there is none.
fn end_of(event: Event) -> u128
    ensures { result ≡ end_of event }
{
    match event {
        Event::Load {
            addr: _,
            width: _,
            reach,
        } => u128::from(reach),
        Event::Store {
            addr: _,
            width: _,
            reach,
            value: _,
        } => u128::from(reach),
        Event::Rmw {
            op: _,
            addr,
            width,
            value: _,
        } => u128::from(addr) + u128::from(width),
        Event::Cmpxchg {
            addr,
            width,
            expected: _,
            replacement: _,
        } => u128::from(addr) + u128::from(width),
        Event::Ask(
            Question::Wait {
                addr,
                width,
                expected: _,
                timeout: _,
            },
        ) => u128::from(addr) + u128::from(width),
        Event::Ask(Question::Notify { addr, count: _ }) => u128::from(addr) + 4,
        _ => 0,
    }
}

/// The access that an entry makes to the number of pages: `opening` is the length in bytes of those with which the
/// memory opens.
fn pages_of(entry: &Entry, opening: u64) -> Option<ThreadAccess>
    ensures { result ≡ pages_of entry.now opening }
{
    match entry.event {
        Event::Size => Some(counting(entry.thread, false, true)),
        Event::Grow(_) => Some(counting(entry.thread, !has_value(entry.reply, REFUSED), true)),
        _ => {
            if u128::from(opening) < end_of(entry.event) {
                Some(counting(entry.thread, false, false))
            } else {
                None
            }
        }
    }
}

/// The access to one of an access's bytes, so many behind the first, as far as there are addresses: atomic.
fn one_byte(access: ThreadAccess, behind: u8) -> ThreadAccess
    ensures { result ≡ one_byte access behind }
{
    ThreadAccess {
        addr: access.addr.saturating_add(u64::from(behind)),
        width: 1,
        atomic: true,
        ..access
    }
}

/// Puts the accesses to each byte of an access behind the others.
fn push_each(made: &mut Vec<ThreadAccess>, access: ThreadAccess) -> Result<(), AllocError>
    ensures { OnOk result (made.new.items ≡ made.old.items ++ each_byte access access.width) }
{
    for behind in 0..access.width {
        made.push(one_byte(access, behind))?;
    }
    Ok(())
}

/// Puts the accesses to bytes behind the others that an entry's one is, if there is one.
fn push_judged(
    made: &mut Vec<ThreadAccess>,
    is_allowed: bool,
    access: Option<ThreadAccess>,
) -> Result<(), AllocError>
    ensures { OnOk result (made.new.items ≡ made.old.items ++ judged access is_allowed) }
{
    let Some(access) = access else {
        return Ok(());
    };
    if is_allowed {
        return push_each(made, access);
    }
    made.push(access)?;
    Ok(())
}

/// Puts an access behind the others, if there is one.
fn push_some(made: &mut Vec<ThreadAccess>, access: Option<ThreadAccess>) -> Result<(), AllocError>
    ensures { OnOk result (made.new.items ≡ made.old.items ++ option_to_list access) }
{
    if let Some(access) = access {
        made.push(access)?;
    }
    Ok(())
}

/// The accesses that an entry makes, where the memory opens with pages of so many bytes.
///
/// # Errors
/// Where memory is refused.
pub fn accesses_of(
    alloc: Global,
    entry: &Entry,
    site: &Site,
    opening: u64,
) -> Result<Vec<ThreadAccess>, AllocError>
    ensures { IfOk result (λ v. v.items ≡ accesses_of entry.now site.now opening) }
{
    let mut made = Vec::new(alloc);
    push_judged(&mut made, site.is_allowed, bytes_of(entry, site))?;
    push_some(&mut made, call_of(entry))?;
    push_some(&mut made, pages_of(entry, opening))?;
    Ok(made)
}

/// A number of each location.
fn location_number(location: Location) -> u8
    ensures { result ≡ location_number location }
{
    match location {
        Location::Bytes => 0,
        Location::Pages => 1,
        Location::Waiters => 2,
        Location::Threads => 3,
    }
}

/// Whether two locations are the same.
fn are_alike(a: Location, b: Location) -> bool
    ensures { result ≡ are_alike a b }
{
    location_number(a) == location_number(b)
}

/// Whether two accesses have a byte in common, if they are to one location.
fn overlap(a: &ThreadAccess, b: &ThreadAccess) -> bool
    ensures { result ≡ overlap a.now b.now }
{
    if a.addr <= b.addr {
        b.addr - a.addr < u64::from(a.width)
    } else {
        a.addr - b.addr < u64::from(b.width)
    }
}

/// Whether two accesses are to one location and have a byte in common.
pub(crate) fn touches(a: &ThreadAccess, b: &ThreadAccess) -> bool
    ensures { result ≡ touches a.now b.now }
{
    are_alike(a.location, b.location) && overlap(a, b)
}

/// Whether both are atomic, of exactly the same bytes of one location.
pub(crate) fn are_matched(a: &ThreadAccess, b: &ThreadAccess) -> bool
    ensures { result ≡ are_matched a.now b.now }
{
    a.atomic
        && b.atomic
        && are_alike(a.location, b.location)
        && a.addr == b.addr
        && a.width == b.width
}

/// Whether two accesses of two threads touch a byte in common, one writes, and they aren't matched.
pub(crate) fn conflicts(a: &ThreadAccess, b: &ThreadAccess) -> bool
    ensures { result ≡ conflicts a.now b.now }
{
    a.thread != b.thread && touches(a, b) && (a.writes || b.writes) && !are_matched(a, b)
}

/// Whether two accesses are the same.
pub(crate) fn is_same(a: &ThreadAccess, b: &ThreadAccess) -> bool
    ensures { result ≡ is_same a.now b.now }
{
    a.code == b.code
        && a.thread == b.thread
        && are_alike(a.location, b.location)
        && a.addr == b.addr
        && a.width == b.width
        && a.reads == b.reads
        && a.writes == b.writes
        && a.atomic == b.atomic
}
