//! What a thread does with the memory next.

ghost use Rattle.std.specs.Prelude.{◌≡◌, ◌≤◌, ◌+◌, ◌==◌, length, nat_le, Bool, true, false, not};
ghost use Rattle.types.specs.declared.event.Event.TheVariants.{Ask, Grow};
ghost use Rattle.shared_memory.specs.Events.{IsEvent};
ghost use Rattle.shared_memory.specs.Memory.{Memory, can_grow, loaded};
ghost use Rattle.search_memory.specs.Memories.{memory_of};
ghost use Rattle.search_runs.specs.Accesses.{no_bytes, look, growth, in_bounds, with_timeout, access_by};
ghost use Rattle.search_runs.specs.Accesses.{is_to_bytes, judged, may_race};
ghost use Rattle.search_parts.specs.Threads.{IsInCall, IsAccessIn};

use crate::plain::is_plain;
use crate::shared::{Common, HashedThread};
use crate::wants::wanted;
use allowed_races::Allowed;
use search_memory::{Changes, can_grow, holds};
use search_settled::NextAccess;
use types::{Event, Question};
use validate_module::ValidModule;

/// No byte.
fn no_bytes() -> NextAccess
    ensures { result ≡ no_bytes }
{
    NextAccess {
        plain: false,
        reads: false,
        writes: false,
        is_conditional: false,
        is_timed: false,
        is_allowed: false,
        addr: 0,
        width: 0,
    }
}

/// A byte that no memory has.
const NO_MEMORY_HAS: u64 = 1 << 32;

/// What looks how many pages there are.
fn look() -> NextAccess
    ensures { result ≡ look }
{
    NextAccess {
        plain: false,
        reads: true,
        writes: false,
        is_conditional: false,
        is_timed: false,
        is_allowed: false,
        addr: NO_MEMORY_HAS,
        width: 1,
    }
}

/// A growth of a memory that opens with so many bytes, by so many pages, where it has room for them.
fn growth(opening: &[u8], memory: &Changes, more: u32) -> NextAccess
    ensures { result ≡ access_by (length opening.now) (memory_of opening.now memory.now) false (Grow more) }
{
    if can_grow(opening, memory, more) {
        NextAccess {
            plain: false,
            reads: true,
            writes: true,
            is_conditional: false,
            is_timed: false,
            is_allowed: false,
            addr: opening.len() as u64,
            width: NO_MEMORY_HAS + 1,
        }
    } else {
        no_bytes()
    }
}

/// Whether so many bytes from an address on end there at the latest. Their end may pass the last address.
fn ends_by(addr: u64, width: u8, end: u64) -> bool
    ensures { result ≡ nat_le (addr + width) end }
{
    addr <= end && u64::from(width) <= end - addr
}

/// A load or a store, whose whole access ends at `reach`, in a memory of so many bytes: a store reads nothing.
fn load_or_store(
    len: u64,
    plain: bool,
    writes: bool,
    addr: u64,
    width: u8,
    reach: u64,
) -> NextAccess
    ensures { (m : Memory) → length m.bytes ≡ len → result ≡ in_bounds m plain (not writes) writes false addr width reach }
{
    if reach <= len {
        NextAccess {
            plain: plain && ends_by(addr, width, reach),
            reads: !writes,
            writes,
            is_conditional: false,
            is_timed: false,
            is_allowed: false,
            addr,
            width: u64::from(width),
        }
    } else {
        look()
    }
}

/// An atomic access that reads, in a memory of so many bytes; and whether its writing hangs on what it finds.
fn atomic(len: u64, writes: bool, is_conditional: bool, addr: u64, width: u8) -> NextAccess
    ensures { (m : Memory) → length m.bytes ≡ len
        → result ≡ in_bounds m false true writes is_conditional addr width (addr + width) }
{
    if ends_by(addr, width, len) {
        NextAccess {
            plain: false,
            reads: true,
            writes,
            is_conditional,
            is_timed: false,
            is_allowed: false,
            addr,
            width: u64::from(width),
        }
    } else {
        look()
    }
}

/// A compare-exchange: it writes where what it expects is there, and not otherwise.
fn exchange(opening: &[u8], memory: &Changes, addr: u64, width: u8, expected: u64) -> NextAccess
    requires { width ≤ 8 }
    ensures { result ≡ in_bounds (memory_of opening.now memory.now) false true
        (loaded (memory_of opening.now memory.now) addr width == expected) true addr width (addr + width) }
{
    let writes = holds(opening, memory, addr, width, expected);
    atomic(memory.len as u64, writes, true, addr, width)
}

/// A wait, which reads, in a memory of so many bytes.
fn wait(len: u64, addr: u64, width: u8, timeout: i64) -> NextAccess
    ensures { (m : Memory) → length m.bytes ≡ len
        → result ≡ with_timeout timeout (in_bounds m false true false false addr width (addr + width)) }
{
    let mut access = atomic(len, false, false, addr, width);
    access.is_timed = timeout > 0;
    access
}

/// What a question does with a memory of so many bytes that opened with so many: a wait reads, and a notify may look.
fn asked(opening: u64, len: u64, question: Question) -> NextAccess
    ensures { (m : Memory) (plain : Bool) → length m.bytes ≡ len → result ≡ access_by opening m plain (Ask question) }
{
    match question {
        Question::Wait {
            addr,
            width,
            timeout,
            ..
        } => wait(len, addr, width, timeout),
        Question::Notify { addr, .. } => {
            if ends_by(addr, 4, opening) {
                no_bytes()
            } else {
                look()
            }
        }
        Question::Spawn { .. } | Question::Leave => no_bytes(),
    }
}

/// What an event does with the memory, by an instruction that is a load or a store, or by an atomic one.
fn access_by(opening: &[u8], memory: &Changes, plain: bool, event: &Event) -> NextAccess
    requires { IsEvent event.now }
    ensures { result ≡ access_by (length opening.now) (memory_of opening.now memory.now) plain event.now }
{
    let len = memory.len as u64;
    match *event {
        Event::Load { addr, width, reach } => load_or_store(len, plain, false, addr, width, reach),
        Event::Store {
            addr,
            width,
            reach,
            ..
        } => load_or_store(len, plain, true, addr, width, reach),
        Event::Rmw { addr, width, .. } => atomic(len, true, false, addr, width),
        Event::Cmpxchg {
            addr,
            width,
            expected,
            ..
        } => exchange(opening, memory, addr, width, expected),
        Event::Ask(question) => asked(opening.len() as u64, len, question),
        Event::Size => no_bytes(),
        Event::Grow(more) => growth(opening, memory, more),
        Event::Told(_) => no_bytes(),
    }
}

/// Whether an access is to bytes that a memory can have.
fn is_to_bytes(access: NextAccess) -> bool
    ensures { result ≡ is_to_bytes access }
{
    access.addr <= NO_MEMORY_HAS && access.width <= NO_MEMORY_HAS - access.addr
}

/// Whether all its bytes may race.
fn may_race(allowed: &Allowed, access: NextAccess) -> bool
    ensures { result ≡ may_race allowed.now access }
{
    is_to_bytes(access) && allowed.has(access.addr, access.width)
}

/// An access, where so much may race.
fn judged(allowed: &Allowed, access: NextAccess) -> NextAccess
    ensures { result ≡ judged allowed.now access }
{
    let may_race = may_race(allowed, access);
    let is_to_bytes = is_to_bytes(access);
    NextAccess {
        plain: access.plain && !may_race,
        is_allowed: may_race || (allowed.mixed && is_to_bytes),
        ..access
    }
}

/// What thread n does with the memory next, if it can go on, where so much may race.
pub fn next_access(
    valid: &ValidModule,
    allowed: &Allowed,
    opening: &[u8],
    shared: &Common,
    thread: &HashedThread,
    n: usize,
) -> Option<NextAccess>
    requires { IsInCall valid.now opening.now shared.now thread.now.standing n }
    ensures { IsAccessIn valid.now allowed.now opening.now shared.now thread.now.standing n result }
{
    let event = wanted(&thread.standing)?;
    let plain = is_plain(valid, &thread.standing);
    let access = access_by(opening, &shared.memory, plain, &event);
    Some(judged(allowed, access))
}
