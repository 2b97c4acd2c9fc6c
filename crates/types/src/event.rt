//! Events of threads, the replies to them, and the entries that both make in a history.

/// How a read-modify-write makes the new value from the old one and its operand (threads proposal, section
/// "Read-Modify-Write"). The result is taken modulo the width; `Xchg` takes the operand.
#[derive(Clone, Copy, PartialEq, Eq, Debug)]
pub enum RmwOp {
    Add,
    Sub,
    And,
    Or,
    Xor,
    Xchg,
}

/// What a thread wants of the shared memory, or tells it.
///
/// Addresses are effective addresses in bytes, widths are in bytes, page counts in pages of 65,536 bytes.
/// The conditions on the fields, which each call that takes an event asks of its caller:
/// - `Load` and `Store` have a width of 1 to 8 and lie in one aligned 8-byte word; `reach`, the end of the whole
///   access that they are part of, is from `addr + width` to `addr + 8`;
/// - `Rmw` and `Cmpxchg` have a width of 1, 2, 4 or 8 that divides the address;
/// - a value fits its width; the `expected` of `Cmpxchg` may not, and then never matches.
#[derive(Clone, Copy, PartialEq, Eq, Debug)]
pub enum Event {
    /// The page count is asked for.
    Size,
    /// So many pages are asked for.
    Grow(u32),
    /// The number in `width` bytes is read.
    Load {
        addr: u64,
        width: u8,
        reach: u64,
    },
    /// The number is written to `width` bytes.
    Store {
        addr: u64,
        width: u8,
        reach: u64,
        value: u64,
    },
    /// The number is read and a new one written in one step.
    Rmw {
        op: RmwOp,
        addr: u64,
        width: u8,
        value: u64,
    },
    /// The number is read and, where it equals `expected`, replaced in the same step.
    Cmpxchg {
        addr: u64,
        width: u8,
        expected: u64,
        replacement: u64,
    },
    /// A question to the desk.
    Ask(Question),
    /// An answer of the desk is taken.
    Told(Answer),
}

/// What a thread asks of the desk.
///
/// A `Wait` has a width of 4 or 8 that divides its address, and an `expected` that fits it; a `Notify` has an
/// address that 4 divides. A negative `timeout` never ends. Time isn't measured: timeouts are compared alone.
#[derive(Clone, Copy, PartialEq, Eq, Debug)]
pub enum Question {
    /// Sleep while the number at the address is the expected one.
    Wait {
        addr: u64,
        width: u8,
        expected: u64,
        timeout: i64,
    },
    /// Wake so many of those that sleep at the address.
    Notify {
        addr: u64,
        count: u32,
    },
    /// Start a thread with this argument.
    Spawn {
        arg: u32,
    },
    /// The thread ends.
    Leave,
}

/// What the desk answers: a number, or that the thread sleeps for good.
#[derive(Clone, Copy, PartialEq, Eq, Debug)]
pub enum Answer {
    Number(u32),
    ForGood,
}

/// What an event gets.
#[derive(Clone, Copy, PartialEq, Eq, Debug)]
pub enum Reply {
    /// The loaded value, zero-extended, or a page count, or 4294967295 for a refused `Grow`.
    Value(u64),
    /// The event was made and has no value.
    Done,
    /// The access ends past the memory's length, and nothing was changed.
    OutOfBounds,
    /// The try was lost to another thread, and nothing was entered: the event may be tried again.
    Again,
    /// The log is full, and nothing was entered.
    Full,
}

/// One entry of a history: who made which event, and what it got.
#[derive(Clone, Copy, PartialEq, Eq)]
pub struct Entry {
    /// The thread's number, 0 to 63.
    pub thread: u32,
    pub event: Event,
    pub reply: Reply,
}
