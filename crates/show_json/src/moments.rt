//! Moments of a run: what threads and memory are like before an entry, and behind the last one; and a last write.
ghost use Rattle.std.specs.Prelude.{◌≡◌, IfErr};
ghost use Rattle.replay_forms.specs.Texts.{Wrote};
ghost use Rattle.show_json.specs.Json.{json_line};
ghost use Rattle.show_json.specs.Moments as specified;
ghost use Rattle.show_json.specs.Moments.{cycle_json, end_json, ended_json, last_json, memory_json, moment_json, sleeper_json};
ghost use Rattle.show_json.specs.Moments.{state_json, thread_json, waits_json, wrote_json};
ghost use Rattle.show_json.specs.Unwritten.{LeavesAs};

use crate::bytes::Hex;
use crate::object::{
    ToJson, given, put, put_if, put_list, put_some, send_list, send_two, some, write_line,
};
use crate::rows::NamedRow;
use serde::Serializer;
use shared_memory::Sleeper;
use show_text::Unwritten;
use show_told::ToldFunction;
use std::alloc::Global;
use std::io::Write;
use types::Outcome;

/// How a thread stands to its first entry from a moment on.
#[derive(Clone, Copy, PartialEq, Eq, Debug)]
pub enum ThreadState {
    /// It wants what the entry is.
    Wants,
    /// It is at its end, and leaves by it.
    Ends,
    /// It is its answer, which is due.
    Owed,
    /// It is its answer, and it sleeps.
    Asleep,
    /// It has none: it is gone.
    Gone,
}

fn words_of(state: ThreadState) -> &'static str
    ensures { result.now ≡ specified.state_words state }
{
    match state {
        ThreadState::Wants => "wants",
        ThreadState::Ends => "ends",
        ThreadState::Owed => "owed",
        ThreadState::Asleep => "asleep",
        ThreadState::Gone => "gone",
    }
}

impl ToJson for ThreadState {
    ghost json = { state_json };

    fn send<S: Serializer>(&self, _alloc: Global, out: &mut S) -> Result<(), S::Error> {
        out.str(words_of(*self))
    }
}

/// The last entry that did something, if one did.
#[derive(Drop)]
pub struct LastRow<'a>(pub Option<NamedRow<'a>>);

impl ToJson for LastRow<'_> {
    ghost json = { last_json };

    fn send<S: Serializer>(&self, alloc: Global, out: &mut S) -> Result<(), S::Error> {
        match &self.0 {
            Some(row) => row.send(alloc, out),
            None => out.unit(),
        }
    }
}

/// A thread at a moment.
#[derive(Drop)]
pub struct MomentThread<'a> {
    pub thread: usize,
    pub state: ThreadState,
    /// Its first entry from the moment on.
    pub entry: Option<NamedRow<'a>>,
    /// The question on which it sleeps.
    pub asked: Option<NamedRow<'a>>,
    /// The last write before the moment of the bytes to which it comes, if it comes to some.
    pub last_write: Option<LastRow<'a>>,
    /// Its open functions, the one that runs first.
    pub functions: &'a [ToldFunction<'a>],
}

impl ToJson for MomentThread<'_> {
    ghost json = { thread_json };

    fn send<S: Serializer>(&self, alloc: Global, out: &mut S) -> Result<(), S::Error> {
        let entries = given(&self.entry) + given(&self.asked) + given(&self.last_write);
        out.begin_map(Some(2 + entries + some(self.functions)))?;
        put(alloc, out, "thread", &self.thread)?;
        put(alloc, out, "state", &self.state)?;
        put_if(alloc, out, "entry", &self.entry)?;
        put_if(alloc, out, "asked", &self.asked)?;
        put_if(alloc, out, "last_write", &self.last_write)?;
        put_some(alloc, out, "functions", self.functions)?;
        out.end_map()
    }
}

/// How long a thread sleeps at most; a time below 0 has no end.
fn timeout_of(sleeper: Sleeper) -> Option<u64>
    ensures { result ≡ specified.timeout_of sleeper.timeout }
{
    let timeout = sleeper.timeout;
    if timeout < 0 {
        return None;
    }
    Some(timeout as u64)
}

impl ToJson for Sleeper {
    ghost json = { sleeper_json };

    fn send<S: Serializer>(&self, alloc: Global, out: &mut S) -> Result<(), S::Error> {
        let timeout = timeout_of(*self);
        out.begin_map(Some(2 + given(&timeout)))?;
        put(alloc, out, "thread", &self.thread)?;
        put(alloc, out, "address", &self.addr)?;
        put_if(alloc, out, "timeout", &timeout)?;
        out.end_map()
    }
}

/// Bytes of the memory, from an address on.
#[derive(Clone, Copy)]
pub struct MemoryBytes<'a> {
    pub addr: u64,
    pub bytes: &'a [u8],
}

impl ToJson for MemoryBytes<'_> {
    ghost json = { memory_json };

    fn send<S: Serializer>(&self, alloc: Global, out: &mut S) -> Result<(), S::Error> {
        send_two(
            alloc,
            out,
            ("address", &self.addr),
            ("bytes", &Hex(self.bytes)),
        )
    }
}

/// What threads and memory are like before an entry.
#[derive(Drop)]
pub struct MomentShown<'t, 'a> {
    /// The line that this entry has, or would have behind the last one.
    pub line: u64,
    /// Those that were spawned, from thread 0 on.
    pub threads: &'t [MomentThread<'a>],
    /// The entries with which this one races.
    pub races: &'t [NamedRow<'a>],
    /// Who sleeps, who has slept longest first.
    pub asleep: &'t [Sleeper],
    /// The bytes that are wanted.
    pub memory: Option<MemoryBytes<'t>>,
}

impl ToJson for MomentShown<'_, '_> {
    ghost json = { moment_json };

    fn send<S: Serializer>(&self, alloc: Global, out: &mut S) -> Result<(), S::Error> {
        let others = some(self.races) + some(self.asleep) + given(&self.memory);
        out.begin_map(Some(3 + others))?;
        put(alloc, out, "status", &0u8)?;
        put(alloc, out, "line", &self.line)?;
        put_list(alloc, out, "threads", self.threads)?;
        put_some(alloc, out, "races", self.races)?;
        put_some(alloc, out, "asleep", self.asleep)?;
        put_if(alloc, out, "memory", &self.memory)?;
        out.end_map()
    }
}

/// Where a thread stood that was stopped, and who made the bytes there what they are.
#[derive(Drop)]
pub struct WaitsFor<'a> {
    /// Its last entry that touches bytes.
    pub entry: NamedRow<'a>,
    /// The line since which it touches no others, and how often it touched these.
    pub since: u64,
    pub times: usize,
    /// The last write of these bytes, and that of another thread where the last one is its own.
    pub last_write: LastRow<'a>,
    pub other_write: Option<LastRow<'a>>,
    /// The last notify of their first address.
    pub last_notify: LastRow<'a>,
}

impl ToJson for WaitsFor<'_> {
    ghost json = { waits_json };

    fn send<S: Serializer>(&self, alloc: Global, out: &mut S) -> Result<(), S::Error> {
        out.begin_map(Some(5 + given(&self.other_write)))?;
        put(alloc, out, "entry", &self.entry)?;
        put(alloc, out, "since", &self.since)?;
        put(alloc, out, "times", &self.times)?;
        put(alloc, out, "last_write", &self.last_write)?;
        put_if(alloc, out, "other_write", &self.other_write)?;
        put(alloc, out, "last_notify", &self.last_notify)?;
        out.end_map()
    }
}

/// How a thread ended, and where it stood.
#[derive(Drop)]
pub struct EndedThread<'a> {
    pub thread: usize,
    pub outcome: Outcome,
    /// The open functions of one that trapped or was stopped, the one that ran first.
    pub functions: &'a [ToldFunction<'a>],
    /// What one waits for that was stopped, if it touched any bytes.
    pub waits: Option<WaitsFor<'a>>,
}

impl ToJson for EndedThread<'_> {
    ghost json = { ended_json };

    fn send<S: Serializer>(&self, alloc: Global, out: &mut S) -> Result<(), S::Error> {
        out.begin_map(Some(2 + some(self.functions) + given(&self.waits)))?;
        put(alloc, out, "thread", &self.thread)?;
        put(alloc, out, "outcome", &self.outcome)?;
        put_some(alloc, out, "functions", self.functions)?;
        put_if(alloc, out, "waits", &self.waits)?;
        out.end_map()
    }
}

impl ToJson for Vec<usize> {
    ghost json = { cycle_json };

    fn send<S: Serializer>(&self, alloc: Global, out: &mut S) -> Result<(), S::Error> {
        send_list(alloc, out, self.as_slice())
    }
}

/// How the threads of a run ended.
#[derive(Drop)]
pub struct EndShown<'t, 'a> {
    /// From thread 0 on.
    pub threads: &'t [EndedThread<'a>],
    /// Threads that wait for one another, each for the next, and the last for the first.
    pub cycles: &'t [Vec<usize>],
    pub memory: Option<MemoryBytes<'t>>,
}

impl ToJson for EndShown<'_, '_> {
    ghost json = { end_json };

    fn send<S: Serializer>(&self, alloc: Global, out: &mut S) -> Result<(), S::Error> {
        out.begin_map(Some(2 + some(self.cycles) + given(&self.memory)))?;
        put(alloc, out, "status", &0u8)?;
        put_list(alloc, out, "threads", self.threads)?;
        put_some(alloc, out, "cycles", self.cycles)?;
        put_if(alloc, out, "memory", &self.memory)?;
        out.end_map()
    }
}

struct LastShown<'r, 'a>(&'r LastRow<'a>);

impl Drop for LastShown<'_, '_> {
    fn drop(self) {
        let LastShown(_) = self;
    }
}

impl ToJson for LastShown<'_, '_> {
    ghost json = { λ w. wrote_json w.0.now };

    fn send<S: Serializer>(&self, alloc: Global, out: &mut S) -> Result<(), S::Error> {
        send_two(alloc, out, ("status", &0u8), ("last_write", self.0))
    }
}

/// Writes the object of a moment.
///
/// # Errors
/// Where memory is refused, and then nothing was written; that of the writer, and then what was written isn't said. So
/// of each function here.
pub fn write_moment<W: Write>(
    alloc: Global,
    out: &mut W,
    moment: &MomentShown,
) -> Result<(), Unwritten>
    ensures object { Wrote W.contents out.old out.new result (json_line (moment_json moment.now)) }
    ensures left { IfErr result (LeavesAs out.old out.new) }
{
    write_line(alloc, out, moment)
}

/// Writes the object of how threads ended.
pub fn write_end<W: Write>(alloc: Global, out: &mut W, end: &EndShown) -> Result<(), Unwritten>
    ensures object { Wrote W.contents out.old out.new result (json_line (end_json end.now)) }
    ensures left { IfErr result (LeavesAs out.old out.new) }
{
    write_line(alloc, out, end)
}

/// Writes the object of a last write.
pub fn write_last<W: Write>(alloc: Global, out: &mut W, last: &LastRow) -> Result<(), Unwritten>
    ensures object { Wrote W.contents out.old out.new result (json_line (wrote_json last.now)) }
    ensures left { IfErr result (LeavesAs out.old out.new) }
{
    write_line(alloc, out, &LastShown(last))
}
