//! What a call answers beside its status.
ghost use Rattle.std.specs.Prelude.{◌≡◌, length};
ghost use Rattle.wathread_c.specs.Answers.{Puts};

use types::{Outcome, ThreadReport, Value};

/// What a call answers beside its status: how long the texts are, and of a run how thread 0 ended.
#[repr(C)]
#[derive(Clone, Copy, PartialEq, Eq)]
pub struct CallAnswer {
    /// How many bytes the object of JSON has.
    pub text: usize,
    /// How many bytes the record has, or the memory.
    pub bytes: usize,
    /// How many units thread 0 spent.
    pub units: u64,
    /// What its function returned.
    pub value: u64,
    /// How it ended: 0 not at all, 1 with nothing, 2 with an i32, 3 with an i64, 4 by a trap, 5 by a stop.
    pub kind: u32,
    /// The number of the trap or stop.
    pub number: u32,
}

impl CallAnswer {
    /// Nothing.
    pub(crate) fn none() -> CallAnswer
        ensures { result ≡ Rattle.wathread_c.specs.Answers.no_answer }
    {
        CallAnswer {
            text: 0,
            bytes: 0,
            units: 0,
            value: 0,
            kind: 0,
            number: 0,
        }
    }

    /// With how a thread ended.
    pub(crate) fn with(self, report: &ThreadReport) -> CallAnswer
        ensures { result ≡ Rattle.wathread_c.specs.Answers.answer_with self report.now }
    {
        let (kind, number, value) = match report.outcome {
            Outcome::Done(None) => (1, 0, 0),
            Outcome::Done(Some(Value::I32(value))) => (2, 0, value as u64),
            Outcome::Done(Some(Value::I64(value))) => (3, 0, value),
            Outcome::Trap(trap) => (4, trap.number() as u32, 0),
            Outcome::Stop(stop) => (5, stop.number() as u32, 0),
        };
        CallAnswer {
            units: report.spent,
            value,
            kind,
            number,
            ..self
        }
    }
}

/// Puts bytes into a buffer, from its beginning on, where it has room for them; else it stays as it is.
pub(crate) fn put(buffer: &mut [u8], bytes: &[u8])
    ensures { Puts buffer.old bytes.now buffer.new }
{
    if bytes.len() <= buffer.len() {
        buffer[..bytes.len()].copy_from_slice(bytes);
    }
}
