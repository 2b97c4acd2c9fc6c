//! How threads end.
ghost use Rattle.std.specs.Prelude.{◌≡◌};
ghost use Rattle.types.specs.Outcomes.{trap_number, stop_number};

use crate::value::Value;
use std::fmt;

/// Why an instruction couldn't be executed (Core specification 1.0, section 4.4; threads proposal; the last is the
/// limit of 65,536 values and 1,000 frames).
#[derive(Clone, Copy, PartialEq, Eq, Debug)]
pub enum Trap {
    Unreachable,
    DivideByZero,
    IntegerOverflow,
    OutOfBounds,
    UnalignedAtomic,
    NotShared,
    UndefinedElement,
    UninitializedElement,
    SignatureMismatch,
    StackExhausted,
}

impl Trap {
    /// The trap's number in a record, 1 to 10.
    pub fn number(self) -> u8
        ensures { result ≡ trap_number self }
    {
        match self {
            Trap::Unreachable => 1,
            Trap::DivideByZero => 2,
            Trap::IntegerOverflow => 3,
            Trap::OutOfBounds => 4,
            Trap::UnalignedAtomic => 5,
            Trap::NotShared => 6,
            Trap::UndefinedElement => 7,
            Trap::UninitializedElement => 8,
            Trap::SignatureMismatch => 9,
            Trap::StackExhausted => 10,
        }
    }
}

/// The trap's words, as they are printed.
impl fmt::Display for Trap {
    ghost use Rattle.std.specs.Prelude.{Some};
    ghost use Rattle.types.specs.Outcomes.{trap_words};

    ghost output = { λ t. Some (trap_words t) };

    fn fmt<W: fmt::Write>(&self, f: &mut fmt::Formatter<W>) -> fmt::Result {
        f.write_str(match self {
            Trap::Unreachable => "unreachable",
            Trap::DivideByZero => "divide by zero",
            Trap::IntegerOverflow => "integer overflow",
            Trap::OutOfBounds => "out of bounds",
            Trap::UnalignedAtomic => "unaligned atomic",
            Trap::NotShared => "not shared",
            Trap::UndefinedElement => "undefined element",
            Trap::UninitializedElement => "uninitialized element",
            Trap::SignatureMismatch => "signature mismatch",
            Trap::StackExhausted => "stack exhausted",
        })
    }
}

/// Why a thread was stopped though no instruction trapped.
#[derive(Clone, Copy, PartialEq, Eq, Debug)]
pub enum Stop {
    /// Its budget of units is spent.
    OutOfFuel,
    /// It sleeps, and nobody is left who could wake it.
    AsleepForGood,
    /// The record of the run takes no further entry.
    RecordFull,
}

impl Stop {
    /// The stop's number in a record, 1 to 3.
    pub fn number(self) -> u8
        ensures { result ≡ stop_number self }
    {
        match self {
            Stop::OutOfFuel => 1,
            Stop::AsleepForGood => 2,
            Stop::RecordFull => 3,
        }
    }
}

/// The stop's words, as they are printed.
impl fmt::Display for Stop {
    ghost use Rattle.std.specs.Prelude.{Some};
    ghost use Rattle.types.specs.Outcomes.{stop_words};

    ghost output = { λ s. Some (stop_words s) };

    fn fmt<W: fmt::Write>(&self, f: &mut fmt::Formatter<W>) -> fmt::Result {
        f.write_str(match self {
            Stop::OutOfFuel => "out of fuel",
            Stop::AsleepForGood => "asleep for good",
            Stop::RecordFull => "record full",
        })
    }
}

/// How a thread ended.
#[derive(Clone, Copy, PartialEq, Eq, Debug)]
pub enum Outcome {
    /// Its function returned, with a value where its type has a result.
    Done(Option<Value>),
    Trap(Trap),
    Stop(Stop),
}

/// What is printed behind the thread's number: `ok`, `ok i32:V`, `ok i64:V`, `trap WORDS` or `stop WORDS`.
impl fmt::Display for Outcome {
    ghost use Rattle.std.specs.Prelude.{Some};
    ghost use Rattle.types.specs.Outcomes.{outcome_text};

    ghost output = { λ o. Some (outcome_text o) };

    fn fmt<W: fmt::Write>(&self, f: &mut fmt::Formatter<W>) -> fmt::Result {
        match *self {
            Outcome::Done(None) => f.write_str("ok"),
            Outcome::Done(Some(value)) => write!(f, "ok {value}"),
            Outcome::Trap(trap) => write!(f, "trap {trap}"),
            Outcome::Stop(stop) => write!(f, "stop {stop}"),
        }
    }
}

/// What is reported of a thread: how it ended, and the units that it spent.
#[derive(Clone, Copy, PartialEq, Eq, Debug)]
pub struct ThreadReport {
    pub outcome: Outcome,
    /// From 0 to the budget.
    pub spent: u64,
}
