//! What a host gives.
ghost use Rattle.std.specs.Prelude.{◌≡◌, IfOk};
ghost use Rattle.wathread_c.specs.Given.{plan_by, way_by, value_by, values_by};

use host_calls::Plan;
use selection::Way;
use std::alloc::{AllocError, Global};
use types::Value;

/// A value of an argument: of type i64 where `is_wide` isn't 0, and else the low 32 bits.
#[repr(C)]
#[derive(Clone, Copy, PartialEq, Eq)]
pub struct Word {
    pub bits: u64,
    pub is_wide: u32,
}

/// Which run is wanted, and how much it may take.
#[repr(C)]
#[derive(Clone, Copy, PartialEq, Eq)]
pub struct Options {
    pub seed: u64,
    /// The number of the run: it and the seed say which run it is.
    pub run: u64,
    /// How many units each thread may spend, 0 to 1,000,000,000,000.
    pub fuel: u64,
    /// How many entries the log takes, 1 to 1,000,000.
    pub limit: u32,
    /// Who goes on: 0 a mix, 1 anybody, 2 the one with the highest priority, 3 spins.
    pub strategy: u32,
    /// Of priorities: at one point less than this they change, 1 to 32.
    pub depth: u32,
    /// Of a search: how many states are met at most.
    pub states: u32,
    /// How many first bytes of the memory belong to an ending, and are told.
    pub dump: u32,
}

impl Options {
    fn way(&self) -> Way
        ensures { result ≡ way_by self.now }
    {
        match self.strategy {
            1 => Way::Random,
            2 => Way::Priorities(self.depth.clamp(1, 32)),
            3 => Way::Spin,
            _ => Way::Mix,
        }
    }

    /// Which run is wanted.
    pub(crate) fn plan(&self) -> Plan
        ensures { result ≡ plan_by self.now }
    {
        Plan {
            way: self.way(),
            seed: self.seed,
            run: self.run,
            fuel: self.fuel,
            limit: self.limit,
        }
    }
}

fn value_of(word: Word) -> Value
    ensures { result ≡ value_by word }
{
    if word.is_wide == 0 {
        Value::I32((word.bits % (1 << 32)) as u32)
    } else {
        Value::I64(word.bits)
    }
}

/// The values of words.
pub(crate) fn values_of(alloc: Global, words: &[Word]) -> Result<Vec<Value>, AllocError>
    ensures { IfOk result (λ values. values.items ≡ values_by words.now) }
{
    let mut values = Vec::new(alloc);
    for n in 0..words.len() {
        values.push(value_of(words[n]))?;
    }
    Ok(values)
}
