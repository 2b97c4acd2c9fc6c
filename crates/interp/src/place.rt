//! Where a thread stands: its place in its function, and its callers.

use crate::thread::Thread;
use interp_state::Caller;

/// A place in a module: a function of the module itself, from 0, and the number of an instruction in its flat code.
#[derive(Clone, Copy, PartialEq, Eq)]
pub struct CodePlace {
    pub function: usize,
    pub instr: usize,
}

impl Thread<'_> {
    ghost use Rattle.interp.specs.Threads.{StandsWith};
    ghost use Rattle.interp.specs.Places.{IsAtPlace, IsStatePlace, HasCallers};

    /// Where the instruction stands that comes next in it; the one at which it ended, if it has.
    pub fn place(&self) -> CodePlace
        ensures next { StandsWith self.now (IsAtPlace self.now.parts.now result.function result.instr) }
        ensures last { IsStatePlace self.now.state result }
    {
        CodePlace {
            function: self.state.function,
            instr: self.state.pc,
        }
    }

    /// The functions that called the one that runs, the outermost first.
    pub fn callers(&self) -> &[Caller]
        ensures { StandsWith self.now (HasCallers self.now.parts.now result.now) }
    {
        self.state.callers.as_slice()
    }
}
