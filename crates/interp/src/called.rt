//! A thread that runs by the tables of its module, before its first turn.

use crate::entry::start;
use crate::thread::Thread;
use std::alloc::{AllocError, Global};
use types::Value;
use validate_module::ValidModule;

impl<'m> Thread<'m> {
    ghost use Rattle.std.specs.Prelude.{◌≡◌, IfOk};
    ghost use Rattle.interp.specs.Kept.{RunsBy};
    ghost use Rattle.interp.specs.Starts.{TakesArguments};
    ghost use Rattle.interp.specs.Threads.{StandsForCall};
    ghost use Rattle.interp.specs.Room.{HasRoom};

    /// A thread that is about to call a function of the module itself, from 0 without the imported ones, with these
    /// arguments.
    ///
    /// # Errors
    /// Where memory is refused.
    pub fn of_function(
        alloc: Global,
        valid: &'m ValidModule,
        own: usize,
        args: &[Value],
        fuel: u64,
    ) -> Result<Thread<'m>, AllocError>
        requires { TakesArguments valid.now.parts own args.now }
        ensures budget { IfOk result (λ thread. thread.fuel ≡ fuel) }
        ensures runs_by { IfOk result (RunsBy valid.now) }
        ensures stands { IfOk result (StandsForCall valid.now.parts own args.now fuel) }
        ensures room { IfOk result (λ thread. HasRoom thread.state) }
    {
        Ok(Thread {
            parts: valid.parts(),
            state: start(alloc, valid, own, args)?,
            left: fuel,
            fuel,
            ended: None,
        })
    }
}
