//! A thread between two turns, in few bytes, and the thread that goes on from there.

ghost use Rattle.std.specs.Prelude.{◌≡◌, IfOk, length, max, vec_capacity};

use crate::opening::program;
use crate::thread::Thread;
use interp_state::{Caller, Progress, State, code_of};
use std::alloc::{AllocError, Global};
use types::{MOST_FRAMES, MOST_VALUES, Value};
use validate_module::ValidModule;

/// What of a thread that runs two of one module may differ in, their units aside. Equal ones stand for the same
/// configurations.
#[derive(PartialEq, Eq, Drop)]
pub struct Kept {
    /// The number of the function that runs, from 0; the imported ones aren't counted.
    pub function: usize,
    /// The number of the instruction that comes next.
    pub pc: usize,
    /// Where the locals of the function start among the values.
    pub base: usize,
    /// Where its operands start.
    pub operands: usize,
    /// How many results it has.
    pub results: usize,
    /// The words of the locals and the operands of each open function, the outermost first.
    pub values: Vec<u64>,
    pub globals: Vec<Value>,
    /// The calling functions, the outermost first.
    pub callers: Vec<Caller>,
    pub progress: Progress,
}

/// A copy, with room for so many items, or for its own where they are more.
fn copied_with_room<T: Copy>(alloc: Global, items: &[T], room: usize) -> Result<Vec<T>, AllocError>
    ensures items { IfOk result (λ v. v.items ≡ items.now) }
    ensures room { IfOk result (λ v. vec_capacity v ≡ max room (length items.now)) }
{
    let mut all = Vec::with_capacity(alloc, room.max(items.len()))?;
    for item in items {
        all.push_reserved(*item);
    }
    Ok(all)
}

/// A copy, with room for its items alone.
fn copied<T: Copy>(alloc: Global, items: &[T]) -> Result<Vec<T>, AllocError>
    ensures items { IfOk result (λ v. v.items ≡ items.now) }
    ensures room { IfOk result (λ v. vec_capacity v ≡ length items.now) }
{
    copied_with_room(alloc, items, items.len())
}

impl Kept {
    ghost use Rattle.interp_state.specs.declared.state.State.{State};
    ghost use Rattle.interp.specs.Kept.{IsOf};
    ghost use Rattle.interp.specs.Room.{HasOwnRoom};

    /// A copy.
    ///
    /// # Errors
    /// Where memory is refused.
    pub fn copy(&self, alloc: Global) -> Result<Kept, AllocError>
        ensures same { IfOk result (λ kept. (s : State) → IsOf self.now s → IsOf kept s) }
        ensures room { IfOk result HasOwnRoom }
    {
        Ok(Kept {
            function: self.function,
            pc: self.pc,
            base: self.base,
            operands: self.operands,
            results: self.results,
            values: copied(alloc, self.values.as_slice())?,
            globals: copied(alloc, self.globals.as_slice())?,
            callers: copied(alloc, self.callers.as_slice())?,
            progress: self.progress,
        })
    }
}

impl<'m> Thread<'m> {
    ghost use Rattle.std.specs.Prelude.{IfOk};
    ghost use Rattle.interp_machine.specs.Config.{Config};
    ghost use Rattle.interp.specs.Kept.{IsKept, IsKeptOf, IsResumed};
    ghost use Rattle.interp.specs.Room.{HasRoom, HasOwnRoom};

    /// What of the thread is more than its module and its units.
    ///
    /// # Errors
    /// Where memory is refused.
    pub fn keep(&self, alloc: Global) -> Result<Kept, AllocError>
        ensures kept { IfOk result (IsKeptOf self.now) }
        ensures room { IfOk result HasOwnRoom }
    {
        let state = &self.state;
        Ok(Kept {
            function: state.function,
            pc: state.pc,
            base: state.base,
            operands: state.operands,
            results: state.results,
            values: copied(alloc, state.values.as_slice())?,
            globals: copied(alloc, state.globals.as_slice())?,
            callers: copied(alloc, state.callers.as_slice())?,
            progress: state.progress,
        })
    }

    /// The thread that goes on from there, with a fresh budget.
    ///
    /// # Errors
    /// Where memory is refused.
    pub fn resume(
        alloc: Global,
        valid: &'m ValidModule,
        kept: &Kept,
        fuel: u64,
    ) -> Result<Thread<'m>, AllocError>
        requires { (c : Config) × IsKept valid.now kept.now c }
        ensures resumed { IfOk result (IsResumed valid.now kept.now fuel) }
        ensures room { IfOk result (λ thread. HasRoom thread.state) }
    {
        let values = copied_with_room(alloc, kept.values.as_slice(), MOST_VALUES)?;
        let callers = copied_with_room(alloc, kept.callers.as_slice(), MOST_FRAMES)?;
        let globals = copied(alloc, kept.globals.as_slice())?;
        let program = program(alloc, valid)?;
        let code = code_of(&program, kept.function);
        let state = State {
            program,
            function: kept.function,
            code: code.code,
            table: code.table,
            flats: code.flats,
            pc: kept.pc,
            base: kept.base,
            operands: kept.operands,
            results: kept.results,
            values,
            globals,
            callers,
            progress: kept.progress,
        };
        Ok(Thread {
            parts: valid.parts(),
            state,
            left: fuel,
            fuel,
            ended: None,
        })
    }
}
