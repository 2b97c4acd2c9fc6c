//! What the code of a body may name.

ghost use Rattle.std.specs.List.{slice_get};
ghost use Rattle.validate_typing.specs.declared.fault.Fault.TheVariants.{UnknownLocal, UnknownGlobal, UnknownFunction};
ghost use Rattle.validate_typing.specs.declared.fault.Fault.TheVariants.{UnknownType, UnknownTable, UnknownMemory};
ghost use Rattle.validate_instructions.specs.Scope.{context_of, Gets, GetsAs, NeedsSome};

use crate::problem::Problem;
use types::{FuncType, Global, GlobalType, Limits, ValType};
use validate_typing::Fault;

/// What all code of a module may name (Core specification 1.0, section 3.1.1).
#[derive(Clone, Copy)]
pub struct Declared<'m> {
    pub types: &'m [FuncType],
    /// The index of each function's type, imported functions first.
    pub functions: &'m [u32],
    pub tables: &'m [Limits],
    /// Imported memories first.
    pub memories: &'m [Limits],
    pub globals: &'m [Global],
}

/// What the code of one body may name.
#[derive(Clone, Copy)]
pub struct Scope<'m> {
    pub declared: Declared<'m>,
    pub params: &'m [ValType],
    /// The locals that aren't parameters.
    pub locals: &'m [ValType],
    pub result: Option<ValType>,
}

/// The item with this index, or this fault where there is none.
fn item<T>(items: &[T], index: usize, missing: Fault) -> Result<&T, Problem>
    ensures { GetsAs (slice_get items.now index) missing result (λ found. found.now) }
{
    match items.get(index) {
        Some(found) => Ok(found),
        None => Err(Problem::Wrong(missing)),
    }
}

impl<'m> Scope<'m> {
    /// The type of a local; parameters come first.
    pub fn local(&self, index: u32) -> Result<ValType, Problem>
        ensures { Gets (slice_get (context_of self.now).locals index) UnknownLocal result }
    {
        let index = index as usize;
        if index < self.params.len() {
            return Ok(self.params[index]);
        }
        let local = item(self.locals, index - self.params.len(), Fault::UnknownLocal)?;
        Ok(*local)
    }

    /// The type of a global.
    pub fn global(&self, index: u32) -> Result<GlobalType, Problem>
        ensures { Gets (slice_get (context_of self.now).globals index) UnknownGlobal result }
    {
        let global = item(self.declared.globals, index as usize, Fault::UnknownGlobal)?;
        Ok(global.global_type)
    }

    /// A type.
    pub fn func_type(&self, index: u32) -> Result<&'m FuncType, Problem>
        ensures { GetsAs (slice_get (context_of self.now).types index) UnknownType result (λ t. t.now) }
    {
        item(self.declared.types, index as usize, Fault::UnknownType)
    }

    /// The index of a function's type.
    pub fn function(&self, index: u32) -> Result<u32, Problem>
        ensures { Gets (slice_get (context_of self.now).functions index) UnknownFunction result }
    {
        let type_index = item(
            self.declared.functions,
            index as usize,
            Fault::UnknownFunction,
        )?;
        Ok(*type_index)
    }

    /// That there is a table.
    pub fn need_table(&self) -> Result<(), Problem>
        ensures { NeedsSome (slice_get (context_of self.now).tables 0) UnknownTable result }
    {
        match self.declared.tables.first() {
            Some(_) => Ok(()),
            None => Err(Problem::Wrong(Fault::UnknownTable)),
        }
    }

    /// That there is a memory.
    pub fn need_memory(&self) -> Result<(), Problem>
        ensures { NeedsSome (slice_get (context_of self.now).memories 0) UnknownMemory result }
    {
        match self.declared.memories.first() {
            Some(_) => Ok(()),
            None => Err(Problem::Wrong(Fault::UnknownMemory)),
        }
    }
}
