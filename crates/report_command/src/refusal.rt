//! Why the words of a command are refused, though the parser takes each of them.

use crate::command_line::Misuse;
use std::alloc::AllocError;

/// An option with a value that is none of its kind.
#[derive(Clone, Copy)]
pub(crate) struct WrongValue<'r> {
    pub name: &'r str,
    /// What help calls the value.
    pub value_name: &'r str,
    /// What is said of it.
    pub complaint: &'r str,
}

/// Why the words of a command are refused.
#[derive(Clone, Copy)]
pub(crate) enum CommandRefusal<'r> {
    Value(WrongValue<'r>),
    /// Options don't go together.
    Conflict(Misuse),
    NoMemory,
}

impl<'r> From<AllocError> for CommandRefusal<'r> {
    fn from(_: AllocError) -> CommandRefusal<'r> {
        CommandRefusal::NoMemory
    }
}
