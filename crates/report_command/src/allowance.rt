//! Which accesses may race, as the words have it.
ghost use Rattle.std.specs.Prelude.{IfOk};
ghost use Rattle.clap.specs.Words.{found_of};
ghost use Rattle.report_command.specs.Options.{AsksAllowance};

use crate::options::{ALLOW_MIXED, ALLOW_RACE};
use crate::places::{Data, DataReader};
use crate::refusal::CommandRefusal;
use clap::ArgMatches;
use std::alloc::Global;

/// Which accesses may race.
#[derive(Drop)]
pub struct Allowance<'a> {
    /// Those to these bytes.
    pub bytes: Vec<Data<'a>>,
    /// Atomic ones of different widths.
    pub mixed: bool,
}

impl Allowance<'_> {
    /// Whether anything is allowed.
    pub fn allows(&self) -> bool {
        self.mixed || !self.bytes.is_empty()
    }
}

/// What the words allow.
///
/// # Errors
/// `Value` where an argument can't be read, and `NoMemory`.
pub(crate) fn allowance_of<'a>(
    alloc: Global,
    matches: &ArgMatches<'a>,
) -> Result<Allowance<'a>, CommandRefusal<'static>>
    ensures { IfOk result (AsksAllowance (found_of matches.now)) }
{
    let bytes = ALLOW_RACE.values::<DataReader>(alloc, matches)?;
    Ok(Allowance {
        bytes,
        mixed: ALLOW_MIXED.is_set(matches),
    })
}
