//! A call as the command line spells it.
ghost use Rattle.std.specs.Prelude.{◌≤◌, IfOk};
ghost use Rattle.clap.specs.Words.{found_of};
ghost use Rattle.types.specs.declared.limits.TheConstants.{MOST_FUEL};
ghost use Rattle.report_command.specs.Options.{AsksCall};

use crate::options::{ARGS, FUEL, INVOKE};
use crate::refusal::CommandRefusal;
use clap::ArgMatches;
use std::alloc::Global;

/// A call of a function of a module, in words.
#[derive(Drop)]
pub struct CallWords<'a> {
    /// The name under which the function is exported.
    pub invoke: &'a str,
    /// The arguments as they are written.
    pub args: Vec<&'a str>,
    /// How many units each thread may spend, 0 to 1,000,000,000,000.
    pub fuel: u64,
}

/// The call.
///
/// # Errors
/// `Value` where the name or the budget isn't there, and `NoMemory`.
pub(crate) fn call_of<'a>(
    alloc: Global,
    matches: &ArgMatches<'a>,
) -> Result<CallWords<'a>, CommandRefusal<'static>>
    ensures range { IfOk result (λ call. call.fuel ≤ MOST_FUEL) }
    ensures asks { IfOk result (AsksCall (found_of matches.now)) }
{
    let invoke = INVOKE.text(matches)?;
    let fuel = FUEL.long(matches)?;
    let args = ARGS.texts(alloc, matches)?;
    Ok(CallWords { invoke, args, fuel })
}
