//! The job of `races`.
ghost use Rattle.std.specs.Prelude.{IfOk, codes};
ghost use Rattle.clap.specs.Words.{found_of};
ghost use Rattle.report_command.specs.Jobs.{IsInRange};
ghost use Rattle.report_command.specs.Options.{AsksNamed};

use crate::allowance::{Allowance, allowance_of};
use crate::command_line::Job;
use crate::form::{Form, form_of};
use crate::options::{FILE, MOST, NAMES, RECORD};
use crate::refusal::CommandRefusal;
use clap::ArgMatches;
use std::alloc::Global;

/// The races of a record's run.
#[derive(Drop)]
pub struct RacesJob<'a> {
    /// The path of the module.
    pub file: &'a str,
    /// The path of the record.
    pub saved: &'a str,
    /// The path of another build of the module's code, for names and lines, if one is given.
    pub names: Option<&'a str>,
    /// How many races are told at most, 1 to 10,000.
    pub most: u32,
    /// Which accesses may race.
    pub allow: Allowance<'a>,
    /// In which form they are told.
    pub form: Form,
}

/// The job of `races`.
///
/// # Errors
/// `Value` where a path or the number isn't there, or what is allowed can't be read, and `NoMemory`.
pub(crate) fn races_job<'a>(
    alloc: Global,
    matches: &ArgMatches<'a>,
) -> Result<Job<'a>, CommandRefusal<'static>>
    ensures range { IfOk result IsInRange }
    ensures asks { IfOk result (AsksNamed (codes "races") (found_of matches.now)) }
{
    let file = FILE.text(matches)?;
    let saved = RECORD.text(matches)?;
    let most = MOST.number(matches)?;
    let allow = allowance_of(alloc, matches)?;
    Ok(Job::Races(RacesJob {
        file,
        saved,
        names: NAMES.text_if_any(matches),
        most,
        allow,
        form: form_of(matches),
    }))
}
