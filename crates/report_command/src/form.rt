//! In which form a job prints.

ghost use Rattle.std.specs.Prelude.{◌≡◌, ◌≤◌, false, IfOk};
ghost use Rattle.clap.specs.Words.{found_of};
ghost use Rattle.report_command.specs.declared.limits.TheConstants.{MOST_DUMP};
ghost use Rattle.report_command.specs.declared.form.Form.TheVariants.{Lines};
ghost use Rattle.report_command.specs.Options.{AsksForm, AsksEndLook};

use crate::limits::MOST_DUMP;
use crate::options::{DUMP, EXPLAIN, JSON, TEXT, UNITS};
use crate::refusal::CommandRefusal;
use clap::ArgMatches;

/// In which form a job prints.
#[derive(Clone, Copy, PartialEq, Eq, Debug)]
pub enum Form {
    /// Lines.
    Lines,
    /// One JSON object, on one line.
    Json,
}

/// How the end of a run is printed.
#[derive(Clone, Copy)]
pub struct EndLook {
    /// How many bytes of the memory are printed, 0 to 4096.
    pub dump: u32,
    /// Whether lines have the units that each thread spent. An object always has them.
    pub units: bool,
    /// Whether standard error says which threads trapped, where, and by which calls they came there. An object always
    /// has where.
    pub traps: bool,
    /// Whether it has what the threads say. A memory of words knows nothing of that.
    pub text: bool,
    pub form: Form,
}

impl EndLook {
    /// Lines without units or what threads say, and the first so many bytes of the memory, 0 to 4096.
    pub fn lines(dump: u32) -> EndLook
        ensures { result ≡ record { dump = dump; units = false; traps = false; text = false; form = Lines } }
    {
        EndLook {
            dump,
            units: false,
            traps: false,
            text: false,
            form: Form::Lines,
        }
    }
}

/// In which form is printed.
pub(crate) fn form_of(matches: &ArgMatches) -> Form
    ensures { AsksForm (found_of matches.now) result }
{
    if JSON.is_set(matches) {
        Form::Json
    } else {
        Form::Lines
    }
}

/// How the end of a run is printed.
///
/// # Errors
/// `Value` where the length of the dump isn't there.
pub(crate) fn end_look_of(matches: &ArgMatches) -> Result<EndLook, CommandRefusal<'static>>
    ensures range { IfOk result (λ look. look.dump ≤ MOST_DUMP) }
    ensures asks { IfOk result (AsksEndLook (found_of matches.now)) }
{
    let dump = DUMP.number(matches)?;
    Ok(EndLook {
        dump,
        units: UNITS.is_set(matches),
        traps: EXPLAIN.is_set(matches),
        text: TEXT.is_set(matches),
        form: form_of(matches),
    })
}
