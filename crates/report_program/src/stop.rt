//! Why a job isn't done.
ghost use Rattle.std.specs.Prelude.{◌≡◌};
ghost use Rattle.std.specs.IoError.{error_kind};
ghost use Rattle.report_program.specs.Messages.{stop_by, unread_by, TellsStop, IsStopStatus};
ghost use Rattle.report_program.specs.declared.stop.JobStop.TheVariants as stops;

use crate::telling::{say_usage, tell_file_fault, tell_no_memory, why_if};
use crate::{Detail, Noted, Unread};
use report_command::{Form, Usage};
use report_json::{Failure, write_failed};
use std::alloc::Global;
use std::io::{self, ErrorKind, Write};

/// Why a job isn't done.
#[derive(Drop)]
pub(crate) enum JobStop<'a> {
    Usage(Usage),
    /// The file at this path failed, for this reason.
    File(&'a str, ErrorKind),
    NoMemory,
}

impl From<io::Error> for JobStop<'_> {
    ghost from_gives = { λ _ e. e ≡ stops.NoMemory };

    /// The error of a buffer, which is that of memory.
    fn from(_: io::Error) -> Self {
        JobStop::NoMemory
    }
}

impl<'a> JobStop<'a> {
    /// The file at the path couldn't be read.
    pub(crate) fn unread(path: &'a str, why: Unread) -> JobStop<'a>
        ensures { result ≡ stop_by path.entry why }
    {
        match why {
            Unread::NoMemory => JobStop::NoMemory,
            Unread::File(kind) => JobStop::File(path, kind),
        }
    }

    /// The file at the path can't be made.
    pub(crate) fn unmade(path: &'a str, error: io::Error) -> JobStop<'a>
        ensures { result ≡ stop_by path.entry (unread_by (error_kind error)) }
    {
        JobStop::unread(path, Unread::from(error))
    }

    /// Writes the object of what failed, where one is asked for and the words are right.
    fn print<W: Write>(&self, alloc: Global, out: &mut W, form: Form) {
        let failure = match self {
            JobStop::NoMemory => Failure::Memory,
            JobStop::File(path, _) => Failure::File(*path),
            JobStop::Usage(_) => return,
        };
        if form == Form::Json {
            let _ = write_failed(alloc, out, failure);
        }
    }

    fn say<W: Write, E: Write>(
        &self,
        alloc: Global,
        out: &mut Noted<W>,
        err: &mut E,
        form: Form,
        detail: Detail,
    ) -> u8
        ensures told { TellsStop self.now detail (E.contents err.old) (E.contents err.new) }
        ensures status { IsStopStatus self.now result }
    {
        self.print(alloc, out, form);
        match self {
            JobStop::NoMemory => tell_no_memory(err),
            JobStop::File(path, kind) => tell_file_fault(alloc, err, path, why_if(detail, *kind)),
            JobStop::Usage(usage) => say_usage(alloc, out, err, usage),
        }
    }

    /// Says so, prints its object where one is asked for, and answers the status.
    pub(crate) fn tell(&self, rt: &HostRuntime, form: Form, detail: Detail) -> u8
        ensures { IsStopStatus self.now result }
    {
        let mut out = Noted::new(rt.stdout());
        self.say(rt.alloc(), &mut out, &mut rt.stderr(), form, detail)
    }
}
