//! What a job reads.

use crate::sources::{FoundSources, SourcePlace, read_sources};
use crate::stop::JobStop;
use crate::{Unread, read_memory, read_module, read_saved};
use dwarf_lines::SourceFile;
use report_command::{Job, RacesJob, RunJob, Search};

/// What a job reads: a module, a record where one is replayed or shown, or what is laid over the memory of a run; and
/// the file that has the names, where it is another one.
#[derive(Drop)]
pub struct Input {
    /// The module's bytes, at most one more than a module may have.
    pub module: Vec<u8>,
    /// The bytes of the record, or of what is laid over the memory, or nothing.
    pub saved: Vec<u8>,
    /// The bytes of the file that has the names.
    pub names: Option<Vec<u8>>,
    /// The files of source whose text is shown.
    pub sources: Vec<SourceFile>,
    /// What is to be said of them on standard error, in lines.
    pub notes: String,
}

/// The bytes that were read of the file at this path, or why that stops the job.
fn bytes_of(path: &str, read: Result<Vec<u8>, Unread>) -> Result<Vec<u8>, JobStop<'_>> {
    match read {
        Ok(bytes) => Ok(bytes),
        Err(why) => Err(JobStop::unread(path, why)),
    }
}

/// The files of source that a job shows, of the module at this path with these bytes.
fn sources_of<'a>(
    rt: &HostRuntime,
    job: &Job<'a>,
    path: &'a str,
    module: &[u8],
) -> Result<FoundSources, JobStop<'a>> {
    let Job::Show { how, .. } = job else {
        return Ok(FoundSources::none(rt.alloc()));
    };
    let Some(folder) = how.source else {
        return Ok(FoundSources::none(rt.alloc()));
    };
    let place = SourcePlace {
        folder,
        module: path,
    };
    match read_sources(rt, place, module) {
        Ok(found) => Ok(found),
        Err(why) => Err(JobStop::unread(folder, why)),
    }
}

/// The path of the file that a job takes names from, where it is another one than the module.
fn names_path<'a>(job: &Job<'a>) -> Option<&'a str> {
    match job {
        Job::Show { names, .. } | Job::Races(RacesJob { names, .. }) => *names,
        _ => None,
    }
}

/// Reads what a job wants.
pub(crate) fn read<'a>(rt: &HostRuntime, job: &Job<'a>) -> Result<Input, JobStop<'a>> {
    let (Job::Check { file, .. }
    | Job::Run(RunJob { file, .. })
    | Job::Replay { file, .. }
    | Job::Show { file, .. }
    | Job::Races(RacesJob { file, .. })
    | Job::Search(Search { file, .. })) = job;
    let module = bytes_of(file, read_module(rt, file))?;
    let saved = match job {
        Job::Run(
            RunJob {
                memory_in: Some(laid),
                ..
            },
        ) => bytes_of(laid.path, read_memory(rt, laid.path))?,
        Job::Check { .. } | Job::Run(_) | Job::Search(_) => Vec::new(rt.alloc()),
        Job::Replay { saved, .. } | Job::Show { saved, .. } | Job::Races(RacesJob { saved, .. }) =>
            { bytes_of(saved, read_saved(rt, saved))? }
    };
    let names = match names_path(job) {
        Some(path) => Some(bytes_of(path, read_module(rt, path))?),
        None => None,
    };
    let FoundSources { files, notes } = sources_of(
        rt,
        job,
        names_path(job).unwrap_or(file),
        names.as_ref().unwrap_or(&module),
    )?;
    Ok(Input {
        module,
        saved,
        names,
        sources: files,
        notes,
    })
}
