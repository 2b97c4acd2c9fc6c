//! A job with its files and streams.
ghost use Rattle.std.specs.Prelude.{◌≡◌, IfSome, MatchOption};
ghost use Rattle.report_jobs.specs.Trapped.{Tells};
ghost use Rattle.report_program.specs.Messages.{memory_path, path_text, record_path};
ghost use Rattle.report_program.specs.Messages.{nothing_lost, MayReplace, TellsLost};
ghost use Rattle.report_command.specs.declared.command_line.Job.TheVariants as jobs;

use crate::closing::{Lost, hand_on_if};
use crate::input::{Input, read};
use crate::stop::JobStop;
use crate::telling::{tell_file_fault, tell_output_fault, tell_unkept, why_if};
use crate::{Detail, Noted, SavePlace, SavedFile, is_one_file, is_one_place};
use report_command::{Job, Misuse, RunJob, Search, misused};
use report_jobs::{JobResult, Streams, say, status_of};
use std::alloc::Global;
use std::io::{self, BufWriter, ErrorKind, Write};

/// The bytes of standard output, which is written in one piece: 64 lines of threads, one of pages and 4096 bytes shown
/// fit.
const OUT: usize = 16_384;

/// The bytes of a line on standard error, beside a path in it.
const LINE: usize = 256;

/// The bytes of a record that are written at once.
const RECORD: usize = 65_536;

/// A job that was begun: what was read for it, and where it writes. Standard output gets its lines in one piece; what
/// is said on standard error is said when it ends, and then the files that it makes get their paths.
#[derive(Drop)]
pub struct Task<'a, W: Write + Drop> {
    pub input: Input,
    /// How much is said of what goes wrong.
    detail: Detail,
    pub streams: Streams<BufWriter<Noted<W>>, Vec<u8>, BufWriter<SavedFile<'a>>>,
}

/// The path of the file that a job makes, a record, a page or a trace, or none.
fn record_of<'a>(job: &Job<'a>) -> Option<&'a str>
    ensures { result ≡ record_path job.now }
{
    match job {
        Job::Check { .. } | Job::Replay { .. } | Job::Races(_) => None,
        Job::Show { how, .. } => how.view.path(),
        Job::Run(RunJob { save, .. }) | Job::Search(Search { save, .. }) => *save,
    }
}

/// The path of the file that gets the bytes of a run's memory, or none.
fn memory_of<'a>(job: &Job<'a>) -> Option<&'a str>
    ensures { result ≡ memory_path job.now }
{
    match job {
        Job::Run(RunJob { memory_out, .. }) => *memory_out,
        _ => None,
    }
}

fn path_text(path: Option<&str>) -> &str
    ensures { result.now ≡ path_text path.entry }
{
    path.unwrap_or("")
}

/// Where the file with this path goes, if there is to be one.
fn place_of<'a>(rt: &HostRuntime, path: Option<&'a str>) -> Result<Option<SavePlace>, JobStop<'a>> {
    let Some(path) = path else {
        return Ok(None);
    };
    match SavePlace::new(rt, path) {
        Ok(place) => Ok(Some(place)),
        Err(error) => Err(JobStop::unmade(path, error)),
    }
}

/// Whether a path leads to the file of this one, if there is one.
fn is_file_of(rt: &HostRuntime, path: &str, other: Option<&str>) -> bool {
    match other {
        Some(other) => is_one_file(rt, other, path),
        None => false,
    }
}

/// Whether two files that a job makes would be one, if there is another: one that is there, or is to be made.
fn is_made_with(rt: &HostRuntime, path: &str, other: Option<&str>) -> bool {
    match other {
        Some(other) => is_one_place(rt, other, path) || is_one_file(rt, other, path),
        None => false,
    }
}

/// Whether the bytes of a run's memory would take the place of a file that it reads, or of its record.
fn memory_replaces(rt: &HostRuntime, run: &RunJob) -> bool {
    let Some(path) = run.memory_out else {
        return false;
    };
    is_one_file(rt, run.file, path)
        || is_made_with(rt, path, run.save)
        || is_file_of(rt, path, run.memory_in.map(|laid| laid.path))
}

/// How the paths of a run are wrong, if a file that it makes would take the place of one that it reads, or of another.
fn run_replaces(rt: &HostRuntime, run: &RunJob) -> Option<Misuse>
    ensures { IfSome result (MayReplace (jobs.Run run.now)) }
{
    if run.memory_out.is_some() && memory_replaces(rt, run) {
        return Some(Misuse::MemoryReplaces);
    }
    match run.save {
        Some(path) if is_one_file(rt, run.file, path) => Some(Misuse::ReplacesModule),
        _ => None,
    }
}

/// How the paths of a job are wrong, if a file that it makes would take the place of one that it reads.
fn replaced(rt: &HostRuntime, job: &Job) -> Option<Misuse>
    ensures { IfSome result (MayReplace job.now) }
{
    match job {
        Job::Run(run) => run_replaces(rt, run),
        Job::Search(
            Search {
                file,
                save: Some(path),
                ..
            },
        ) if is_one_file(rt, file, path) => Some(Misuse::FindReplacesModule),
        Job::Show {
            file,
            saved,
            names,
            how,
        } => match how.view.path() {
            Some(path)
                if is_one_file(rt, file, path)
                    || is_one_file(rt, saved, path)
                    || is_file_of(rt, path, *names) => { Some(Misuse::ReplacesRead) }
            _ => None,
        },
        _ => None,
    }
}

/// Refuses a file that would take the place of one that is read.
fn keep_module<'a>(rt: &HostRuntime, job: &Job<'a>) -> Result<(), JobStop<'a>> {
    match replaced(rt, job) {
        Some(misuse) => Err(JobStop::Usage(misused(rt.alloc(), misuse))),
        None => Ok(()),
    }
}

/// Says which of a job's streams didn't get all that was written to them, the lines and the file or the memory, and
/// answers the status, if one didn't.
fn tell_lost<E: Write>(
    alloc: Global,
    err: &mut E,
    job: &Job,
    detail: Detail,
    lost: Lost,
    is_closed: bool,
) -> Option<u8>
    ensures status { MatchOption result (lost ≡ nothing_lost) (λ status. status ≡ 5) }
    ensures told { TellsLost job.now detail lost is_closed (E.contents err.old) (E.contents err.new) }
{
    match lost {
        Lost { lines: true, .. } => Some(tell_output_fault(err, is_closed)),
        Lost {
            file: Some(kind),
            ..
        } => {
            let why = why_if(detail, kind);
            Some(tell_file_fault(alloc, err, path_text(record_of(job)), why))
        }
        Lost {
            memory: Some(kind),
            ..
        } => {
            let why = why_if(detail, kind);
            Some(tell_file_fault(alloc, err, path_text(memory_of(job)), why))
        }
        Lost {
            lines: false,
            file: None,
            memory: None,
        } => None,
    }
}

/// The bytes of standard error for which there is memory before a job begins, so that a line about these paths fits.
fn room_for(paths: &[Option<&str>]) -> usize {
    let mut room = LINE;
    for path in paths {
        room = room.saturating_add(path.unwrap_or("").len());
    }
    room
}

/// Begins a job with what was read for it, and with the places of the files that it makes. Standard error has so much
/// room. An error is that of memory.
fn begin<'a, W: Write + Drop>(
    rt: &'a HostRuntime,
    stdout: W,
    input: Input,
    room: usize,
    places: (Option<SavePlace>, Option<SavePlace>),
    detail: Detail,
) -> io::Result<Task<'a, W>> {
    let alloc = rt.alloc();
    let (place, memory) = places;
    let mut err = Vec::with_capacity(alloc, room.saturating_add(input.notes.len()))?;
    err.extend_from_slice(input.notes.as_bytes())?;
    let out = BufWriter::with_capacity(alloc, OUT, Noted::new(stdout))?;
    let save = BufWriter::with_capacity(alloc, RECORD, SavedFile::new(rt, place))?;
    let memory = BufWriter::with_capacity(alloc, RECORD, SavedFile::new(rt, memory))?;
    Ok(Task {
        input,
        detail,
        streams: Streams {
            out,
            err,
            save,
            memory,
        },
    })
}

/// Begins a job whose files can be read, and whose own files can be written.
fn prepare<'a, 'j, W: Write + Drop>(
    rt: &'a HostRuntime,
    stdout: W,
    job: &Job<'j>,
    detail: Detail,
) -> Result<Task<'a, W>, JobStop<'j>> {
    keep_module(rt, job)?;
    let input = read(rt, job)?;
    let places = (place_of(rt, record_of(job))?, place_of(rt, memory_of(job))?);
    let room = room_for(&[record_of(job), memory_of(job)]);
    Ok(begin(rt, stdout, input, room, places, detail)?)
}

/// Begins a job: reads its files, and takes the places of the files that it makes and the memory of its streams.
///
/// # Errors
/// The status, once it was said on standard error why: 3 where a file would take the place of one that is read, 5
/// where a file or memory failed.
pub fn open_task<'a, W: Write + Drop>(
    rt: &'a HostRuntime,
    stdout: W,
    job: &Job,
    detail: Detail,
) -> Result<Task<'a, W>, u8> {
    match prepare(rt, stdout, job, detail) {
        Ok(task) => Ok(task),
        Err(stop) => Err(stop.tell(rt, job.form(), detail)),
    }
}

/// The path to which a search was to keep a run, if it found none.
fn unkept<'a>(job: &Job<'a>, save: &BufWriter<SavedFile>) -> Option<&'a str> {
    match job {
        Job::Search(search) if save.buffer().is_empty() && save.get_ref().is_untouched() => {
            search.save
        }
        _ => None,
    }
}

/// A file, or else what takes what is written as it comes.
fn apart(
    save: BufWriter<SavedFile>,
) -> (Option<BufWriter<SavedFile>>, Option<BufWriter<SavedFile>>) {
    if save.get_ref().is_stream() {
        (None, Some(save))
    } else {
        (Some(save), None)
    }
}

/// Hands on what a job wrote to a file that it makes, if it comes, and gives it its path, maybe with nothing in it; and
/// else takes away what there is of it. Answers why it failed, if it did.
fn keep_if(
    comes: bool,
    may_be_empty: bool,
    save: Option<BufWriter<SavedFile>>,
) -> Option<ErrorKind> {
    let (save, fault) = hand_on_if(comes, save?);
    if !comes || fault.is_some() {
        save.give_up();
        return fault;
    }
    let kept = if may_be_empty {
        save.keep_even_empty()
    } else {
        save.keep()
    };
    match kept {
        Ok(()) => None,
        Err(error) => Some(error.kind()),
    }
}

/// Hands on the lines of a job, and says what it has to say on standard error. Answers whether lines were lost, and
/// whether nobody is left to read them: then nothing is said.
fn hand_on_lines<W: Write + Drop>(
    rt: &HostRuntime,
    out: BufWriter<Noted<W>>,
    err: &[u8],
) -> (bool, bool) {
    let (out, fault) = hand_on_if(true, out);
    let (is_lost, is_closed) = (fault.is_some() || out.has_failed(), out.is_closed());
    if !is_closed {
        say(&mut rt.stderr(), err);
    }
    (is_lost, is_closed)
}

impl<W: Write + Drop> Task<'_, W> {
    /// Whether nothing was written to standard output.
    pub fn is_silent(&self) -> bool {
        self.streams.out.buffer().is_empty() && self.streams.out.get_ref().is_untouched()
    }

    /// Keeps the files that the job made, if it is done; then hands on its lines, and behind these what it wrote to streams
    /// in the place of files; and says what went wrong. Answers the status: the job's, or 5 where a file or a stream didn't
    /// get all.
    pub fn end(self, rt: &HostRuntime, job: &Job, ended: &JobResult) -> u8 {
        let Task {
            streams,
            detail,
            ..
        } = self;
        let Streams {
            out,
            err,
            save,
            memory,
        } = streams;
        let status = status_of(ended);
        let comes = ended.is_ok() && status <= 1;
        let unkept = unkept(job, &save);
        let (save, save_stream) = apart(save);
        let (memory, memory_stream) = apart(memory);
        let file = keep_if(comes, false, save);
        let memory = keep_if(comes && file.is_none(), true, memory);
        let (lines, is_closed) = hand_on_lines(rt, out, &err);
        let comes = comes && !lines && file.is_none() && memory.is_none();
        let file = file.or(keep_if(comes, false, save_stream));
        let lost = Lost {
            lines: lines && ended.is_ok(),
            file,
            memory: memory.or(keep_if(comes && file.is_none(), true, memory_stream)),
        };
        let told = tell_lost(rt.alloc(), &mut rt.stderr(), job, detail, lost, is_closed);
        match (told, unkept) {
            (Some(fault), _) => fault,
            (None, Some(path)) if detail.explains() && comes => {
                tell_unkept(rt.alloc(), &mut rt.stderr(), path);
                status
            }
            (None, _) => status,
        }
    }
}
