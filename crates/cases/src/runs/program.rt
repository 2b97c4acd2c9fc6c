//! The program on a command line: what it writes, and its status.
ghost use Rattle.report_command.specs.Jobs.{IsInRange};

use dwarf_lines::SourceFile;
use report::{CodeBytes, Job, JobBytes, Streams, perform, show_saved};
use report_command::{Form, JobOrder, Usage, asked};
use report_jobs::{JobResult, status_of, tell_ended};
use report_reasons::{JobInputs, call_of, explain, write_undone};
use search_finds::{Hears, Size};
use search_reach::{Follows, Wish};
use std::alloc::{AllocError, Global};
use std::io::Write;
use std::sync::Wait;
use std::thread::Threads;

/// What the program wrote, and its status.
#[derive(Drop)]
pub(crate) struct Gave {
    pub(crate) streams: Streams<Vec<u8>, Vec<u8>, Vec<u8>>,
    pub(crate) status: u8,
}

impl Gave {
    /// Nothing.
    pub(crate) fn new(alloc: Global) -> Gave {
        Gave {
            streams: Streams {
                out: Vec::new(alloc),
                err: Vec::new(alloc),
                save: Vec::new(alloc),
                memory: Vec::new(alloc),
            },
            status: 0,
        }
    }

    /// Forgets what was written.
    fn clear(&mut self) {
        self.streams.out.clear();
        self.streams.err.clear();
        self.streams.save.clear();
        self.streams.memory.clear();
        self.status = 0;
    }
}

/// What a command line reads.
#[derive(Clone, Copy)]
pub(crate) struct Input<'a> {
    pub(crate) module: &'a [u8],
    /// The record, or nothing.
    pub(crate) saved: &'a [u8],
    /// The file that has the names, or nothing where the module has them.
    pub(crate) names: &'a [u8],
    /// The files of source whose text is shown.
    pub(crate) sources: &'a [SourceFile],
    /// What is wished of a search.
    pub(crate) wish: Wish,
}

/// Wishes the same of a search whatever it hears.
#[derive(Drop)]
struct Wishes {
    wish: Wish,
}

impl Follows for Wishes {
    ghost wish = { λ w. w.wish };

    ghost told_at = { λ _. 0 };

    fn runs(&mut self, _made: u64, _endings: usize) -> Wish {
        self.wish
    }

    fn states(&mut self, _met: usize, _left: usize) -> Wish {
        self.wish
    }

    fn end(&mut self) {}
}

impl Hears for Wishes {
    type Watch = ();

    fn watch(&self) -> () {}

    fn given_up(&mut self) -> Wish {
        self.wish
    }

    fn tried(&mut self, _tries: u32, _size: Size) -> Wish {
        self.wish
    }
}

/// Does a job.
fn do_job<'j, R: Threads + Wait + Sync>(
    rt: &R,
    alloc: Global,
    job: &Job<'j>,
    input: Input,
    gave: &mut Gave,
) -> JobResult<'j>
where
    requires { IsInRange job.now }
{
    let Input {
        module,
        saved,
        names,
        sources,
        wish,
    } = input;
    match job {
        Job::Show { how, .. } if !names.is_empty() || !sources.is_empty() => {
            let names = if names.is_empty() { module } else { names };
            let code = CodeBytes {
                module,
                names,
                sources,
            };
            let ended = show_saved(alloc, code, saved, how, &mut gave.streams);
            tell_ended(&mut gave.streams.err, &ended);
            ended
        }
        _ => {
            let bytes = JobBytes { module, saved };
            perform(
                rt,
                alloc,
                job,
                bytes,
                &mut gave.streams,
                &mut Wishes { wish },
            )
        }
    }
}

/// Tells what came of a job beside its line: in an object of one that isn't done and printed nothing, where one is asked
/// for, and in the lines that explain it.
fn tell_more(
    alloc: Global,
    job: &Job,
    ended: &JobResult,
    input: Input,
    is_explained: bool,
    gave: &mut Gave,
) -> Result<(), AllocError> {
    let given = JobInputs {
        module: input.module,
        saved: input.saved,
        call: call_of(job),
        is_check: matches!(job, Job::Check { .. }),
    };
    let mut lines = String::new(alloc);
    explain(alloc, &mut lines, ended, given)?;
    if let Err(undone) = ended
        && job.form() == Form::Json
        && gave.streams.out.is_empty()
    {
        let hints: Vec<&str> = lines.as_str().lines().collect(alloc)?;
        let _ = write_undone(alloc, undone, &hints, &mut gave.streams.out);
    }
    if is_explained {
        gave.streams.err.extend_from_slice(lines.as_bytes())?;
    }
    Ok(())
}

/// Help goes to standard output, and what is wrong about the words to standard error.
fn tell_usage(usage: &Usage, gave: &mut Gave) {
    gave.status = match usage {
        Usage::Help(text) => {
            let _ = write!(gave.streams.out, "{text}");
            0
        }
        Usage::Wrong(text) => {
            let _ = write!(gave.streams.err, "{text}");
            3
        }
        Usage::NoMemory => 5,
    };
}

/// The program with these words.
pub(crate) fn program<R: Threads + Wait + Sync>(
    rt: &R,
    alloc: Global,
    words: &[&str],
    input: Input,
    gave: &mut Gave,
) -> Result<(), AllocError> {
    gave.clear();
    match asked(alloc, words) {
        Ok(
            JobOrder {
                job,
                explain: is_explained,
            },
        ) => {
            let ended = do_job(rt, alloc, &job, input, gave);
            gave.status = status_of(&ended);
            tell_more(alloc, &job, &ended, input, is_explained.is_on(false), gave)?;
        }
        Err(usage) => tell_usage(&usage, gave),
    }
    Ok(())
}
