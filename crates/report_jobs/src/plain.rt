//! The plain jobs of the command line: a check, a run and a replay.
ghost use Rattle.std.specs.Prelude.{◌≡◌, ◌≤◌, false, IfErr, IfOk};
ghost use Rattle.report_command.specs.Jobs.{IsInRange};
ghost use Rattle.report_jobs.specs.Plain.{IsPlain, PerformsPlain};
ghost use Rattle.report_jobs.specs.Prints.{written};
ghost use Rattle.report_jobs.specs.Silence.{AllStay, IsRefusal, Stays, makes_file, makes_memory};
ghost use Rattle.report_jobs.specs.Undone.{ended_status, undone_status};
ghost use Rattle.report_jobs.specs.Why.{RefusesModule, RefusesRecord};

use crate::job::{check, replay_saved, run};
use crate::streams::Streams;
use crate::undone::{Done, Undone};
use report_command::Job;
use std::alloc::Global;
use std::io::Write;
use std::sync::Wait;
use std::thread::Threads;

/// Does a check, a run or a replay on a module's bytes: prints what comes of it, and lines about threads that trapped
/// where these are asked for; and writes the record that a run makes and the bytes of its memory, after that.
///
/// The job's numbers are in their ranges, as those of a job are that `command` gives. `saved` has the bytes of the
/// record that a replay reads, or those that are laid over the memory of a run, and else nothing.
///
/// The status of what came of it is 0 where the module was accepted or all threads ended well, 1 for a trap or stop, 2 for
/// a refused module, 3 for a refused run, 4 for a refused record, 5 where memory, a thread or a stream failed. At 2, 3 and
/// 4 neither standard output nor the record's writer is written to or flushed, nor is that of the memory, and neither is
/// that of a file that isn't wanted. At 4 it has the first line of the record's text that is wrong or doesn't fit.
///
/// # Errors
/// Why it isn't done; nothing is said of that.
pub fn perform_plain<'j, R, W, E, S>(
    rt: &R,
    alloc: Global,
    job: &Job<'j>,
    module: &[u8],
    saved: &[u8],
    streams: &mut Streams<W, E, S>,
) -> Result<Done, Undone<'j>>
where
    R: Threads + Wait + Sync,
    W: Write,
    E: Write,
    S: Write,
    requires range { IsInRange job.now }
    requires plain { IsPlain job.now }
    ensures performs { PerformsPlain job.now «module».now saved.now
        (written W.contents E.contents S.contents streams.old streams.new) (ended_status result) }
    ensures done { IfOk result (λ done. done.status ≤ 1) }
    ensures why { IfErr result (λ why. undone_status why ≡ 2 → RefusesModule «module».now why) }
    ensures wrong { IfErr result (λ why. undone_status why ≡ 4 → RefusesRecord «module».now saved.now why) }
    ensures silent { IsRefusal (ended_status result) → AllStay streams.old streams.new }
    ensures unwanted { makes_file job.now ≡ false → Stays streams.old.save streams.new.save }
    ensures no_memory { makes_memory job.now ≡ false → Stays streams.old.memory streams.new.memory }
{
    if let Job::Run(asked) = job {
        return run(rt, alloc, asked, module, saved, streams);
    }
    let Streams { out, err, .. } = streams;
    match job {
        Job::Check { form, .. } => check(alloc, module, *form, out),
        Job::Replay { look, .. } => replay_saved(alloc, module, saved, *look, out, err),
        Job::Run(_) | Job::Show { .. } | Job::Races(_) | Job::Search(_) => unreachable!(),
    }
}
