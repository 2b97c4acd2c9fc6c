//! What the program does: each job of its command line.
ghost use Rattle.std.specs.Prelude.{◌≡◌, ◌≤◌, ◌⊎◌, IfErr, IfOk, false, is_some};
ghost use Rattle.report_command.specs.Jobs.{IsInRange};
ghost use Rattle.report_command.specs.Searches.{IsSearchInRange};
ghost use Rattle.report_jobs.specs.Jobs.{HasNoSuchCall, IsNoValidModule};
ghost use Rattle.report_jobs.specs.Prints.{changed, written};
ghost use Rattle.report_jobs.specs.Silence.{AllStay, IsRefusal, Stays, makes_memory};
ghost use Rattle.report_jobs.specs.Told.{TellsRefusal, TellsWhatIsWrong};
ghost use Rattle.report_jobs.specs.Trapped.{Tells};
ghost use Rattle.report_jobs.specs.Undone.{ended_status, undone_line, undone_status};
ghost use Rattle.report_jobs.specs.Why.{RefusesModule, RefusesRecord};
ghost use Rattle.report_looks.specs.Allowing.{SomeNamed};
ghost use Rattle.report.specs.Searched.{HasSearchedOn};
ghost use Rattle.report.specs.Jobs.{Performs};
ghost use Rattle.report.specs.Silent.{writes_file};

use crate::asked::SearchRequest;
use crate::searching::search_module;
use report_command::{Job, Search};
use report_jobs::{
    Done, LeftOut, Streams, Undone, load, of_refusal, of_trouble, perform_plain, tell_ended,
};
use report_looks::{CodeBytes, allowed_of, races_saved, show_saved};
use search_finds::Hears;
use spawn_host::own_function;
use std::alloc::Global;
use std::io::Write;
use std::sync::Wait;
use std::thread::Threads;
use validate_module::ValidModule;

/// The bytes that a job is done on.
#[derive(Clone, Copy)]
pub struct JobBytes<'a> {
    pub module: &'a [u8],
    /// Those of the record that a replay or a show reads, or those that are laid over the memory of a run; and else
    /// none.
    pub saved: &'a [u8],
}

/// Does a job on a module's bytes: writes its lines, and a line about what went wrong, or about what a search doesn't
/// compare, or lines about threads of a run that trapped; and the record that a run makes and the bytes of its memory,
/// or the record of what a search found, after the lines, or the file that a show makes.
///
/// The job's numbers are in their ranges, as those of a job are that `command` gives.
///
/// A show takes names from the module itself (`show_saved` takes them from another file's bytes, and lines of source
/// too). `follower` hears how far a search came.
///
/// Answers what came of it, of which the program's status is 0 where the module was accepted or all threads ended well,
/// 1 for a trap or stop, or where a search found a run, has not all endings or none, 2 for a refused module, 3 for a
/// refused run, 4 for a refused record, 5 where memory, a thread or a stream failed. Its line was told then, as far as
/// `err` took it; at 4 that is the one which names the first line of the record's text that is wrong or doesn't fit.
///
/// # Errors
/// Why it isn't done: what is refused, and then nothing is written but that line; or what failed.
pub fn perform<'j, 'x, R, W, E, S, F>(
    rt: &R,
    alloc: Global,
    job: &'x Job<'j>,
    bytes: JobBytes<'x>,
    streams: &mut Streams<W, E, S>,
    follower: &mut F,
) -> Result<Done, Undone<'j>>
where
    R: Threads + Wait + Sync,
    W: Write,
    E: Write,
    S: Write,
    F: Hears,
    requires { IsInRange job.now }
    ensures performs { Performs job.now bytes.entry.«module».now bytes.entry.saved.now
        (written W.contents E.contents S.contents streams.old streams.new) (ended_status result) }
    ensures refusal { ended_status result ≡ 2
        → TellsRefusal bytes.entry.«module».now (changed E.contents streams.old.err streams.new.err) }
    ensures told { ended_status result ≡ 4 → TellsWhatIsWrong bytes.entry.«module».now bytes.entry.saved.now
        (changed E.contents streams.old.err streams.new.err) }
    ensures why { IfErr result (λ why. IsRefusal (undone_status why)
        → Tells (E.contents streams.old.err) (E.contents streams.new.err) (undone_line why)) }
    ensures silent { IsRefusal (ended_status result) → Stays streams.old.out streams.new.out
        × Stays streams.old.save streams.new.save × Stays streams.old.memory streams.new.memory }
    ensures no_memory { makes_memory job.now ≡ false → Stays streams.old.memory streams.new.memory }
    ensures unwanted { writes_file job.now ≡ false → Stays streams.old.save streams.new.save }
{
    let ended = perform_silent(rt, alloc, job, bytes, streams, follower);
    tell_ended(&mut streams.err, &ended);
    ended
}

/// Does a job, and says nothing of why it isn't done.
fn perform_silent<'j, 'x, R, W, E, S, F>(
    rt: &R,
    alloc: Global,
    job: &'x Job<'j>,
    bytes: JobBytes<'x>,
    streams: &mut Streams<W, E, S>,
    follower: &mut F,
) -> Result<Done, Undone<'j>>
where
    R: Threads + Wait + Sync,
    W: Write,
    E: Write,
    S: Write,
    F: Hears,
    requires { IsInRange job.now }
    ensures performs { Performs job.now bytes.entry.«module».now bytes.entry.saved.now
        (written W.contents E.contents S.contents streams.old streams.new) (ended_status result) }
    ensures done { IfOk result (λ done. done.status ≤ 1) }
    ensures why { IfErr result (λ why. undone_status why ≡ 2 → RefusesModule bytes.entry.«module».now why) }
    ensures wrong { IfErr result (λ why. undone_status why ≡ 4
        → RefusesRecord bytes.entry.«module».now bytes.entry.saved.now why) }
    ensures silent { IsRefusal (ended_status result) → AllStay streams.old streams.new }
    ensures no_memory { makes_memory job.now ≡ false → Stays streams.old.memory streams.new.memory }
    ensures unwanted { writes_file job.now ≡ false → Stays streams.old.save streams.new.save }
{
    let JobBytes { module, saved } = bytes;
    let code = CodeBytes {
        module,
        names: module,
        sources: &[],
    };
    match job {
        Job::Show { how, .. } => show_saved(alloc, code, saved, how, streams),
        Job::Races(asked) => races_saved(alloc, module, module, saved, asked, streams),
        Job::Search(asked) => search(rt, alloc, asked, code, streams, follower),
        _ => perform_plain(rt, alloc, job, module, saved, streams),
    }
}

/// Searches through runs of a module.
fn search<'j, 'x, R, W, E, S, F>(
    rt: &R,
    alloc: Global,
    asked: &'x Search<'j>,
    code: CodeBytes<'x>,
    streams: &mut Streams<W, E, S>,
    follower: &mut F,
) -> Result<Done, Undone<'j>>
where
    R: Threads + Sync,
    W: Write,
    E: Write,
    S: Write,
    F: Hears,
    requires { IsSearchInRange asked.now }
    ensures made { ended_status result ≤ 1 → HasSearchedOn W.contents S.contents code.entry.«module».now asked.now
        streams.old streams.new (ended_status result) }
    ensures done { IfOk result (λ done. done.status ≤ 1) }
    ensures refused { ended_status result ≡ 2 → IsNoValidModule code.entry.«module».now }
    ensures why { IfErr result (λ why. undone_status why ≡ 2 → RefusesModule code.entry.«module».now why) }
    ensures silent { IsRefusal (ended_status result)
        → Stays streams.old.out streams.new.out × Stays streams.old.save streams.new.save }
    ensures unwanted { is_some asked.now.save ≡ false → Stays streams.old.save streams.new.save }
    ensures no_memory { Stays streams.old.memory streams.new.memory }
    ensures unsaid { Stays streams.old.err streams.new.err }
    ensures cannot { ended_status result ≡ 3
        → HasNoSuchCall code.entry.«module».now asked.now.call ⊎ SomeNamed asked.now.allow.bytes.items }
    ensures status { (ended_status result ≤ 3) ⊎ (ended_status result ≡ 5) }
{
    let valid = match load(alloc, code.module) {
        Ok(valid) => valid,
        Err(refusal) => return Err(of_refusal(refusal)),
    };
    let bytes = match allowed_of(alloc, code.names, &asked.allow) {
        Ok(bytes) => bytes,
        Err(undone) => return Err(undone),
    };
    let request = SearchRequest {
        module: &valid,
        code,
        search: &*asked,
        allowed: bytes.allowed(),
    };
    match search_module(rt, alloc, request, streams, follower) {
        Ok(done) => Ok(Done {
            is_bare: is_bare(&valid, asked),
            left_out: left_out(asked),
            ..done
        }),
        Err(trouble) => Err(of_trouble(trouble, valid, asked.save, None)),
    }
}

/// Whether races are left out.
fn left_out(asked: &Search) -> LeftOut {
    if asked.allow.allows() {
        LeftOut::Some
    } else {
        LeftOut::Nothing
    }
}

/// Whether only how threads ended is compared: the function returns nothing, and no bytes are named.
fn is_bare(valid: &ValidModule, asked: &Search) -> bool {
    let Some(function) = own_function(valid, asked.call.invoke) else {
        return false;
    };
    function.func_type.results.as_slice().is_empty() && asked.sought.dump == 0
}
