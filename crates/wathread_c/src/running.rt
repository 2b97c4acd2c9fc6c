//! A run of a number.
ghost use Rattle.std.specs.Prelude.{◌≡◌};
ghost use Rattle.std.specs.List.{list_all};
ghost use Rattle.search_endings.specs.Ends as specified;
ghost use Rattle.search_endings.specs.Ends.{status_of};
ghost use Rattle.wathread_c.specs.Answers.{no_answer};
ghost use Rattle.wathread_c.specs.Calls.{KeepsRun, Runs, RunsNamed};

use crate::answer::{CallAnswer, put};
use crate::given::{Options, Word, values_of};
use host_calls::run_of;
use replay_text::write_record;
use search_endings::is_done;
use search_scheduled::MadeRun;
use std::alloc::Global;
use types::ThreadReport;

fn all_done(reports: &[ThreadReport]) -> bool
    ensures { result ≡ list_all (λ r. specified.is_done r.outcome) reports.now }
{
    reports.iter().all(|report| is_done(report.outcome))
}

/// The status of a run that ended so: 0 where all threads ended well, and otherwise 1.
fn status_of(reports: &[ThreadReport]) -> u32
    ensures { result ≡ status_of reports.now }
{
    u32::from(!all_done(reports))
}

/// Puts the record of a run into a buffer, and answers its status; nothing where memory is refused.
pub(crate) fn keep(
    alloc: Global,
    made: &MadeRun,
    record: &mut [u8],
    answer: &mut CallAnswer,
) -> Option<u32>
    ensures { KeepsRun made.now answer.old record.old record.new answer.new result }
{
    let mut text = Vec::new(alloc);
    if write_record(&made.record, &mut text).is_err() {
        return None;
    }
    put(record, &text);
    answer.bytes = text.len();
    if let Some(report) = made.end.threads.first() {
        *answer = answer.with(report);
    }
    Some(status_of(&made.end.threads))
}

fn run_named(
    alloc: Global,
    module: &[u8],
    name: &str,
    args: &[Word],
    options: &Options,
    record: &mut [u8],
    answer: &mut CallAnswer,
) -> u32
    requires { answer.old ≡ no_answer }
    ensures { RunsNamed «module».now name.now args.now options.now record.old record.new answer.new result }
{
    let Ok(values) = values_of(alloc, args) else {
        return 5;
    };
    match run_of(alloc, module, name, &values, &options.plan()) {
        Ok(made) => keep(alloc, &made, record, answer).unwrap_or(5),
        Err(fault) => fault.status(),
    }
}

/// Runs an exported function of a module: the run of a number by a seed, whose record goes into `record`. Answers the
/// status: 0 where all threads ended well, 1 for a trap or stop, 2 of a module that is refused, 3 of a call, 5 where
/// memory is.
#[unsafe(no_mangle)]
pub extern "C" fn wathread_run(
    alloc: Global,
    module: &[u8],
    name: &[u8],
    args: &[Word],
    options: &Options,
    record: &mut [u8],
    answer: &mut CallAnswer,
) -> u32
    ensures { Runs «module».now name.now args.now options.now record.old record.new answer.new result }
{
    *answer = CallAnswer::none();
    match str::from_utf8(name) {
        Ok(name) => run_named(alloc, module, name, args, options, record, answer),
        Err(_) => 3,
    }
}
