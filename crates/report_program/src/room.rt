//! The room of a job's log, as the module asks for it.

ghost use Rattle.std.specs.Prelude.{◌≡◌, ◌≤◌, ℕ};
ghost use Rattle.types.specs.declared.limits.TheConstants.{MOST_LIMIT};
ghost use Rattle.report_command.specs.Jobs.{IsInRange};
ghost use Rattle.show_said.specs.Factor.{IsEntryFactor};
ghost use Rattle.report_program.specs.Room as specified;

use report_command::{Job, Sought};
use show_said::entry_factor;
use types::MOST_LIMIT;

/// How many entries a log takes: so many as the words say, or else so many times those that are usual.
fn room_for(factor: u32, limit: u32, is_said: bool) -> u32
    requires factor { 1 ≤ factor }
    requires low { 1 ≤ limit }
    requires high { limit ≤ MOST_LIMIT }
    ensures room { result ≡ specified.room_for factor limit is_said }
    ensures low { 1 ≤ result }
    ensures high { result ≤ MOST_LIMIT }
{
    if is_said {
        limit
    } else {
        limit.saturating_mul(factor).min(MOST_LIMIT)
    }
}

/// A job on a module, whose log takes so many times the entries that are usual as the module asks for, at most 1,000,000,
/// where the words don't say how many.
pub fn with_room<'a>(job: Job<'a>, module: &[u8]) -> Job<'a>
    requires { IsInRange job }
    ensures range { IsInRange result }
    ensures room { (factor : ℕ) × IsEntryFactor «module».now factor × (result ≡ specified.with_room factor job.entry) }
{
    let factor = entry_factor(module);
    match job {
        Job::Run(mut run) => {
            run.limit = room_for(factor, run.limit, run.is_limit_said);
            Job::Run(run)
        }
        Job::Search(mut search) => {
            let limit = room_for(factor, search.sought.limit, search.is_limit_said);
            search.sought = Sought {
                limit,
                ..search.sought
            };
            Job::Search(search)
        }
        other => other,
    }
}
