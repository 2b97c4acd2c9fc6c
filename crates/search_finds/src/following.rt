//! The run to an ending, and one that goes round and round.
ghost use Rattle.std.specs.Prelude.{◌≡◌, IfOk, IfNone, IfSome};
ghost use Rattle.search_strategies.specs.Given.{chosen, rounds};
ghost use Rattle.search_finds.specs.Drawing.{GoesAlong, LeadToOther, unheard};
ghost use Rattle.search_finds.specs.Endings.{ending_left};
ghost use Rattle.search_finds.specs.Finds.{IsFind};

use crate::ending_of;
use search_endings::Ending;
use search_scheduled::{MadeRun, SearchFault, run_along};
use search_strategies::{Chosen, Rounds};
use spawn_host::Request;
use std::alloc::Global;

/// The run in which the threads that can go on are chosen so, where it ends as is said, by so many bytes of the memory.
///
/// # Errors
/// As of `run_along`.
pub fn run_to(
    alloc: Global,
    request: &Request,
    limit: u32,
    dump: u32,
    choices: &[usize],
    ending: &Ending,
) -> Result<Option<MadeRun>, SearchFault>
    ensures find { IfOk result (λ o. IfSome o (IsFind request.now limit)) }
    ensures along { IfOk result (λ o. IfSome o (GoesAlong chosen unheard request.now limit choices.now)) }
    ensures ending { IfOk result (λ o. IfSome o (λ made. ending.now ≡ ending_left dump made.end)) }
    ensures none { IfOk result (λ o. IfNone o (LeadToOther request.now limit dump choices.now ending.now)) }
{
    let made = run_along(alloc, request, limit, &mut Chosen::new(choices))?;
    let end = ending_of(alloc, &made.end, dump)?;
    if end == *ending {
        Ok(Some(made))
    } else {
        Ok(None)
    }
}

/// The run in which the threads that can go on are chosen by a path, and then by a round, again and again, until the
/// budgets or the log are spent; without a round they go on in turn.
///
/// # Errors
/// As of `run_along`.
pub fn run_round(
    alloc: Global,
    request: &Request,
    limit: u32,
    path: &[usize],
    round: &[usize],
) -> Result<MadeRun, SearchFault>
    ensures find { IfOk result (IsFind request.now limit) }
    ensures along { IfOk result (GoesAlong rounds unheard request.now limit
        (record { path = path.now; round = round.now; turn = 0; last = 0 })) }
{
    run_along(alloc, request, limit, &mut Rounds::new(path, round))
}
