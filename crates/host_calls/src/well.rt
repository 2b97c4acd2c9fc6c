//! Whether all endings are well.
ghost use Rattle.std.specs.Prelude.{◌≡◌, ◌↔◌, true};
ghost use Rattle.host_calls.specs.Well.{all_end_well, EndsForSure, IsSure, IsWell, threads_end_well};

use search_endings::{Ending, is_done};
use search_modules::{Ended, FairRuns, Liveness, Verdict};

fn has_ended_well(ending: &Ending) -> bool
    ensures { result ≡ threads_end_well ending.now }
{
    ending.outcomes().iter().all(|outcome| is_done(*outcome))
}

/// Whether in each of the endings all threads ended well.
fn all_ended_well(endings: &[Ending]) -> bool
    ensures { result ≡ all_end_well endings.now }
{
    endings.iter().all(|ending| has_ended_well(ending))
}

/// Whether it is said that every state can end, and that every fair run does.
fn ends_for_sure(liveness: &Liveness) -> bool
    ensures { (result ≡ true) ↔ EndsForSure liveness.now }
{
    liveness.endless.is_empty() && matches!(liveness.fair_runs, FairRuns::AllEnd)
}

/// Whether the endings are all, every state can end, and every fair run does.
fn is_sure(all: &Ended<Ending>) -> bool
    ensures { (result ≡ true) ↔ IsSure all.now }
{
    let Verdict::All = all.verdict else {
        return false;
    };
    match &all.liveness {
        Some(liveness) => ends_for_sure(liveness),
        None => false,
    }
}

/// Whether the endings are all, there is one, in each all threads ended well, every state can end, and every fair run
/// does.
pub fn is_well(all: &Ended<Ending>) -> bool
    ensures { (result ≡ true) ↔ IsWell all.now }
{
    let endings = all.endings.as_slice();
    if !is_sure(all) || endings.is_empty() {
        return false;
    }
    all_ended_well(endings)
}
