//! What is looked for.
ghost use Rattle.std.specs.Prelude.{◌≡◌, ◌↔◌, true, IfOk};
ghost use Rattle.std.specs.List.{list_all};
ghost use Rattle.search_endings.specs.Ends as specified;
ghost use Rattle.search_finds.specs.Finds.{IsLookedFor, IsFoundBy, IsUnexpected, HasFailure, ComesToAnother};

use crate::has_line_with;
use search_endings::{Ending, is_done};
use selection::{Find, Sought};
use std::alloc::{AllocError, Global};
use types::Outcome;

/// Whether all threads' functions returned.
fn all_done(outcomes: &[Outcome]) -> bool
    ensures { result ≡ list_all specified.is_done outcomes.now }
{
    outcomes.iter().all(|outcome| is_done(*outcome))
}

/// Whether some thread trapped or was stopped.
fn has_failure(ending: &Ending) -> bool
    ensures { (result ≡ true) ↔ HasFailure ending.now.outcomes }
{
    !all_done(ending.outcomes())
}

/// Whether a run with this ending is found by this.
fn is_found(alloc: Global, ending: &Ending, find: Find) -> Result<bool, AllocError>
    ensures { IfOk result (λ is. (is ≡ true) ↔ IsFoundBy find.entry ending.now.outcomes) }
{
    match find {
        Find::Nothing | Find::NoEnd | Find::ForEver => Ok(false),
        Find::Failure => Ok(has_failure(ending)),
        Find::Words(words) => has_line_with(alloc, ending, words),
    }
}

/// Whether thread 0 comes to another result.
fn comes_to_another(ending: &Ending, expected: Outcome) -> bool
    ensures { (result ≡ true) ↔ ComesToAnother expected ending.now.outcomes }
{
    match ending.outcomes().first() {
        Some(outcome) => *outcome != expected,
        None => true,
    }
}

/// Whether thread 0 comes to another result than is expected, where one is.
fn is_unexpected(ending: &Ending, expect: Option<Outcome>) -> bool
    ensures { (result ≡ true) ↔ IsUnexpected expect ending.now.outcomes }
{
    match expect {
        Some(expected) => comes_to_another(ending, expected),
        None => false,
    }
}

/// Whether an ending is looked for.
///
/// # Errors
/// Where memory is refused.
pub fn is_looked_for(alloc: Global, sought: &Sought, ending: &Ending) -> Result<bool, AllocError>
    ensures { IfOk result (λ is. (is ≡ true) ↔ IsLookedFor sought.now ending.now) }
{
    if is_found(alloc, ending, sought.target.find)? {
        return Ok(true);
    }
    Ok(is_unexpected(ending, sought.target.expect))
}
