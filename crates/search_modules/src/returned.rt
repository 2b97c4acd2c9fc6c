//! What runs of a module return is among what a search through its threads can find.
//!
//! The function here does nothing, and its contract is a law.
ghost use Rattle.search_modules.specs.Returned.{WhatRunsReturnIsReached};

/// Whatever a run returns, over either memory and whatever its budget: where no thread of it stopped for want of units
/// or for a full log, threads without budgets can end so.
pub fn what_runs_return_is_reached()
    ensures { WhatRunsReturnIsReached }
{}
