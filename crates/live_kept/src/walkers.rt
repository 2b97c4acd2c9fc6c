//! Threads of a module as a search goes through them, up to dead locals.

ghost use Rattle.live_kept.specs.Walkers.{AlikeWalkersGoAlike};

/// Threads without budgets that are alike go alike, and come to rest alike. It does nothing, and its contract is a law.
pub fn walkers_go_alike()
    ensures { AlikeWalkersGoAlike }
{}
