//! What dead locals are worth where a thread stands: nothing. Two configurations of a thread that are the same but for
//! dead locals do the same, and are the same but for dead locals again.
//!
//! Each function here does nothing, and its contract is a law.

ghost use Rattle.live_locals.specs.Laws.{AlikeGoAlike, AlikeStatesGoAlike, AlikeIsEquivalence};
ghost use Rattle.live_locals.specs.Dead.{DeadDoNotCount};

/// Configurations that are alike go alike, and so do threads whose states are alike: they want the same event, end
/// alike, and are alike again after turns, a reply and an answer. Being alike is an equivalence.
pub fn alike_threads_go_alike()
    ensures configs { AlikeGoAlike }
    ensures states { AlikeStatesGoAlike }
    ensures equivalence { AlikeIsEquivalence }
{}

/// By tables that are sound for a module, a thread's configuration is alike to each that differs in dead locals alone:
/// of the running function by the place where it stands, of each calling one by the place where it goes on.
pub fn dead_locals_do_not_count()
    ensures { DeadDoNotCount }
{}
