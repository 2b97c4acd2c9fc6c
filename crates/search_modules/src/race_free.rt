//! All endings of a call whose threads do not race.

ghost use Rattle.std.specs.Prelude.{◌≡◌, false, true, IfOk, IfSome, vec_len};
ghost use Rattle.indexmap.specs.IndexSet.{index_set_len};
ghost use Rattle.search_reach.specs.Found.{AreListed};
ghost use Rattle.search_reach.specs.Told.{Obeys};
ghost use Rattle.search_reach.specs.declared.search.Verdict.TheVariants as verdicts;
ghost use Rattle.search_modules.specs.Endings.{HasSought};
ghost use Rattle.search_modules.specs.Liveness.{CountsOwned, SaysWhereAllFree};
ghost use Rattle.search_modules.specs.Races.{CanRaceSo, NeverRaces, NeverWaitsTimed, WaitsTimedSo, race_free_claims_of};
ghost use Rattle.search_modules.specs.Ways.{HasWaysFreely};

use crate::called::Searched;
use crate::calling::searched;
use allowed_races::Allowed;
use search_endings::Ending;
use search_race_free::{
    MakesAhead, RaceFree, all_choices, race_choices as choices_to_race, search_race_free,
};
use search_reach::{Follows, SearchPlan, Seeks};
use spawn_host::Request;
use std::alloc::{AllocError, Global};

/// How many plain turns a thread makes in a row before the others have theirs.
pub const MOST_PLAIN: u32 = 10_000;

/// All endings of a call of an exported function, each with so many first bytes of the memory, where no threads race:
/// each makes its loads and stores that aren't atomic at once, and they take turns at all else.
///
/// At `Verdict::All` the list has the ending of every run of the module by this call, word for word as `all_endings`
/// says it, and no threads without budgets race in any run by this call (`NeverRaces`): none makes a load or a store
/// that isn't atomic, and later, when it has made nothing since but such, another wants an access to a byte of it, one
/// of the two writing; nor do two want accesses to a byte at once, one writing, unless both are atomic and of the same
/// bytes. An access all of whose bytes are allowed counts as atomic, and two of these don't race, whatever their bytes;
/// where mixed accesses are, two atomic ones don't. A race that is given is in some run (`CanRaceSo`); only at
/// `Verdict::CannotTell` one is, and not always: a thread may make turns of its own without end, or none may be found.
///
/// Where it met all and `timed` is false, no thread waits with a timeout in any run (`NeverWaitsTimed`); where `timed` is
/// true one does in some run (`WaitsTimedSo`).
///
/// All else is as of `all_endings`, which ends at an ending that is looked for too, but `states` counts states with what
/// each thread owns: what it has read and written since it last made anything but loads and stores that aren't atomic.
/// Of `levels` nothing is said. A crew (`Hands`) may make ahead what comes of states: nothing that is said depends on it.
///
/// # Errors
/// Where memory is refused.
pub fn race_free_endings<'m, C: MakesAhead<Searched<'m>>, Q: Seeks<Ending>, F: Follows>(
    alloc: Global,
    request: &Request<'m, '_>,
    allowed: &Allowed<'m>,
    crew: &C,
    plan: &SearchPlan<Q>,
    dump: usize,
    follower: &mut F,
) -> Result<RaceFree<Ending>, AllocError>
    requires { C.ready crew.now }
    ensures found { IfOk result
        (λ r. AreListed (race_free_claims_of request.now allowed.now dump) plan.now.most (F.wish follower.new) r.ended) }
    ensures paths { IfOk result (λ r. vec_len r.ended.paths ≡ index_set_len r.ended.endings) }
    ensures ways { IfOk result (λ r. HasWaysFreely request.now allowed.now dump r.ended) }
    ensures count { IfOk result (λ r. CountsOwned request.now allowed.now r.ended.states) }
    ensures live { IfOk result
        (λ r. SaysWhereAllFree request.now allowed.now dump r.ended.states r.ended.verdict r.ended.liveness) }
    ensures none { IfOk result (λ r. r.ended.verdict ≡ verdicts.All
        → NeverRaces request.now.parts request.now.name request.now.args allowed.now) }
    ensures race { IfOk result
        (λ r. IfSome r.race (CanRaceSo request.now.parts request.now.name request.now.args allowed.now)) }
    ensures untimed { IfOk result (λ r. r.ended.verdict ≡ verdicts.All → r.timed ≡ false
        → NeverWaitsTimed request.now.parts request.now.name request.now.args allowed.now) }
    ensures timed { IfOk result (λ r. r.timed ≡ true
        → WaitsTimedSo request.now.parts request.now.name request.now.args allowed.now) }
    ensures seeks { IfOk result (λ r. HasSought (Q.sought plan.now.sought) r.ended.verdict r.ended.endings.keys) }
    ensures obeys { IfOk result (λ r.
        Obeys (F.wish follower.old) (F.wish follower.new) (F.told_at follower.new) r.ended.verdict r.ended.states) }
{
    let searched = searched(alloc, request, allowed, dump)?;
    search_race_free(alloc, &searched, crew, plan, MOST_PLAIN, follower)
}

/// The choices of each turn along choices that `race_free_endings` gives with an ending, or with what never ends: which
/// of the threads that can go on makes the next one, as `all_endings` gives them. No clause says where they lead: they
/// are a hint, to be judged by whoever follows them.
///
/// # Errors
/// Where memory is refused.
pub fn turn_choices<'m>(
    alloc: Global,
    request: &Request<'m, '_>,
    allowed: &Allowed<'m>,
    dump: usize,
    choices: &[usize],
) -> Result<Vec<usize>, AllocError> {
    let searched = searched(alloc, request, allowed, dump)?;
    all_choices(alloc, &searched, MOST_PLAIN, choices)
}

/// The choices of each turn to the accesses that race, along the way that `race_free_endings` gives with a race; as
/// those of `turn_choices` they are a hint. A thread makes `most_plain` plain turns in a row at most: with `MOST_PLAIN`
/// the choices are those of the search, and with fewer a thread that spins on plain data leaves its spin sooner.
///
/// # Errors
/// Where memory is refused.
pub fn race_choices<'m>(
    alloc: Global,
    request: &Request<'m, '_>,
    allowed: &Allowed<'m>,
    dump: usize,
    way: &[usize],
    most_plain: u32,
) -> Result<Vec<usize>, AllocError> {
    let searched = searched(alloc, request, allowed, dump)?;
    choices_to_race(alloc, &searched, most_plain, way)
}
