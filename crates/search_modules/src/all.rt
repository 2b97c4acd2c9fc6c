//! All endings of a call.

ghost use Rattle.std.specs.Prelude.{◌≡◌, IfOk, IfSome, vec_len};
ghost use Rattle.indexmap.specs.IndexSet.{index_set_len};
ghost use Rattle.search_reach.specs.Found.{AreListed};
ghost use Rattle.search_reach.specs.Levels.{IsLeveled};
ghost use Rattle.search_reach.specs.Told.{Obeys};
ghost use Rattle.search_modules.specs.Endings.{HasEveryEndingWithin, HasSought, claims_of};
ghost use Rattle.search_modules.specs.Liveness.{CountsStates, SaysWhereAll};
ghost use Rattle.search_modules.specs.Ways.{HasWaysOf};

use crate::calling::searched;
use allowed_races::Allowed;
use search_endings::Ending;
use search_reach::{Ended, Follows, SearchPlan, Seeks};
use search_settled::search_all;
use spawn_host::Request;
use std::alloc::{AllocError, Global};

/// All endings of a call of an exported function, each with so many first bytes of the memory: its threads are gone
/// through in every order of their events, until there are no more states, more than the plan's most were met, or the
/// follower tells it to end.
///
/// At `Verdict::All` the list has the ending of every run of the module by this call, over either memory, whatever its
/// budget and its log, in which no thread stopped for want of units or for a full log (`HasEveryEnding`). Whatever the
/// verdict, threads can end by this call as each of the list says, and the machine of a run comes there along some
/// turns, with some budget (`search_runs::every_end_is_scheduled`). Beside each stands a path, which leads from state to
/// state of the search to one that has ended so (`HasWaysOf`); `search_finds::run_to` makes a run along it. It says
/// `Verdict::TooMany` only where it met more than the plan's most states, and `Verdict::CannotTell` only where threads can
/// come by this call to where one makes a million turns of its own without coming to rest, or stands where a spawned one
/// begins in a module that can start none (`CanBeLost`), and `Verdict::Told` only where the follower's last wish is that
/// it ends; and where it didn't wish that before, it says so, and met no state behind the wish (`Obeys`).
///
/// It ends at the first state that has ended as is looked for: `Verdict::Sought` says that the list has such an ending,
/// and every other verdict that it has none (`HasSought`). Whatever the verdict, the list has the ending of every run,
/// as above, that has at most as many entries as `levels` says (`HasEveryEndingWithin`). Depth first `levels` says
/// nothing; breadth first it does, unless no state was met.
///
/// `states` is the number of states that it met, of which no two are equal, and to each of which threads can come
/// (`CountsStates`). At `Verdict::All`, and there alone, it says of which of them no ending can be reached, and whether a
/// fair run of threads without budgets goes on for ever (`SaysOfCall`): one in which each thread that wants a turn of its
/// own or an event makes its next turn then or later. The choices that it gives with that lead to a state from which no
/// ending can be reached, and to where such a run goes round, and once round (`HasWaysOf`).
///
/// # Errors
/// Where memory is refused.
pub fn all_endings<Q: Seeks<Ending>, F: Follows>(
    alloc: Global,
    request: &Request,
    plan: &SearchPlan<Q>,
    dump: usize,
    follower: &mut F,
) -> Result<Ended<Ending>, AllocError>
    ensures found { IfOk result (AreListed (claims_of request.now dump) plan.now.most (F.wish follower.new)) }
    ensures paths { IfOk result (λ r. vec_len r.paths ≡ index_set_len r.endings) }
    ensures ways { IfOk result (HasWaysOf request.now dump) }
    ensures count { IfOk result (λ r. CountsStates request.now r.states) }
    ensures live { IfOk result (λ r. SaysWhereAll request.now dump r.states r.verdict r.liveness) }
    ensures seeks { IfOk result (λ r. HasSought (Q.sought plan.now.sought) r.verdict r.endings.keys) }
    ensures levels { IfOk result (λ r. IfSome r.levels
        (HasEveryEndingWithin request.now.parts request.now.name request.now.args dump r.endings.keys)) }
    ensures leveled { IfOk result (λ r. IsLeveled plan.now.order r.levels (r.states ≡ 0)) }
    ensures obeys { IfOk result (λ r.
        Obeys (F.wish follower.old) (F.wish follower.new) (F.told_at follower.new) r.verdict r.states) }
{
    let searched = searched(alloc, request, &Allowed::nothing(), dump)?;
    search_all(alloc, &searched, plan, follower)
}
