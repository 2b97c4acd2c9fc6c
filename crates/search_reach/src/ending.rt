//! How the states that were met have ended.
ghost use Rattle.std.specs.Prelude.{◌≡◌, IfOk, IfSome, OnOk, length, vec_len};
ghost use Rattle.indexmap.specs.IndexSet.{index_set_len, insert_key};
ghost use Rattle.search_reach.specs.Meeting.{HasSound, OfStates, AreGathered, IsReachedIn};
ghost use Rattle.search_reach.specs.Explored.{IsWhole};
ghost use Rattle.search_reach.specs.Found.{AreEndings, IsSearched};
ghost use Rattle.search_reach.specs.Liveness.{IsCount, IsLiveWhereAll, HasWays};
ghost use Rattle.search_reach.specs.Levels.{HasEndsWithin, HasGoneThrough, IsLeveled};
ghost use Rattle.search_reach.specs.Moved.{AreFirsts, ArePathsTo, IsMoved, insert_first};
ghost use Rattle.search_reach.specs.Sought.{SeeksAmong, SeeksIn};
ghost use Rattle.search_reach.specs.Told.{HadObeyed, HasObeyed, Obeys, OfCount, StillObeys};
ghost use Rattle.search_reach.specs.declared.search.Verdict.TheVariants as verdicts;
ghost use Rattle.search_reach.specs.Ways.{AreNumbered};

use crate::liveness::judged;
use crate::path::{paths_to, ways_in};
use crate::plain::ValueSystem;
use crate::{
    Exploration, Explores, Follows, Liveness, Meets, Reached, SearchPlan, Seeks, Verdict, reach,
};
use indexmap::IndexSet;
use search_graph::Graph;
use std::alloc::{AllocError, Global};
use std::hash::Hash;

/// The endings of states, each once, and for each the index of the first state that has ended so; and of each state
/// whether it has ended.
#[derive(Drop)]
struct Listed<E: Eq + Hash> {
    endings: IndexSet<E>,
    firsts: Vec<usize>,
    ended: Vec<bool>,
}

/// Adds the ending of the state of this index, and notes that index where the ending is new.
fn add_ending<E: Eq + Hash + Drop>(
    endings: &mut IndexSet<E>,
    firsts: &mut Vec<usize>,
    at: usize,
    ending: E,
) -> Result<(), AllocError>
    ensures added { OnOk result (endings.new.keys ≡ insert_key E.eq endings.old.keys ending) }
    ensures firsts { OnOk result (firsts.new.items ≡ insert_first E.eq endings.old.keys ending firsts.old.items at) }
{
    let is_new = endings.insert(ending)?;
    if is_new {
        firsts.push(at)?;
    }
    Ok(())
}

/// The endings of the states of a table, each once, in the order of their first states.
fn endings<T: Meets>(
    alloc: Global,
    system: &T,
    table: &T::Table,
) -> Result<Listed<T::Ending>, AllocError>
    requires { HasSound (T.system system.now) (T.holds system.now table.now) }
    ensures gathered { IfOk result (λ r. OfStates (T.system system.now) (T.holds system.now table.now)
        (λ ks. AreGathered (T.system system.now) T.Ending.eq ks r.endings.keys r.ended.items)) }
    ensures firsts { IfOk result (λ r. OfStates (T.system system.now) (T.holds system.now table.now)
        (λ ks. AreFirsts (T.system system.now) ks r.firsts.items r.endings.keys)) }
    ensures len { IfOk result (λ r. vec_len r.firsts ≡ index_set_len r.endings) }
{
    let mut endings = IndexSet::new(alloc);
    let mut firsts = Vec::new(alloc);
    let mut ended = Vec::new(alloc);
    for at in 0..system.count(table) {
        let ending = system.ending(alloc, table, at)?;
        ended.push(ending.is_some())?;
        if let Some(ending) = ending {
            add_ending(&mut endings, &mut firsts, at, ending)?;
        }
    }
    Ok(Listed {
        endings,
        firsts,
        ended,
    })
}

/// What was found of a system's endings.
#[derive(Drop)]
pub struct Ended<E: Eq + Hash> {
    /// The endings, each once.
    pub endings: IndexSet<E>,
    /// For each ending a way to it from the first state: which of the next states of each is the next one. It leads to a
    /// state that has ended so (`HasWays`), where all states were met or fewer than 2 ^ 32.
    pub paths: Vec<Vec<usize>>,
    /// How many states were met, each once.
    pub states: usize,
    /// Whether these are all.
    pub verdict: Verdict,
    /// Of all that ends behind no more moves than this the ending is there, if anything was met and the search went
    /// breadth first.
    pub levels: Option<u32>,
    /// Where they are all, whether all comes to an end.
    pub liveness: Option<Liveness>,
}

/// A way to each of these states, by the moves that were noted.
fn paths_of(alloc: Global, graph: &Graph, states: &[usize]) -> Result<Vec<Vec<usize>>, AllocError>
    ensures paths { IfOk result (λ paths.
        ArePathsTo graph.now.moves.items graph.now.states paths.items states.now) }
    ensures len { IfOk result (λ paths. vec_len paths ≡ length states.now) }
{
    let moves = graph.moves.as_slice();
    let ways = ways_in(alloc, graph.states, moves)?;
    paths_to(alloc, moves, ways.as_slice(), states)
}

/// The endings of the states that a search by this plan met. Where it met all, it says of which states none ends, and
/// whether every fair run ends.
///
/// # Errors
/// Where memory is refused.
pub fn conclude<T: Meets, Q: Seeks<T::Ending>, F: Follows>(
    alloc: Global,
    system: &T,
    plan: &SearchPlan<Q>,
    reached: Reached<T::Table>,
    follower: &mut F,
) -> Result<Ended<T::Ending>, AllocError>
    requires { IsReachedIn (T.system system.now) (T.equal system.now) (T.holds system.now) plan.now.most
        (F.wish follower.old) (Q.sought plan.now.sought) reached }
    ensures found { IfOk result (AreEndings (T.system system.now) T.Ending.eq plan.now.most (F.wish follower.new)) }
    ensures paths { IfOk result (λ r. vec_len r.paths ≡ index_set_len r.endings) }
    ensures ways { IfOk result (HasWays (T.system system.now) (T.equal system.now)) }
    ensures count { IfOk result (λ r. IsCount (T.system system.now) (T.equal system.now) r.states) }
    ensures live { IfOk result
        (λ r. IsLiveWhereAll (T.system system.now) (T.equal system.now) r.states r.verdict r.liveness) }
    ensures seeks { IfOk result (λ r. SeeksIn (Q.sought plan.now.sought) T.Ending.eq r.verdict r.endings.keys) }
    ensures levels { IfOk result
        (λ r. IfSome r.levels (HasEndsWithin (T.system system.now) T.Ending.eq r.endings.keys)) }
    ensures all { IfOk result (λ r. r.verdict ≡ verdicts.All → reached.verdict ≡ verdicts.All) }
    ensures same { IfOk result (λ r. (r.levels ≡ reached.levels)
        × OfCount (T.holds system.now reached.table) (λ n. r.states ≡ n)) }
    ensures obeys { IfOk result (λ r. StillObeys
        (HasObeyed (T.holds system.now) (F.wish follower.old) (F.told_at follower.old) reached)
        (F.wish follower.new) (F.told_at follower.new) r.verdict r.states) }
{
    let _ = plan;
    let Reached {
        table,
        moves,
        verdict,
        levels,
        ..
    } = reached;
    let Listed {
        endings,
        firsts,
        ended,
    } = endings(alloc, system, &table)?;
    let states = system.count(&table);
    drop(table);
    let graph = Graph { states, moves };
    let paths = paths_of(alloc, &graph, firsts.as_slice())?;
    let (verdict, liveness) = judged(alloc, &graph, ended.as_slice(), verdict, follower)?;
    Ok(Ended {
        endings,
        paths,
        states,
        verdict,
        levels,
        liveness,
    })
}

/// The endings of the states that a search by this plan met, where they are values. Where it met all, it says of which
/// states none ends, and whether every fair run ends.
///
/// # Errors
/// Where memory is refused.
pub fn endings_of<T: Explores, Q: Seeks<T::Ending>, F: Follows>(
    alloc: Global,
    system: &T,
    plan: &SearchPlan<Q>,
    found: Exploration<T::State>,
    follower: &mut F,
) -> Result<Ended<T::Ending>, AllocError>
    requires found { IsSearched (T.system system.now) plan.now.most (F.wish follower.old) found }
    requires whole { IsWhole (T.system system.now) T.State.eq found.met.keys found.moves.items found.verdict }
    requires moved { AreNumbered found.verdict (index_set_len found.met)
        → IsMoved (T.system system.now) T.State.eq found.met.keys found.moves.items }
    requires seeks { SeeksAmong (T.system system.now) (Q.sought plan.now.sought) found.verdict found.met.keys }
    requires levels { HasGoneThrough (T.system system.now) found.met.keys found.levels }
    ensures found { IfOk result (AreEndings (T.system system.now) T.Ending.eq plan.now.most (F.wish follower.new)) }
    ensures paths { IfOk result (λ r. vec_len r.paths ≡ index_set_len r.endings) }
    ensures ways { IfOk result (HasWays (T.system system.now) T.State.eq) }
    ensures count { IfOk result (λ r. IsCount (T.system system.now) T.State.eq r.states) }
    ensures live { IfOk result
        (λ r. IsLiveWhereAll (T.system system.now) T.State.eq r.states r.verdict r.liveness) }
    ensures seeks { IfOk result (λ r. SeeksIn (Q.sought plan.now.sought) T.Ending.eq r.verdict r.endings.keys) }
    ensures levels { IfOk result
        (λ r. IfSome r.levels (HasEndsWithin (T.system system.now) T.Ending.eq r.endings.keys)) }
    ensures obeys { IfOk result (λ r. StillObeys
        (HadObeyed (F.wish follower.old) (F.told_at follower.old) found.verdict (index_set_len found.met))
        (F.wish follower.new) (F.told_at follower.new) r.verdict r.states) }
{
    let plain = ValueSystem { system };
    let Exploration {
        met,
        moves,
        verdict,
        levels,
    } = found;
    let reached = Reached {
        table: met,
        moves,
        verdict,
        levels,
        last: 0,
    };
    conclude(alloc, &plain, plan, reached, follower)
}

/// The endings of a system, of which it meets no more than the plan's most states and a few, those before one that is
/// looked for, and those before it is told to end. Depth first no levels are counted; breadth first they are, unless none was met.
/// Where it met all, it says of which states none ends, and whether every fair run ends.
pub fn all_endings<T: Meets, Q: Seeks<T::Ending>, F: Follows>(
    alloc: Global,
    system: &T,
    plan: &SearchPlan<Q>,
    follower: &mut F,
) -> Result<Ended<T::Ending>, AllocError>
    ensures found { IfOk result (AreEndings (T.system system.now) T.Ending.eq plan.now.most (F.wish follower.new)) }
    ensures paths { IfOk result (λ r. vec_len r.paths ≡ index_set_len r.endings) }
    ensures ways { IfOk result (HasWays (T.system system.now) (T.equal system.now)) }
    ensures count { IfOk result (λ r. IsCount (T.system system.now) (T.equal system.now) r.states) }
    ensures live { IfOk result
        (λ r. IsLiveWhereAll (T.system system.now) (T.equal system.now) r.states r.verdict r.liveness) }
    ensures seeks { IfOk result (λ r. SeeksIn (Q.sought plan.now.sought) T.Ending.eq r.verdict r.endings.keys) }
    ensures levels { IfOk result
        (λ r. IfSome r.levels (HasEndsWithin (T.system system.now) T.Ending.eq r.endings.keys)) }
    ensures leveled { IfOk result (λ r. IsLeveled plan.now.order r.levels (r.states ≡ 0)) }
    ensures obeys { IfOk result (λ r.
        Obeys (F.wish follower.old) (F.wish follower.new) (F.told_at follower.new) r.verdict r.states) }
{
    let reached = reach(alloc, system, plan, follower)?;
    conclude(alloc, system, plan, reached, follower)
}
