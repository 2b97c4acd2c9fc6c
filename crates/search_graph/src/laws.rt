//! From a graph to the worlds that its states stand for. Each function here does nothing, and its contract is a law.
ghost use Rattle.std.specs.Prelude.{ℕ, List};
ghost use Rattle.search_graph.specs.declared.graph.Move.{Move};
ghost use Rattle.search_graph.specs.Runs.{EveryFairRunEnds};
ghost use Rattle.search_graph.specs.Worlds.{
  Worlds,
  Persists,
  IsGraphOf,
  IsMadeOf,
  NoFairRun,
  CyclesAreRuns,
  FairRunsBeginBefore,
};

/// Worlds between which threads make steps, and what stands for them.
pub trait StandsFor {
    ghost World: { Type 0 };

    ghost worlds: { Self → Worlds World };

    /// Some of the worlds, which steps don't leave.
    ghost among: { Self → World → Type 0 };

    /// Which worlds a state stands for, and how many steps of each thread nobody sees there before its next move.
    ghost stands: { Self → ℕ → World → (ℕ → ℕ) → Type 0 };

    /// Which worlds a state stands for in which there are none of these.
    ghost rests: { Self → ℕ → World → Type 0 };

    /// More than the number of each thread that goes on.
    ghost most: { Self → ℕ };
}

/// Where a graph has the steps of the worlds, and each fair run of the graph ends, no fair run of the worlds goes on
/// for ever.
pub fn no_fair_run_goes_on<T: StandsFor>(worlds: &T)
    ensures { (moves : List Move) → IsGraphOf (T.worlds worlds.now) (T.stands worlds.now) (T.most worlds.now) moves
        → EveryFairRunEnds moves → NoFairRun (T.worlds worlds.now) (T.stands worlds.now) }
{}

/// Where worlds make the moves of a graph, and a fair run of the graph makes a walk again and again, a fair run of the
/// worlds goes on for ever.
pub fn a_fair_run_goes_round<T: StandsFor>(worlds: &T)
    ensures { (moves : List Move) → IsMadeOf (T.worlds worlds.now) (T.rests worlds.now) (T.among worlds.now) moves
        → CyclesAreRuns (T.worlds worlds.now) (T.rests worlds.now) moves }
{}

/// Where threads that can go on come to a world at which a fair run begins, one begins where they come from.
pub fn a_fair_run_begins_before<T: StandsFor>(worlds: &T)
    ensures { Persists (T.worlds worlds.now) (T.among worlds.now)
        → FairRunsBeginBefore (T.worlds worlds.now) (T.among worlds.now) }
{}
