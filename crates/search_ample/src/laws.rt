//! What is so of all runs where only some threads go on. Each function here does nothing, and its contract is a law.
ghost use Rattle.search_ample.specs.Systems.{System, AreIndependent};
ghost use Rattle.search_ample.specs.Explored.{Meaning};
ghost use Rattle.search_ample.specs.Found.{
  WhereAmple,
  WhereExplored,
  FootprintsHold,
  EndsAreFound,
  WantsAreFound,
  ConflictsAreFound,
  AllComeBack,
  AllCanGoOn,
};
ghost use Rattle.search_ample.specs.Ending.{EndsAreExact, AllComeToEnds};
ghost use Rattle.search_ample.specs.Fair.{NoFairRunGoesOn, FairRunsAreMade};
ghost use Rattle.search_ample.specs.Turns.{TurnSystem, steps_of, AreTurns};
ghost use Rattle.search_ample.specs.TurnRuns.{
  WhereNoneRace,
  TurnEndsAreFound,
  TurnWantsAreFound,
  TurnConflictsAreFound,
  NoTurnsRace,
  AllStep,
  AllComeToStop,
};

/// Threads that make steps, and what stands for their states.
pub trait SteppingThreads {
    ghost World: { Type 0 };

    /// What a step does.
    ghost Act: { Type 0 };

    ghost system: { Self → System World Act };

    /// What numbers are of.
    ghost meaning: { Self → Meaning World Act };
}

/// Where steps that don't conflict are independent, and the check of which threads go on passes: what threads want is
/// in their footprints, in all runs; each end is found, and all that a thread wants, and each two wants that
/// conflict, both at once; each run can go on to what is found; and a thread that wants something can go on, in all
/// runs, if it can wherever was explored.
pub fn it_is_enough_that_some_go_on<T: SteppingThreads>(threads: &T)
    ensures footprints { WhereAmple FootprintsHold (T.system threads.now) (T.meaning threads.now) }
    ensures ends { WhereAmple EndsAreFound (T.system threads.now) (T.meaning threads.now) }
    ensures wants { WhereAmple WantsAreFound (T.system threads.now) (T.meaning threads.now) }
    ensures conflicts { WhereAmple ConflictsAreFound (T.system threads.now) (T.meaning threads.now) }
    ensures back { WhereAmple AllComeBack (T.system threads.now) (T.meaning threads.now) }
    ensures can { WhereAmple AllCanGoOn (T.system threads.now) (T.meaning threads.now) }
{}

/// There, what was explored tells whether threads can come to an end.
pub fn ends_are_told<T: SteppingThreads>(threads: &T)
    ensures exact { WhereAmple EndsAreExact (T.system threads.now) (T.meaning threads.now) }
    ensures all { WhereAmple AllComeToEnds (T.system threads.now) (T.meaning threads.now) }
{}

/// There, no fair run goes on for ever where each fair run of what was explored ends. And one of what was explored,
/// fair to all threads that can go on, is one of the threads.
pub fn fair_runs_are_told<T: SteppingThreads>(threads: &T)
    ensures none { WhereAmple NoFairRunGoesOn (T.system threads.now) (T.meaning threads.now) }
    ensures made { WhereExplored FairRunsAreMade (T.system threads.now) (T.meaning threads.now) }
{}

/// Threads that make turns, one access at a time, of which some are plain; and what stands for their states.
pub trait TurningThreads {
    ghost World: { Type 0 };

    /// What a turn does.
    ghost Act: { Type 0 };

    ghost system: { Self → TurnSystem World Act };

    /// What numbers are of.
    ghost meaning: { Self → Meaning World Act };
}

/// Steps of plain turns and one that isn't plain are independent where turns are.
pub fn steps_are_independent<T: TurningThreads>(threads: &T)
    ensures { AreTurns (T.system threads.now) → AreIndependent (steps_of (T.system threads.now)) }
{}

/// So it is enough to explore steps, of some threads: where no two threads race wherever was explored, none race in
/// any run of turns; each end of one is found, each turn that a thread wants, and each two that conflict; a thread that
/// can make a turn comes to an event, if it does wherever was explored; and then each run can still end, where that is
/// so of all that was explored.
pub fn runs_of_turns_are_told<T: TurningThreads>(threads: &T)
    ensures ends { WhereNoneRace TurnEndsAreFound (T.system threads.now) (T.meaning threads.now) }
    ensures wants { WhereNoneRace TurnWantsAreFound (T.system threads.now) (T.meaning threads.now) }
    ensures conflicts { WhereNoneRace TurnConflictsAreFound (T.system threads.now) (T.meaning threads.now) }
    ensures races { WhereNoneRace NoTurnsRace (T.system threads.now) (T.meaning threads.now) }
    ensures steps { WhereNoneRace AllStep (T.system threads.now) (T.meaning threads.now) }
    ensures stop { WhereNoneRace AllComeToStop (T.system threads.now) (T.meaning threads.now) }
{}
