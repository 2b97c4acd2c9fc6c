//! The laws of the shared memory's histories, each as a function that does nothing and whose contract is the law; and
//! what two callers that met can rely on.
//!
//! Proved: in each legal history an answer is of one open question, and where anybody is alive, somebody is awake. No
//! thread is both asleep and owed an answer; a notify wakes those that have slept longest at its address, at most as
//! many as it counts; a positive timeout ends only where every live thread is asleep, and the least ends first;
//! threads sleep for good only where no timeout is left. Settling after an answer taken would change nothing. A prefix
//! of a legal history is legal. Two callers that met have one list, which begins with the list of each.
#![tactic(auto)]

mod callers;

ghost use Rattle.shared_memory_laws.specs.Laws.{AnswersAlternate, OpenUntilAnswered, NeverAsleepAndOwed};
ghost use Rattle.shared_memory_laws.specs.Laws.{NotifyWakesTheLongestAsleep, TimeoutsEndOnlyWhereAllSleep};
ghost use Rattle.shared_memory_laws.specs.Laws.{ForGoodOnlyWhereNoTimeoutIsLeft};
ghost use Rattle.shared_memory_laws.specs.Laws.{SomebodyIsAwake, AnswersTakenLeaveItSettled};
ghost use Rattle.shared_memory_laws.specs.Laws.{OneHistoryPerLongestList, PrefixesAreLegal};
ghost use Rattle.shared_memory_laws.specs.Example.{WorkedHistory};

pub use callers::{agree, most_pages};

/// Each answer that a thread takes answers one question of its own: the two alternate.
pub fn every_answer_taken_answers_one_question()
    ensures { AnswersAlternate }
{}

/// A question is open from its entry on until its thread takes the answer.
pub fn a_question_is_open_until_its_answer_is_taken()
    ensures { OpenUntilAnswered }
{}

/// No thread is asleep while an answer is due to it.
pub fn asleep_or_owed_never_both()
    ensures { NeverAsleepAndOwed }
{}

/// A notify wakes those who have slept longest at its address, at most as many as it counts, and is answered how many.
pub fn notify_wakes_the_longest_asleep()
    ensures { NotifyWakesTheLongestAsleep }
{}

/// The timeout of a sleeper ends only where all live threads sleep, and no other one's ends before it.
pub fn timeout_ends_only_where_all_sleep()
    ensures { TimeoutsEndOnlyWhereAllSleep }
{}

/// A thread is told that it sleeps for good only where all live threads sleep and no timeout is left to end.
pub fn asleep_for_good_only_where_no_timeout_is_left()
    ensures { ForGoodOnlyWhereNoTimeoutIsLeft }
{}

/// After no legal history do all live threads sleep: where somebody is alive, somebody alive is awake. So no timeout is
/// left that would have to end, and nobody sleeps who would have to be told that it does for good.
pub fn somebody_alive_is_awake()
    ensures { SomebodyIsAwake }
{}

/// Settling after an answer taken would change nothing.
pub fn an_answer_taken_leaves_the_queue_settled()
    ensures { AnswersTakenLeaveItSettled }
{}

/// The histories that threads have seen of one list are one history, as far as each of them goes.
pub fn one_history_per_longest_list()
    ensures { OneHistoryPerLongestList }
{}

/// What begins a legal history is legal.
pub fn a_prefix_of_a_legal_history_is_legal()
    ensures { PrefixesAreLegal }
{}

/// A worked history: one thread starts another, which waits until the first one notifies it, and both end.
pub fn a_worked_history()
    ensures { WorkedHistory }
{}
