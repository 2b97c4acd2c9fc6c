//! All endings of a call of a module's function: its threads gone through in every order of their events.
//!
//! Proved: at `Verdict::All` the list has the ending of every run by the call that ended without want of units or a
//! full log; from which states threads can't come to an ending is exact, and a fair run of them goes on for ever only
//! where that is said, none where the opposite is. At `Verdict::Sought` the list has an ending that is looked for, and at
//! no other verdict. Whatever the verdict, threads can end by the call as each of the list says, and the scheduled machine
//! comes there; the list has the ending of each such run with no more entries than `levels` says; and behind a wish that
//! the search ends no state was met. `race_free_endings` says the same, but for `levels`, where no threads race, and there
//! that none do, and goes through fewer states; a race that it gives is in some run (`specs/Races.antt`).
//!
//! `report_runs::record_run` and `report_runs::run_on_words` say of what they answer that it is the end of a run
//! (`EndsRun`, `EndsRunOnWords`). `specs/Returned.antt` says that such an end is one of those that the module's threads
//! come to without budgets (crate `search_runs`), if no thread stopped for want of units or for a full log: so it is
//! among what is found here.
#![tactic(auto)]

mod accesses;
mod after;
mod all;
mod beginning;
mod called;
mod calling;
mod hands;
mod moves;
mod race_free;
mod returned;

pub use all::all_endings;
pub use hands::Hands;
pub use race_free::{MOST_PLAIN, race_choices, race_free_endings, turn_choices};
pub use returned::what_runs_return_is_reached;
pub use search_race_free::{Alone, RaceFree, ThreadRace};
pub use search_reach::{Ended, FairCycle, FairRuns, Liveness, Verdict};
