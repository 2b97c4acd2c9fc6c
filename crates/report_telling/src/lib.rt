//! What a search tells, in lines or in one object. `telling` says what is told, `lines` tells it in lines, of which
//! those of all runs are in `complete` and those of drawn ones in `table`, and `objects` in one object. The values that
//! are told: in `found` what was found of all runs and a run that was found, in `racing` what is known of races, and a
//! run that has one. `complete` and `table` have whether all of it is well, too.
//!
//! Proved: what is told is one value in either form, lines to the byte, of which that of a race alone is any that says
//! so, and of the object all but its hints. Before the end each of these lines is told as soon as it is known, and of
//! the object nothing. What was found of all runs is well exactly where these are all endings, there is one, in each
//! all threads ended well and none is looked for, every state can end, and every fair run does. The status of drawn
//! runs of which none was found is 0 exactly where runs were made, and each ended well and otherwise than is looked
//! for.
#![tactic(auto)]

mod complete;
mod found;
mod lines;
mod objects;
mod racing;
mod table;
mod telling;

pub use complete::{Complete, are_well};
pub use found::{FoundRun, KeptRun, WholeSearch};
pub use lines::LinesTeller;
pub use objects::ObjectTeller;
pub use racing::{KeptRace, Raced, Racing, RacyRun, trouble_of};
pub use table::{DrawnTable, NoneFound, status_of_none};
pub use telling::{Conclusion, News, Teller, ToldSearch};
