//! What a search of the program finds, before it is told: `whole` looks for races of all runs first, and then goes
//! through every order; `all` has what is looked for there, `found` what is found, with the status, and what is kept of
//! it, `raced` the run that comes to a race; `call` has what all of them need.
//!
//! Proved: what is found is a run of the call that ends as is looked for, the first ending of the list that is, or a
//! run that never ends, of the kind that is looked for; a smaller one ends alike, or has a race too; a race is one of a
//! run of the call, or of threads that race in some run. The status of every order is 0 exactly where all is well: runs
//! can end, in each all threads end well, and it isn't looked for; they are sure to end, and no run has a race, where
//! these aren't allowed and that is asked. Where words or a result say what is looked for, the verdict on every order
//! says whether an ending that was met is. The record that is written, where one is wanted, is that of the run.
#![tactic(auto)]

mod all;
mod call;
mod found;
mod raced;
mod whole;

pub use all::{EndlessRun, EndlessWay};
pub use call::SearchedCall;
pub use found::{
    StatusAndFound, behind_of, keep_found, keep_made, keep_raced, kept_if_found, kept_of,
};
pub use raced::{kept_race, raced_of};
pub use whole::{FirstLook, first_look, whole_of};
