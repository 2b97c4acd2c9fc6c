//! Worked examples of the definitions that the headline rests on: what small functions cost and how they end, by the
//! thread machine (crate `interp_machine`); a run of two threads of a small system with its schedules (crate
//! `schedule`); and two threads of a module that ran together (crate `schedule_runs`). Nothing stands on this crate.
//!
//! Proved: each example comes out as was worked out by hand, so the premises of the theorems can be met.
#![tactic(auto)]

mod functions;
mod schedules;

pub use functions::{
    a_branch_costs_one_unit, a_store_over_two_words_has_two_parts, an_empty_arm_costs_its_end,
    an_indirect_call_is_tested, either_arm_costs_the_same, the_thousandth_call_traps,
};
pub use schedules::{
    a_worked_run, another_schedule_gives_the_same, no_answer_of_another_thread,
    no_entry_after_leave, two_threads_ran_together,
};
