//! Each law at one choice of types: a machine's configurations as `u64`, its events as `u8`, what is shared as `bool`.
use schedule::{
    acts_and_losses_fix_the_end, every_other_gives_the_same, one_schedule, schedule_follows,
    scheduled_runs_go_on, threads_leave_last, threads_with_budgets_keep_the_laws,
};
use schedule_examples::{
    a_worked_run, another_schedule_gives_the_same, no_answer_of_another_thread,
    no_entry_after_leave,
};

#[test]
fn laws_hold_at_any_types() {
    one_schedule::<bool, u64, u8, u32, i32>();
    schedule_follows::<bool, u64, u8, u32, i32, u16>();
    every_other_gives_the_same::<bool, u64, u8, u32, i32>();
    threads_with_budgets_keep_the_laws::<u64, u8, u32, i32, u16, bool>();
    threads_leave_last::<u64, u8, u32, i32, u16, bool>();
    acts_and_losses_fix_the_end::<bool, u64, u8, u32, i32>();
    scheduled_runs_go_on::<bool, u64, u8, u32, i32>();
}

#[test]
fn worked_runs_ask_for_nothing() {
    a_worked_run();
    another_schedule_gives_the_same();
    no_answer_of_another_thread();
    no_entry_after_leave();
}
