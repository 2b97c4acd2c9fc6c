//! Each law once: those of walks at one choice of types; and the laws of threads, on which they stand.
use replay_rules::{
    ends_are_the_same, runs_are_in_range, runs_are_recorded, stops_are_misfits, walks_are_made,
};
use schedule_examples::two_threads_ran_together;
use schedule_runs::{beginnings_stay, nobody_begins_later, threads_make_one_run};
use schedule_threads::{
    programs_keep_the_laws_of_a_machine, threads_over_memory_and_queue_keep_the_laws,
};

#[test]
fn laws_of_walks_hold_at_any_types() {
    walks_are_made::<bool, u64, u8, u32, i32, u16>();
    ends_are_the_same::<bool, u64, u8, u32, i32, u16>();
    stops_are_misfits::<bool, u64, u8, u32, i32, u16>();
}

#[test]
fn laws_of_records_ask_for_nothing() {
    runs_are_recorded();
    runs_are_in_range();
}

#[test]
fn laws_of_threads_ask_for_nothing() {
    threads_over_memory_and_queue_keep_the_laws::<u64>();
    programs_keep_the_laws_of_a_machine();
    threads_make_one_run();
    beginnings_stay();
    nobody_begins_later();
    two_threads_ran_together();
}
