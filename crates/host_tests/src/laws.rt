//! The laws of records and of runs, each called once.
use replay::{
    agreeing_records_are_of_runs, logs_of_runs_are_legal, no_run_has_a_misfit,
    no_run_has_a_wrong_end, runs_end_in_one_memory, wrong_ends_are_of_no_run,
};
use report_runs::the_log_is_the_history_that_all_seats_saw;

#[test]
fn laws_of_records_ask_for_nothing() {
    agreeing_records_are_of_runs();
    wrong_ends_are_of_no_run();
    runs_end_in_one_memory();
    no_run_has_a_wrong_end();
    no_run_has_a_misfit();
    logs_of_runs_are_legal();
}

#[test]
fn laws_of_runs_ask_for_nothing() {
    the_log_is_the_history_that_all_seats_saw::<u64>();
}
