//! The laws of histories and of lanes, each called once; and two seats of a recorder that agree.

use crate::adding::add;
use crate::trial::{IMAGE, THREE_PAGES, Trial, try_at_recorder};
use shared_memory::SharedMemory;
use shared_memory_laws::{
    a_prefix_of_a_legal_history_is_legal, a_question_is_open_until_its_answer_is_taken,
    a_worked_history, agree, an_answer_taken_leaves_the_queue_settled,
    asleep_for_good_only_where_no_timeout_is_left, asleep_or_owed_never_both,
    every_answer_taken_answers_one_question, most_pages, notify_wakes_the_longest_asleep,
    one_history_per_longest_list, somebody_alive_is_awake, timeout_ends_only_where_all_sleep,
};
use shared_memory_sequential::{lane_elsewhere, lane_of_with_lane};
use std::test::Fail;
use test_cases::hold;

#[test]
fn laws_of_histories_ask_for_nothing() {
    every_answer_taken_answers_one_question();
    a_question_is_open_until_its_answer_is_taken();
    asleep_or_owed_never_both();
    notify_wakes_the_longest_asleep();
    timeout_ends_only_where_all_sleep();
    asleep_for_good_only_where_no_timeout_is_left();
    somebody_alive_is_awake();
    an_answer_taken_leaves_the_queue_settled();
    one_history_per_longest_list();
    a_prefix_of_a_legal_history_is_legal();
    a_worked_history();
}

#[test]
fn laws_of_lanes_ask_for_nothing() {
    lane_of_with_lane();
    lane_elsewhere();
}

/// Two seats that add once each, and then meet.
pub(crate) fn agree_after_two<M: SharedMemory>(
    memory: &M,
    seats: &mut Vec<M::Seat>,
) -> Result<(), Fail> {
    let [.., b, a] = seats.as_mut_slice() else {
        return Err(Fail::new("no seats"));
    };
    let _ = memory.access(a, add(8, 8));
    let _ = memory.access(b, add(8, 8));
    agree(memory, a, b);
    hold(&[("the most pages", most_pages(memory) == THREE_PAGES)])
}

#[test]
fn two_seats_agree(rt: HostRuntime) -> Result<(), Fail> {
    let end = try_at_recorder(&rt, rt.alloc(), &IMAGE, THREE_PAGES, 5000, Trial::Agreement)?;
    hold(&[("the log's length", end.log.len() == 2)])
}
