//! The laws of the desk, each called once.
use waiters_desk::{
    a_free_thread_stays_free, a_meeting_leaves_both_as_they_stand,
    a_wait_after_a_notify_reads_what_the_notifier_saw, others_leave_a_thread_as_it_stands,
};

#[test]
fn laws_of_the_desk_ask_for_nothing() {
    a_free_thread_stays_free();
    others_leave_a_thread_as_it_stands();
    a_meeting_leaves_both_as_they_stand();
    a_wait_after_a_notify_reads_what_the_notifier_saw();
}
