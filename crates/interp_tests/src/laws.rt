//! The law of the machine, its worked runs and the laws of its numbers, each called once.
use interp_laws::no_thread_is_ever_stuck;
use interp_numeric::{below_stays, typed_results, unsigned_of_signed};
use schedule_examples::{
    a_branch_costs_one_unit, a_store_over_two_words_has_two_parts, an_empty_arm_costs_its_end,
    an_indirect_call_is_tested, either_arm_costs_the_same, the_thousandth_call_traps,
};
use validate_typing::expression_stands_for_one_nesting;

#[test]
fn laws_of_the_machine_ask_for_nothing() {
    no_thread_is_ever_stuck();
    either_arm_costs_the_same();
    an_empty_arm_costs_its_end();
    a_branch_costs_one_unit();
    the_thousandth_call_traps();
    a_store_over_two_words_has_two_parts();
    an_indirect_call_is_tested();
    expression_stands_for_one_nesting();
}

#[test]
fn laws_of_numbers_ask_for_nothing() {
    unsigned_of_signed();
    typed_results();
    below_stays();
}
