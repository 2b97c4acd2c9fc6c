//! What small functions do by the definitions: how many units they cost, and how they end.

ghost use Rattle.std.specs.Prelude.{◌≡◌};
ghost use Rattle.types.specs.declared.outcome.Outcome.TheVariants.{Trap};
ghost use Rattle.types.specs.declared.outcome.Trap.TheVariants.{StackExhausted, UndefinedElement, UninitializedElement};
ghost use Rattle.types.specs.declared.outcome.Trap.TheVariants.{SignatureMismatch};
ghost use Rattle.interp_machine.specs.State.{Over, gone_times};
ghost use Rattle.schedule_examples.specs.Functions.{Costs, CostsWith, gives, WantsStore, program_with, with_table};
ghost use Rattle.schedule_examples.specs.Functions.{two_arms, one_arm, branch_out, calls_itself, calls_place_of};
ghost use Rattle.schedule_examples.specs.Functions.{two_word_store, at_low, at_high, behind_both};

/// An `if` with an `else` costs, beside what its arm costs, one unit for itself and one for the end of the arm, whichever
/// arm is entered: 6 units in all, with two constants, a `nop` and the function's end.
pub fn either_arm_costs_the_same()
    ensures first { Costs 6 (two_arms 1) (gives 7) }
    ensures second { Costs 6 (two_arms 0) (gives 7) }
{}

/// An `if` without an `else` has an empty second arm, left at its end: 5 units where it is entered, 6 where the other is.
pub fn an_empty_arm_costs_its_end()
    ensures entered { Costs 6 (one_arm 1) (gives 7) }
    ensures empty { Costs 5 (one_arm 0) (gives 7) }
{}

/// A branch leaves the blocks that it passes without more cost: 4 units, with the block, the branch, a constant and the
/// function's end.
pub fn a_branch_costs_one_unit()
    ensures { Costs 4 branch_out (gives 7) }
{}

/// The call that would open the 1,001st frame traps: a function that calls itself traps with its thousandth call.
pub fn the_thousandth_call_traps()
    ensures { Costs 1000 calls_itself (Trap StackExhausted) }
{}

/// A store of 8 bytes at 4 is two events, the low part first, both with the end of the whole: 6 units, with three constants
/// and the function's end.
pub fn a_store_over_two_words_has_two_parts()
    ensures low { WantsStore at_low 4 4 12 1432778632 }
    ensures high { WantsStore at_high 8 4 12 287454020 }
    ensures end { gone_times 2 (program_with two_word_store) behind_both ≡ Over (gives 0) }
{}

/// An indirect call tests that the place is there, that it isn't empty, and that the function has the stated type: 5
/// units where all is well, and 2 up to a trap.
pub fn an_indirect_call_is_tested()
    ensures called { CostsWith 5 (with_table 0) (calls_place_of 0) (gives 42) }
    ensures other_type { CostsWith 2 (with_table 1) (calls_place_of 1) (Trap SignatureMismatch) }
    ensures empty { CostsWith 2 (with_table 2) (calls_place_of 2) (Trap UninitializedElement) }
    ensures past { CostsWith 2 (with_table 3) (calls_place_of 3) (Trap UndefinedElement) }
{}
