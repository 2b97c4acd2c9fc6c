//! Turns of a thread inside its functions: variables, numbers, blocks and branches, as steps of the thread machine over
//! flat code with its table of branches.
//!
//! Proved: each function makes the machine's next step, whatever the flat state stands for.
#![tactic(auto)]

mod arithmetic;
mod control;
mod leaving;
mod variables;

pub use arithmetic::{
    comparison, constant, conversion, i32_operator, i64_operator, unary_operator, zero_test,
};
pub use control::{block, br, br_if, br_table, else_part, end, if_start, loop_start, return_now};
pub use variables::{
    drop_value, fence, global_get, global_set, local_get, local_set, local_tee, nop, select,
    unreachable_instr,
};
