//! The numeric instructions (Core specification 1.0, section 4.3): each operator on integers of 32 and of 64 bits.
//!
//! Proved: each operator gives what the standard's does at both widths, and traps exactly where that does.
#![tactic(auto)]

mod convert;
mod laws;
mod narrow;
mod wide;

pub use convert::{i32_wrap_i64, i64_extend_i32_s, i64_extend_i32_u, sign_extended};
pub use laws::{below_stays, typed_results, unsigned_of_signed};
pub use narrow::{i32_binary, i32_compare, i32_eqz, i32_unary};
pub use wide::{i64_binary, i64_compare, i64_eqz, i64_unary};
