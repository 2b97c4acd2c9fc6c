//! Cases as text, for those who try them. A file of cases is read line by line: a case begins with a line `== TITLE`,
//! and each of its lines is a key, a space and what the key has. Several lines of one key are a text of several lines.
//! What stands before the first case is for the reader alone, and so is a line that begins with `#`.
//!
//! Proved: a `Tally` is wrong exactly where a case was, and `hold` succeeds exactly where each row holds.
//!
//! ```text
//! The modules of one access.
//! == an atomic add
//! words run a.wasm --dump 8
//! # The word was 0.
//! out thread 0: ok i32:0
//! out pages 1
//! ```
//!
//! A row of a file of cases may also replace lines of a text (`Edit`): `3-4 TEXT` puts the lines of TEXT in place of
//! lines 3 and 4, counted from 1 on, and `3 TEXT` in place of line 3. In TEXT `\n` separates lines, and `\r` is a
//! carriage return; where it is empty the lines are left out. Behind ` => ` a row says why a text so changed is
//! refused.
//!
//! What isn't a case but a test says what it has to find row by row, to `hold`.
#![tactic(auto)]

mod case;
mod edit;
mod file;
mod hex;
mod letters;
mod rows;
mod tally;

pub use case::{Case, cases};
pub use edit::{Edit, edited};
pub use file::read_file;
pub use hex::from_hex;
pub use rows::hold;
pub use tally::{Stop, Tally};
