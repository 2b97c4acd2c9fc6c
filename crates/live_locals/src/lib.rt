//! Which locals are live at each place of a valid module's code: those that may be read there before they are written.
//! What isn't live is dead, and whatever it is, the thread goes on alike.
//!
//! Proved: `is_sound` accepts the tables that are sound and no others, and those that `live_tables` gives are sound,
//! whatever the analysis found that it takes them from. Of every program, what comes next of configurations that are alike,
//! the same but for dead locals, is alike: the same trap, result or event, and with the same reply or answer alike
//! configurations. Being alike is an equivalence. Where tables are sound for a valid module, configurations of a thread
//! that differ in what they call dead are alike.
//!
//! `specs/Live.antt` says what a sound table is, without saying how to come by one: what an instruction reads is live
//! before it, and so is what is live at each place where it may go, but for what it writes. What a table has no mark
//! for is live, so one without rows is sound, and stands in where memory or time would not do. `specs/Lives.antt` says of
//! nested code which locals are live, by recursion on the code, as the typing rules do with operands; `specs/Alike.antt`
//! which configurations are alike, and `specs/Dead.antt` which differ in what is dead by a table.
#![tactic(auto)]

mod analysis;
mod checking;
mod instructions;
mod laws;
mod rows;
mod tables;

pub use checking::is_sound;
pub use laws::{alike_threads_go_alike, dead_locals_do_not_count};
pub use rows::is_live;
pub use tables::{LiveTables, MOST_MARKS, live_tables};
