//! The run of a module: each of its threads is a real one, over one shared memory, and what they did together is one
//! run.
//!
//! Proved: `run` is the headline over any memory of the trait; an export or arguments are refused only where they
//! don't fit. "No thread" comes only where the module imports `thread-spawn`. Where there is no run, all seats are as
//! they came, or all that thread 0 ever entered is that it leaves; and the gate wasn't called. Where there is one, it
//! was called before each turn of each thread.
#![tactic(auto)]

mod call;
mod end;
mod exports;
mod fit;
mod request;
mod running;
mod threads;

pub use call::Call;
pub use end::EndState;
pub use exports::{OwnFunction, own_function};
pub use request::{CallFault, Request};
pub use running::{RunFault, Unrun, run, run_request};
pub use threads::{first_thread, spawnable_threads, thread_start};
