//! What a host asks for in its own process, on one thread: a module is checked, run along a schedule that is drawn,
//! replayed along a record, and gone through in every order of its threads' entries.
//!
//! Proved: what each call answers, from the bytes of the module on, and of each fault what it says of them
//! (`specs/Hosts.antt`). A run is the run of its number by its seed, as `wathread search` makes it; a replay is of a
//! record of a run of the module; the endings are those of `search_modules::all_endings`.
#![tactic(auto)]

mod calls;
mod fault;
mod plan;
mod requests;
mod well;

pub use calls::{
    endings_of, endings_of_module, functions_of, replay_of, replay_of_module, run_of, run_of_module,
};
pub use fault::HostFault;
pub use plan::Plan;
pub use requests::module_of;
pub use well::is_well;
