//! What a host keeps between calls: modules that are read and validated once, and instances of them, each with a memory
//! that stays.
//!
//! Proved: what a call, a replay and a search of an instance answer is what they answer of the module of the instance,
//! which is valid and begins with the instance's memory (`specs/Instances.antt`); reading and writing are exact, and
//! nothing but them, a memory that is set, and a run that is kept changes an instance.
#![tactic(auto)]

mod instance;
mod laws;
mod module;
mod opening;

pub use instance::Instance;
pub use laws::{instances_begin_with_their_memories, runs_leave_memories};
pub use module::KeptModule;
