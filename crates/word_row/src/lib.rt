//! A shared memory as a row of 64-bit words, which threads change by single atomic steps. No call waits.
//!
//! Proved: it meets the trait without a lock; a try is lost only to a change of another thread within that very try. A
//! `Store` or `Rmw` of 8 bytes and a bitwise `Rmw` of any width are never lost, and each try that is lost raises its
//! seat's count by one. `close` gives the pages and bytes after a history that each seat's list begins. `access` and
//! `meet` take no leave to wait, so they return. The words are opened from a list that has room for no other.
//!
//! Word 0 of a table is the page count, and each further word has eight bytes of the memory, the lowest first. An
//! access notes the page count, unless it lies within the one that its seat remembers. A store or a read-modify-write
//! of a whole word, and a bitwise one of any width, is then a single step on its word, and never lost. Any other access
//! loads its word, and where it changes that word exchanges it whole, if it is still the one that was loaded. Where
//! another thread has changed the word meanwhile, the try is lost, and may be made again.
//!
//! The rule of such a memory and the kinds of atomic step that it allows are types of `rule.rt` and `single.rt`; what
//! each step tells stands in `specs/`, and that each keeps the rule in `proofs/`. One history of the whole run exists
//! in the rule alone: a step of a caller puts the caller's entry behind it, and changes the one word that it is made
//! on.
#![tactic(auto)]

mod changes;
mod closed;
mod prepared;
mod row;
mod rule;
mod seat;
mod single;
mod steps;

pub use closed::ClosedRow;
pub use prepared::Prepared;
pub use row::WordRow;
pub use rule::{Arrive, Board, Exchange, Fetch, Making, MemoryWords, Note, Read, Row, Store};
pub use seat::WordSeat;
pub use shared_memory_on_table::Naming;
pub use shared_memory_sequential::OpenFault;
pub use single::Single;
