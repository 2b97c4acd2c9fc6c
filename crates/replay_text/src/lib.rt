//! The record of a run as a text: what a record holds, its one text, the writer and the reader of it.
//!
//! Proved: `write_record` writes the record's one text, and `read_record` gives a record exactly where the bytes are
//! its text, and else their one fault, or memory ran out. Where bytes break off, the lines in front begin some record's
//! text and none begins with the next line too (`specs/Breaks.antt`). This is one contract for both versions.
#![tactic(auto)]

mod body;
mod conditions;
mod end;
mod entry;
mod event;
mod fault;
mod header;
mod number;
mod parts;
mod ranges;
mod read;
mod record;
mod value;
mod version;
mod words;
mod write;

pub use fault::{RecordFault, WriteFault};
pub use parts::RecordParts;
pub use read::{no_fault, one_fault, read_record};
pub use record::{Record, one_text};
pub use version::{FIRST_PAGES, FIRST_THREADS, Version};
pub use words::EventWords;
pub use write::write_record;
