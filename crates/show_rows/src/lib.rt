//! The rows of a record as text: each entry in words, and the place in the module where it was made, which is seen by a
//! replay as it goes along the record's log.
//!
//! Proved: a row is written for each entry that is chosen, in order, with its line, its thread, its words and its
//! place, and with the call that led there where that is in another file of source, each by its innermost inlined function
//! and the calls that lead to it where the code that is shown has those; the row of an event is where the thread stands
//! that wants it, with the last call in it and the number that it finds in memory. Of the entry that comes next
//! `NextStood` keeps where its thread stands and what it comes to, of which no clause speaks.
#![tactic(auto)]

mod code;
mod entries;
mod listing;
mod next;
mod rows;

pub use code::CodeMap;
pub use entries::{PlaceBehind, entry_text};
pub use listing::{Shown, Story, call_text, chosen_entries, spot_text, write_rows};
pub use next::{NextStood, Stood};
pub use rows::{Row, Rows, number_in};
