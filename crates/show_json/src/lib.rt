//! What is shown of a run, as JSON objects, one on a line, by serde_json; and the parts that other objects are made of.
//!
//! Proved: each function writes exactly the line of the value that is defined for its object; entries that are written
//! row by row are one object.
//!
//! - `specs/Json.antt` has the values and their text (serde_json's, with numbers from 2 ^ 53 on as texts); `Outcomes`,
//!   `Places`, `Functions`, `Rows` and `Moments` there say which value each object is.
//! - `ToJson` sends a value to a writer of serde, event by event: a derived impl would say nothing of what it sends.
//! - The entries of a record are written row by row, as there may be too many for one text in memory; that this is one
//!   object is a law (`the_rows_are_one_object`).
#![tactic(auto)]

mod bytes;
mod functions;
mod moments;
mod object;
mod outcomes;
mod places;
mod races;
mod rows;

pub use bytes::Hex;
pub use moments::{
    EndShown, EndedThread, LastRow, MemoryBytes, MomentShown, MomentThread, ThreadState, WaitsFor,
    write_end, write_last, write_moment,
};
pub use object::{
    ToJson, given, put, put_if, put_list, put_some, send_one, send_two, some, write_line,
};
pub use places::{Offset, PlaceObject, SourceObject};
pub use races::{NextWrite, RaceEntry, RacePair, RacePairs, write_races};
pub use rows::{
    NamedRow, RowObject, begin_rows, end_rows, the_rows_are_one_object, write_row, write_rows,
};
