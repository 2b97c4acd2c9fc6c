//! What is shown of a record as JSON objects: its entries, its races, a moment, a last write, and how the threads of its run
//! ended, and that also in lines.
//!
//! Proved: the object of entries has those that are chosen, in order, each with its line, its words,
//! the name of its data and its place; that of races has of each the two entries, and the next atomic write of the first
//! one's thread (`specs/RaceObjects.antt`). That of a moment has of each thread what is told of it, the entries with which that of
//! the moment races, who sleeps, and the bytes that are wanted; that of a last write the last entry before the moment that
//! writes one of the bytes, or none (`specs/Scenes.antt`). Of the end it is told, in lines or as an object, how each thread
//! ended, its open functions where it trapped or was stopped, and what it waits for (`specs/Ends.antt`).
#![tactic(auto)]

mod ends;
mod objects;
mod pairing;
mod scenes;

pub use ends::write_end;
pub use objects::write_entries;
pub use pairing::{pair_of, write_pairs};
pub use scenes::{write_last_object, write_scene};
