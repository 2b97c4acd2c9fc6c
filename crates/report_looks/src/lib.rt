//! What the program shows of a record: its entries in words, and its races. `showing` has the entries as rows, a moment, a
//! page, a trace or an object, or the last write of some bytes: `wanted` finds what is asked for in the record, `printing`
//! writes it, and `moments` a page with its moments; `racing` has the races, as lines or as an object, and `sighting` those
//! that a run has, and the first one, with what it is told by. Objects are made by `report_objects`.
//!
//! Proved: 0 of a show says that the record is of a run of the module, 0 of races that no two accesses of that run race that
//! may not (`allowing` has which may), 1 that some do, 2 and 4 that there is no such module or record, 3 of a show that there is one which has not what is asked
//! for, and then nothing is written but what is wrong; the races that are told are races of the run, none twice, and each
//! one, where it isn't said that they are cut. A last write that is shown is the last entry before the moment that is asked
//! for which writes one of the bytes, and where none is said to write there, none does. The rows that are shown are those
//! of the entries that are asked for, but for those in memory that a library keeps for itself, where these are left out,
//! folded or each by itself (`show_named`), with what each thread waits for below,
//! where all are shown and one was stopped; what threads say is what the record has them say, with the chosen
//! entries or before a moment (`specs/Saying.antt`); the object is the one of these entries; a page and a trace have the lines of
//! these entries, and are written to their file (`specs/Looked.antt`); a moment that is shown, and each of a page, has the
//! queue and the memory of the walk along the record up to there (`specs/RunMoments.antt`).
#![tactic(auto)]

mod allowing;
mod moments;
mod printing;
mod racing;
mod saying;
mod showing;
mod sighting;
mod wanted;

pub use allowing::{AllowedBytes, allowed_of};
pub use racing::races_saved;
pub use showing::{CodeBytes, show_saved};
pub use sighting::{MOST_TOLD, RacesOfRun, races_of_run};
