//! Rows of a record, and entries in words, with the names of the static data that they are about, as a module's debug
//! section has them: entries by their places, and the last one that did something.
//!
//! Proved: of each entry stand its line, its thread, its words and its place, as without names; behind the words stands
//! at most the name of its data, and only where the first address of the entry is one of a static variable; the last entry
//! that writes some bytes is the last one before the given place which does, and `write_last` writes its words, or that none
//! does. Folded, each entry that is chosen is in one part of what is shown, in order: a round that is made so many times has
//! the rows of the first one, of one thread, and those of the others would differ in their lines alone; or a question, with
//! the words of its own answer behind.
//!
//! The last entry that is found writes one of the bytes, of any thread or of another than the given one, or notifies the
//! address; none is found only where no entry does.
//!
//! - `specs/Names.antt`: which entries have names.
//! - `specs/Rows.antt`: where these stand.
//! - `specs/Folds.antt`: which entries have one row, or the rows of one round.
//! - `specs/Lasts.antt`: which entries write bytes, and which is the last of a kind; `specs/LastTexts.antt`: what is told of
//!   it.
#![tactic(auto)]

mod data_map;
mod folds;
mod last_texts;
mod lasts;
mod marks;
mod rows;
mod same;
mod signs;

pub use data_map::DataMap;
pub use last_texts::{told_text, write_last};
pub use lasts::{Act, SoughtWrite, last_of};
pub use rows::{named_text, write_folded, write_rows};
