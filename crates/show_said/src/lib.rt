//! What a module declares of its threads and of its memory: where each thread puts what it says, its port, eight letters a
//! store, which memory a library keeps for itself, and how many entries it makes; and what the threads of a run say.
//!
//! Proved: `heard` gives of a log exactly the lines that are defined for it, in the order of the entries with which
//! they ended; of each thread these are the lines of its letters, with no letter left out. `read_ports` gives the ports
//! of the first custom section `wathread.text`, and `read_own` the addresses of `wathread.own`; none where there is no such
//! section or it can't be read; and `entry_factor` the number of `wathread.entries`, or else 1.
//! `last_words` gives the last line of a thread exactly where the last thing that it did, but for its leave, was to put
//! something at its port.
//!
//! - `specs/Ports.antt`, `specs/Factor.antt`: the sections. `specs/Sections.antt`: how such a section is read.
//! - `specs/Lines.antt`: letters, and the lines that they make.
//! - `specs/Said.antt`: what is said of a log.
//! - `specs/Last.antt`: what a thread said last.
#![tactic(auto)]

mod declared;
mod factor;
mod last;
mod letters;
mod ports;
mod said;
mod text;

pub use factor::entry_factor;
pub use last::last_words;
pub use ports::{read_own, read_ports};
pub use said::{Said, each_says_its_letters, heard};
