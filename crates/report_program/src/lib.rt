//! A program but for what it does of its jobs: the command line, the files and the streams. Of files there are the
//! front of one that is read, and a record that takes the place of one once all of it is there; of streams one whose
//! reader went away.
//!
//! Proved: a job comes to what performs it only with its numbers in range, and as the words have it; where they don't say how
//! many entries a log takes, the module may ask for more (`with_room`). Of what a buffer holds
//! back `hand_on_if` says that it got out only where its stream got all that was written to it, and the stream gets
//! nothing more of what isn't to come. `read_front` gives the first bytes of a reader. What is said of a fault of files,
//! streams or memory is the line that is defined for it, with its path and its reason, as far as it is taken
//! (specs/Messages.antt); of a file that would take the place of another it is said of the one that the job makes. That
//! `Task::end` keeps files before it hands on lines, and answers by what was lost, is tested.
#![tactic(auto)]

mod beside;
mod closing;
mod detail;
mod early;
mod input;
mod order;
mod reading;
mod room;
mod saving;
mod sources;
mod stop;
mod streams;
mod task;
mod telling;

pub use closing::{Lost, hand_on_if};
pub use detail::Detail;
pub use early::keep_early;
pub use input::Input;
pub use order::{JobPlan, order_of, words_of};
pub use reading::{Unread, read_front, read_memory, read_module, read_saved};
pub use room::with_room;
pub use saving::{SavePlace, SavedFile, is_one_file, is_one_place};
pub use streams::Noted;
pub use task::{Task, open_task};
pub use telling::tell_usage;
