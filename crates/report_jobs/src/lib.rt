//! Checks, runs and replays of a module's bytes by the program: the lines or the object that these print, and their
//! statuses.
//!
//! Proved: what a check, a run and a replay print and keep, what each status says, and which line is told of what. 0 or
//! 1 of a run: the bytes spell a valid module, the words spell values that the function takes, and what was printed is
//! the end of such a run, whose record is what was kept; 0 exactly where all threads are done. 0 or 1 of a replay: the
//! same of the run that the record is of. 0 of a check: the bytes spell a valid module. What is printed is exactly the
//! lines, with what threads say and with units where these are asked for, or exactly the line of an object, whose hints
//! and places alone no clause pins; what they say is what the record of the run has them say, at the ports that the
//! module's bytes name (`IsSaid`); of each thread that trapped, and of no other, `err` gets a line with its number and its trap
//! (`specs/Trapped.antt`). A run with bytes laid over its memory is one of the module with one more data segment
//! (`begun`), and the file of its memory gets exactly the bytes in the end. 2: no valid module has these bytes as its
//! text. 3: it has no such call, or the bytes can't be laid over its memory. 4: the bytes are the text of no record of
//! a run of it, and the line on `err` names the first line of that text which is wrong or doesn't fit; each other fault
//! has its own line (`specs/Told.antt`). At 2, 3 and 4 nothing was written but to `err`, and the writer of a record or
//! a memory that isn't wanted stays as it is. No other status but 5 comes, which each fault of memory, a thread or a
//! stream has, and no other fault; of the job 5 says nothing.
#![tactic(auto)]

mod args;
mod job;
mod loading;
mod plain;
mod printing;
mod replaying;
mod running;
mod saying;
mod streams;
mod telling;
mod trapped;
mod undone;

pub use job::{check, replay_saved, run};
pub use loading::{ModuleRefusal, load, load_checked};
pub use plain::perform_plain;
pub use printing::print;
pub use replaying::{Unfit, misfit};
pub use running::{Trouble, args_of, keep, request_of};
pub use saying::{said_in, write_said_line};
pub use streams::Streams;
pub use telling::{say, say_named, tell, tell_ended};
pub use undone::{
    Absent, Advised, Done, Failed, JobResult, LeftOut, Misfit, Refused, Undone, of_refusal,
    of_trouble, of_unfit, status_of,
};
