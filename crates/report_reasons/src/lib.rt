//! What is said of a job behind its one line: the lines for which `--explain` asks, why its module, call or record is
//! refused or its threads were stopped and what to do; and the JSON object of a job that isn't done, which has these lines
//! as hints. Both are made of what came of the job, `report_jobs::JobResult`; nothing is validated or replayed again, and
//! only of a module that was checked the code is read once more.
//!
//! Proved: `write_undone` writes exactly the object of what is refused, with its status, its numbers and the hints, or of
//! what failed; `explain` adds to a text, or leaves it as it was, and of a refused record first the line
//! that is refused. Which other lines explain what, cases say.
#![tactic(auto)]

mod bytes;
mod calls;
mod explained;
mod lines;
mod narrow;
mod object;
mod opcodes;
mod records;
mod site;
mod validity;

pub use explained::{JobInputs, call_of, explain};
pub use object::write_undone;
