//! What the program does, as a library: the command line as a job, and what a job prints. `job` does each job, and
//! `searching` searches through runs of a module (`asked`): what of them is found and kept is in `report_finds`, how
//! that is told, in lines or in one object, in `report_telling`.
//!
//! Proved: what each status of a job says, that nothing is written where one is refused, and what a search prints and
//! keeps, of one value in either form: lines to the byte, of which that of a race alone is any that says so, and of the
//! object all but its hints. 0 of a show: the record is of a run of the module. 0 or 1 of a search: the bytes spell a
//! valid module, of whose runs the value is. `load` gives the module that the bytes spell. What is found is a run of
//! the call that ends as is looked for, the first ending of the list that is, or a run that never ends, of the kind
//! that is looked for; a smaller one ends alike, or has a race too; a race is one of a run of the call, or of threads
//! that race in some run. Of drawn runs the first with a race is told, where one is looked for, and none before it has
//! one; where none is told no run that was made has one. The status of every order is 0 exactly where all is well: runs
//! can end, in each all threads end well, and it isn't looked for; they are sure to end, and no run has a race, where
//! these aren't allowed and that is asked. That of drawn ones is 0 where runs were made and each ended well and
//! otherwise than is looked for. Where words or a result say what is looked for, the verdict on every order says
//! whether an ending that was met is. The record that is written, where one is wanted, is that of the run.
#![tactic(auto)]

mod asked;
mod job;
mod searching;

pub use asked::SearchRequest;
pub use job::{JobBytes, perform};
pub use report_command::{Job, Usage, command};
pub use report_jobs::{ModuleRefusal, Streams, check, load, replay_saved};
pub use report_looks::{CodeBytes, races_saved, show_saved};
pub use report_runs::{Call, EndState, RecordRunFault, record_run, run_on_words};
pub use searching::search_module;
