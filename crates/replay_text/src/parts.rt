//! What a record holds.

use crate::version::Version;
use types::{Entry, Name, Sequence, ThreadReport, Value};

/// What was recorded of a run.
#[derive(PartialEq, Eq, Drop)]
pub struct RecordParts {
    /// Which text it has.
    pub version: Version,
    /// The bytes of the binary module: 0 to 1,048,576, and 0 in version 1.
    pub module_len: u32,
    /// How many threads there might be: 1 to 64, and 16 in version 1.
    pub threads: u32,
    /// How many pages a memory might have: 1 to 256, and 64 in version 1.
    pub max_pages: u32,
    /// The name of the exported function that the run called.
    pub invoke: Name,
    /// Its arguments.
    pub args: Sequence<Value>,
    /// The units that each thread might spend: 0 to 1,000,000,000,000.
    pub fuel: u64,
    /// How many entries the log took before it was full: 1 to 1,000,000.
    pub limit: u32,
    /// The entries in order, at most the limit and three for each thread.
    pub log: Sequence<Entry>,
    /// How the threads ended, in the order of their numbers from 0 on: one at least, and one for each thread
    /// that there might be at most.
    pub ends: Sequence<ThreadReport>,
    /// The pages of the memory after the run: at most as many as a memory might have, of 65,536 bytes each.
    pub pages: u32,
}
