//! What a run leaves.

use types::ThreadReport;

/// How the threads of a run ended, and its memory after it.
#[derive(PartialEq, Eq, Debug, Drop)]
pub struct EndState {
    /// Of thread 0 and of those that were spawned, in order of their numbers.
    pub threads: Vec<ThreadReport>,
    /// The page count; a page has 65,536 bytes.
    pub pages: u32,
    /// The memory's bytes, all of them.
    pub bytes: Vec<u8>,
}
