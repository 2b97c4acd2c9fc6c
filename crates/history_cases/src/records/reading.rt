//! What a text comes to.

use replay_text::{read_record, write_record};
use std::alloc::{AllocError, Global};

/// What a text comes to that is a record, and is written as it was read.
pub(crate) const KEPT: &str = "kept";

/// What a text comes to: `kept`, the words of the fault for which it is no record, or `written otherwise`.
pub(crate) fn comes_to(alloc: Global, text: &[u8]) -> Result<String, AllocError> {
    let record = match read_record(alloc, text) {
        Ok(record) => record,
        Err(fault) => return format!(in alloc; "{fault}"),
    };
    let mut again = Vec::new(alloc);
    let is_kept = write_record(&record, &mut again).is_ok() && again.as_slice() == text;
    String::from_str(alloc, if is_kept { KEPT } else { "written otherwise" })
}
