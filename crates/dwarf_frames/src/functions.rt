//! The code of functions.

use dwarf_units::{CodeRange, Spanned, Spans, Tag, Units};
use std::alloc::{AllocError, Global};

/// What is behind the last offset.
const CODE_END: u64 = 0x1_0000_0000;

/// The code of the functions of a module: offsets from the start of the code section's contents. Functions that were
/// left out of a module are said to be at its start, or at the end of memory.
pub fn read_functions(alloc: Global, units: &Units) -> Result<Spans, AllocError> {
    let mut spans = Vec::new(alloc);
    for entry in 0..units.len() {
        if matches!(units.tag(entry), Tag::Subprogram)
            && let Some(CodeRange { start, end }) = units.code_of(entry)
            && start > 0
            && end < CODE_END
        {
            spans.push(Spanned { start, end, entry })?;
        }
    }
    Spans::new(alloc, spans)
}
