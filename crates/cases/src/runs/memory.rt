//! What a command line writes of a run's memory.

use crate::runs::program::Gave;
use crate::runs::telling::{CaseName, tell};
use std::alloc::AllocError;
use test_cases::{Case, from_hex};

/// Whether as many bytes of the memory were written as a case says, which begin as it says; none, where it says
/// nothing.
pub(crate) fn is_memory_kept(
    rt: &HostRuntime,
    place: CaseName,
    case: &Case,
    words: &[&str],
    gave: &Gave,
) -> Result<bool, AllocError> {
    let memory = gave.streams.memory.as_slice();
    let text = case.get("memory-out").unwrap_or("0");
    let (count, digits) = text.split_once(' ').unwrap_or((text, ""));
    let front = from_hex(rt.alloc(), digits)?;
    let is_right = count.parse::<usize>().ok() == Some(memory.len())
        && memory.starts_with(front.as_slice());
    if !is_right {
        let given = format!(in rt.alloc(); "{}", memory.len())?;
        tell(
            rt,
            place,
            words,
            "memory-out",
            text.as_bytes(),
            given.as_bytes(),
        );
    }
    Ok(is_right)
}
