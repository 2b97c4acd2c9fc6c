//! How what a run left has ended.
ghost use Rattle.std.specs.Prelude.{◌≡◌, ◌↔◌, IfOk, IsTrue};
ghost use Rattle.search_finds.specs.Endings.{ending_left, HaveOneEnding};

use search_endings::Ending;
use spawn_host::EndState;
use std::alloc::{AllocError, Global};

/// The ending of a run that left this, with so many bytes, or all if there are fewer.
///
/// # Errors
/// Where memory is refused.
pub fn ending_of(alloc: Global, end: &EndState, dump: u32) -> Result<Ending, AllocError>
    ensures { IfOk result (λ e. e ≡ ending_left dump end.now) }
{
    Ending::of_reports(alloc, &end.threads, end.pages, &end.bytes, dump as usize)
}

/// Whether two runs that left these end alike, by so many first bytes of the memory.
///
/// # Errors
/// Where memory is refused.
pub fn have_one_ending(
    alloc: Global,
    one: &EndState,
    other: &EndState,
    dump: u32,
) -> Result<bool, AllocError>
    ensures { IfOk result (λ is. IsTrue is ↔ HaveOneEnding dump one.now other.now) }
{
    let one = ending_of(alloc, one, dump)?;
    let other = ending_of(alloc, other, dump)?;
    Ok(one == other)
}
