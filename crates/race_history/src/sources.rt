//! Of an entry, those just before it in the order.
ghost use Rattle.std.specs.Prelude.{◌≡◌, ◌++◌, OnOk};
ghost use Rattle.std.specs.Option.{option_to_list};
ghost use Rattle.race_history.specs.Sources.{start_before};

use std::alloc::AllocError;

/// The place at which the thread is started, if that is before this place.
pub(crate) fn start_before(starts: &[usize], thread: usize, place: usize) -> Option<usize>
    ensures { result ≡ start_before starts.now thread place }
{
    let n = thread.checked_sub(1)?;
    let start = *starts.get(n)?;
    if start < place { Some(start) } else { None }
}

/// Puts a place behind the others, if there is one.
fn push_some(places: &mut Vec<usize>, place: Option<usize>) -> Result<(), AllocError>
    ensures { OnOk result (places.new.items ≡ places.old.items ++ option_to_list place) }
{
    if let Some(place) = place {
        places.push(place)?;
    }
    Ok(())
}

/// Puts into a list in place of what it has those just before an entry: the notifies that woke its thread, the start of
/// that, the writes that it reads from, and the thread's entry before it.
pub(crate) fn gather(
    here: &mut Vec<usize>,
    wakers: &[usize],
    start: Option<usize>,
    writers: &[usize],
    previous: Option<usize>,
) -> Result<(), AllocError>
    ensures { OnOk result (here.new.items
        ≡ wakers.now ++ option_to_list start ++ writers.now ++ option_to_list previous) }
{
    here.clear();
    here.extend_from_slice(wakers)?;
    push_some(here, start)?;
    here.extend_from_slice(writers)?;
    push_some(here, previous)?;
    Ok(())
}
