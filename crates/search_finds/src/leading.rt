//! Where the events of a path end in a log.
ghost use Rattle.std.specs.Prelude.{◌≡◌};
ghost use Rattle.search_finds.specs.Leading.{LeadsTo};

use replay_text::Record;
use types::{Entry, Event};

/// Of a log how many entries lead up to the event behind so many events; all, where there is none.
fn leading(log: &[Entry], events: usize) -> usize
    ensures { LeadsTo log.now events result }
{
    let mut left = events;
    for (count, entry) in log.iter().enumerate() {
        if matches!(entry.event, Event::Told(_)) {
            continue;
        }
        if left == 0 {
            return count;
        }
        left -= 1;
    }
    log.len()
}

/// How many entries of a recorded run stand before its next event behind so many events: those, and the answers that
/// were taken meanwhile. All, where it has no more events.
pub fn entries_leading(record: &Record, events: usize) -> usize
    ensures { LeadsTo «record».now.log events result }
{
    leading(record.parts().log.as_slice(), events)
}
