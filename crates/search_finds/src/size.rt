//! How large a run is.
ghost use Rattle.std.specs.Prelude.{◌≡◌, ◌↔◌, IsTrue};
ghost use Rattle.search_finds.specs.Sizes.{size_in, schedule_in, switches_in, IsSmaller};

use replay_text::Record;
use std::alloc::{AllocError, Global};
use types::{Entry, Event};

/// How often another thread makes the next event, and how many entries the log has. Fewer switches are smaller, and of
/// as many switches fewer entries.
#[derive(Clone, Copy, PartialEq, Eq, PartialOrd, Ord)]
pub struct Size {
    pub switches: usize,
    pub entries: usize,
}

impl Size {
    /// Whether it is smaller than another.
    pub(crate) fn is_below(self, other: Size) -> bool
        ensures { IsTrue result ↔ IsSmaller self other }
    {
        self.switches < other.switches
            || (self.switches == other.switches && self.entries < other.entries)
    }
}

/// The threads of a record's events in order: a schedule along which the run is made again.
pub(crate) fn schedule_of(alloc: Global, record: &Record) -> Result<Vec<u32>, AllocError> {
    let mut schedule = Vec::new(alloc);
    for entry in record.parts().log.as_slice() {
        if !matches!(entry.event, Event::Told(_)) {
            schedule.push(entry.thread)?;
        }
    }
    Ok(schedule)
}

/// How often another thread makes the next event of a log.
fn switches_of(log: &[Entry]) -> usize
    ensures { result ≡ switches_in (schedule_in log.now) }
{
    let mut last = None;
    let mut switches = 0;
    for entry in log {
        if matches!(entry.event, Event::Told(_)) {
            continue;
        }
        if let Some(thread) = last
            && thread != entry.thread
        {
            switches += 1;
        }
        last = Some(entry.thread);
    }
    switches
}

/// The size of a recorded run.
pub fn size_of(record: &Record) -> Size
    ensures { result ≡ size_in «record».now }
{
    let log = record.parts().log.as_slice();
    Size {
        switches: switches_of(log),
        entries: log.len(),
    }
}
