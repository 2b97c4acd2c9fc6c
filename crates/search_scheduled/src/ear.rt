//! Who hears where threads stand, while a run is made.
ghost use Rattle.std.specs.Prelude.{◌≡◌, [], IfErr, OnOk};
ghost use Rattle.search_scheduled.specs.Heard.{IsHeardAt};
ghost use Rattle.search_scheduled.specs.declared.course.CourseFault.TheVariants.{NoMemory};

use crate::CourseFault;
use interp::{CodePlace, Thread};
use std::alloc::Global;

/// Hears of each entry the thread that makes it: before an event, or a leave, behind the turns of its own; before an
/// answer as it waits for that.
pub trait Ear<T> {
    /// How it is before, the thread that it hears, and how it is then.
    ghost hears: { Self → T → Self → Type 0 };

    /// Hears a thread.
    ///
    /// # Errors
    /// `NoMemory`.
    fn hear(&mut self, thread: &T) -> Result<(), CourseFault>
        ensures heard { OnOk result (hears self.old thread.now self.new) }
        ensures fault { IfErr result (λ fault. fault ≡ NoMemory) };
}

/// Where the threads of entries stand, entry by entry, if that is to be heard.
#[derive(Drop)]
pub struct Places {
    pub hears: bool,
    pub places: Vec<CodePlace>,
}

impl Places {
    /// Of no entry yet.
    pub(crate) fn new(alloc: Global, hears: bool) -> Places
        ensures hears { result.hears ≡ hears }
        ensures none { result.places.items ≡ [] }
    {
        Places {
            hears,
            places: Vec::new(alloc),
        }
    }
}

impl<'m> Ear<Thread<'m>> for Places {
    ghost use Rattle.search_scheduled.specs.Heard.{HearsPlace};

    ghost hears = { HearsPlace };

    fn hear(&mut self, thread: &Thread<'m>) -> Result<(), CourseFault>
        ensures heard { OnOk result (HearsPlace self.old thread.now self.new) }
        ensures fault { IfErr result (λ fault. fault ≡ NoMemory) }
    {
        if self.hears {
            self.places.push(thread.place())?;
        }
        Ok(())
    }
}

/// The thread of this number is heard, if there is one.
pub(crate) fn hear_at<T, E: Ear<T>>(threads: &[T], n: u32, ear: &mut E) -> Result<(), CourseFault>
    ensures heard { OnOk result (IsHeardAt E.hears threads.now n ear.old ear.new) }
    ensures fault { IfErr result (λ fault. fault ≡ NoMemory) }
{
    match threads.get(n as usize) {
        Some(thread) => ear.hear(thread),
        None => Ok(()),
    }
}
