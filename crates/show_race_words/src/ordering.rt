//! What would have ordered the two entries of a race.

ghost use Rattle.std.specs.Prelude.{◌≡◌, ◌<◌, IfOk, length, string_bytes};
ghost use Rattle.show_race_words.specs.Written as written;
ghost use Rattle.show_race_words.specs.Written.{IsNextText, IsOrderText};

use crate::spots::spot_text;
use race_history::{Race, Site};
use show_races::next_atomic_write;
use show_rows::{Shown, Story};
use std::alloc::{AllocError, Global};
use std::fmt::{self, Formatter};
use types::{Entry, Event, Question};

/// That nothing leads from a write to a thread, where the write is before the second entry.
#[derive(Clone, Copy)]
struct Leads {
    is_between: bool,
    second: u32,
}

impl fmt::Display for Leads {
    ghost use Rattle.std.specs.Prelude.{Some};
    ghost use Rattle.show_race_words.specs.Written.{leads_text};

    ghost output = { λ l. Some (leads_text l.is_between l.second) };

    fn fmt<W: fmt::Write>(&self, f: &mut Formatter<W>) -> fmt::Result {
        let second = self.second;
        if self.is_between {
            write!(f, ", and t{second} had seen nothing of that")
        } else {
            Ok(())
        }
    }
}

/// What an entry is called that other threads may read from.
fn act_of(event: Event) -> &'static str
    ensures { result.now ≡ written.act_of event }
{
    match event {
        Event::Grow(_) => "grow",
        Event::Ask(
            Question::Wait {
                addr: _,
                width: _,
                expected: _,
                timeout: _,
            },
        ) => "wait",
        Event::Ask(Question::Notify { addr: _, count: _ }) => "notify",
        Event::Ask(Question::Spawn { arg: _ }) => "spawn",
        _ => "atomic write",
    }
}

/// What the one at a place is called.
fn act_at(log: &[Entry], at: usize) -> &'static str
    ensures { result.now ≡ written.act_at log.now at }
{
    match log.get(at) {
        Some(entry) => act_of(entry.event),
        None => "atomic write",
    }
}

/// What is said of a thread's next entry that others may read from, `write`: where it was made, and that nothing of it
/// had come to the second entry's thread, where it is before that; or that there is none.
fn next_text(
    alloc: Global,
    shown: Shown,
    story: &Story,
    write: Option<usize>,
    race: Race,
    second: u32,
) -> Result<String, AllocError>
    ensures { IfOk result (λ text. IsNextText shown.entry story.now race second write (string_bytes text)) }
{
    let Some(write) = write else {
        let none = format!(in alloc;
            " makes no atomic write, grow, wait, notify or spawn behind it"
        )?;
        return Ok(none);
    };
    let leads = Leads {
        is_between: write < race.second,
        second,
    };
    let act = act_at(shown.record.log.as_slice(), write);
    let spot = spot_text(alloc, shown, story, write)?;
    let some = format!(in alloc; "'s next {act} is {spot}{leads}")?;
    Ok(some)
}

/// What would have ordered the first entry before the second.
pub(crate) fn order_text(
    alloc: Global,
    shown: Shown,
    story: &Story,
    sites: &[Site],
    race: Race,
) -> Result<String, AllocError>
    requires first { race.first < length shown.record.now.log }
    requires second { race.second < length shown.record.now.log }
    ensures { IfOk result (λ text. IsOrderText shown.entry story.now sites.now race (string_bytes text)) }
{
    let log = shown.record.log.as_slice();
    let (first, second) = (log[race.first].thread, log[race.second].thread);
    let write = next_atomic_write(log, sites, first, race.first);
    let next = next_text(alloc, shown, story, write, race, second)?;
    let text = format!(in alloc;
        "  nothing told t{second} that t{first} was done: t{first}{next}\n"
    )?;
    Ok(text)
}
