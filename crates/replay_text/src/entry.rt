//! Reading entries.

ghost use Rattle.replay_forms.specs.Reading.{ReadsNext};
ghost use Rattle.replay_text.specs.Reading.{reply_at, entry_at};

use crate::conditions::is_reply_to;
use crate::event::event_at;
use crate::number::u32_then;
use replay_forms::{Item, after, number_then};
use shared_memory::is_event;
use types::{Entry, Reply};

/// What an entry's event got, and the line feed behind it.
fn reply_at(bytes: &[u8]) -> Option<(Reply, &[u8])>
    ensures { ReadsNext reply_at bytes.now result }
{
    if let Some((value, rest)) = number_then(u64::MAX, b"\n", bytes) {
        return Some((Reply::Value(value), rest));
    }
    if let Some(rest) = after(b"done\n", bytes) {
        return Some((Reply::Done, rest));
    }
    if let Some(rest) = after(b"out\n", bytes) {
        return Some((Reply::OutOfBounds, rest));
    }
    None
}

/// The line of an entry of one of so many threads.
#[tactic(auto, unfolding(crate::specs::Reading::entry_at))]
fn entry_at(threads: u32, bytes: &[u8]) -> Option<(Entry, &[u8])>
    ensures { ReadsNext (entry_at threads) bytes.now result }
{
    let Some((thread, rest)) = u32_then(threads.saturating_sub(1), b" ", bytes) else {
        return None;
    };
    let Some((event, rest)) = event_at(rest) else {
        return None;
    };
    let Some(rest) = after(b"= ", rest) else {
        return None;
    };
    let Some((reply, rest)) = reply_at(rest) else {
        return None;
    };
    if is_event(event) && is_reply_to(event, reply) {
        let entry = Entry {
            thread,
            event,
            reply,
        };
        Some((entry, rest))
    } else {
        None
    }
}

/// The lines of the log, of so many threads.
#[derive(Clone, Copy)]
pub struct EntryLine {
    pub threads: u32,
}

impl Item for EntryLine {
    ghost use Rattle.replay_text.specs.Reading.{entry_at};

    type Value = Entry;

    ghost at = { λ kind place. entry_at kind.threads };

    fn read<'a>(&self, _place: usize, bytes: &'a [u8]) -> Option<(Entry, &'a [u8])> {
        entry_at(self.threads, bytes)
    }
}
