//! The entries that started threads.

ghost use Rattle.std.specs.Prelude.{◌≡◌, IfOk, string_bytes};
ghost use Rattle.std.specs.List.{slice_get};
ghost use Rattle.show_race_words.specs.Starts as specified;
ghost use Rattle.show_race_words.specs.Starts.{IsStart, IsStartText};

use crate::spots::spot_text;
use show_rows::{Shown, Story};
use show_text::Context;
use std::alloc::{AllocError, Global};
use types::{Answer, Entry, Event, Question};

/// Whether the event asks for a thread.
fn is_asking(event: Event) -> bool
    ensures { result ≡ specified.is_asking event }
{
    match event {
        Event::Ask(Question::Spawn { arg: _ }) => true,
        _ => false,
    }
}

/// Whether it got this number.
fn is_answered(context: Context, number: u32) -> bool
    ensures { result ≡ specified.is_answered context number }
{
    match context {
        Context::Answered(Answer::Number(n)) => n == number,
        _ => false,
    }
}

/// Whether the entry at a place started this thread.
fn is_start(log: &[Entry], story: &Story, thread: u32, at: usize) -> bool
    ensures { result ≡ specified.is_start log.now story.now thread at }
{
    match log.get(at) {
        Some(entry) => is_asking(entry.event) && is_answered(story.context_at(at), thread),
        None => false,
    }
}

/// The place of the entry that started a thread, if one did whose answer is there.
fn start_of(log: &[Entry], story: &Story, thread: u32) -> Option<usize>
    ensures { IsStart log.now story.now thread result }
{
    for at in 0..log.len() {
        if is_start(log, story, thread, at) {
            return Some(at);
        }
    }
    None
}

/// Which entry started a thread; empty where that isn't known.
pub(crate) fn start_text(
    alloc: Global,
    shown: Shown,
    story: &Story,
    thread: u32,
) -> Result<String, AllocError>
    ensures { IfOk result (λ text. IsStartText shown.entry story.now thread (string_bytes text)) }
{
    let Some(start) = start_of(shown.record.log.as_slice(), story, thread) else {
        return Ok(String::new(alloc));
    };
    let spot = spot_text(alloc, shown, story, start)?;
    let text = format!(in alloc; "  t{thread} was started by {spot}\n")?;
    Ok(text)
}
