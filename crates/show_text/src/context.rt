//! What stands before and behind an entry of the same thread.

ghost use Rattle.std.specs.Prelude.{◌≡◌, ◌+◌, ◌<◌, None, length, slice_set, option_and_then, IfOk};
ghost use Rattle.std.specs.List.{slice_get};
ghost use Rattle.types.specs.declared.event.Event.TheVariants.{Told};
ghost use Rattle.show_text.specs.Contexts.{IsOf, AreContexts, AreOpen, ask_in};

use std::alloc::{AllocError, Global};
use types::{Answer, Entry, Event, Question};

/// What a thread asked or is told, in another entry.
#[derive(Clone, Copy, PartialEq, Eq)]
pub enum Context {
    /// Nothing.
    Alone,
    /// Of a question: the answer that it got.
    Answered(Answer),
    /// Of an answer: the question, and how many entries stand before that.
    Asked(Question, usize),
}

/// Where each thread asked its open question.
#[derive(Drop)]
struct QuestionPlaces {
    places: Vec<Option<usize>>,
}

impl QuestionPlaces {
    fn of(&self, thread: u32) -> Option<usize>
        ensures { result ≡ option_and_then (λ place. place) (slice_get self.now.places.items thread) }
    {
        *self.places.get(thread as usize)?
    }

    /// Threads past those that there may be have no open question.
    fn set(&mut self, thread: u32, place: Option<usize>)
        ensures { self.new.places.items ≡ slice_set self.old.places.items thread place }
    {
        if let Some(slot) = self.places.get_mut(thread as usize) {
            *slot = place;
        }
    }
}

fn question_at(log: &[Entry], place: usize) -> Option<Question>
    ensures { result ≡ option_and_then (λ made. ask_in made.event) (slice_get log.now place) }
{
    match log.get(place)?.event {
        Event::Ask(question) => Some(question),
        _ => None,
    }
}

/// Notes that the entry at a place is the answer to its thread's open question, if it has one.
fn note_answer(
    contexts: &mut [Context],
    asked: &QuestionPlaces,
    log: &[Entry],
    at: usize,
    thread: u32,
    answer: Answer,
)
    requires tells { IsOf log.now thread at (Told answer) }
    requires opens { AreOpen log.now at asked.now.places.items }
    requires contexts { AreContexts log.now (length asked.now.places.items) at contexts.old }
    ensures { AreContexts log.now (length asked.now.places.items) (at + 1) contexts.new }
{
    let Some(place) = asked.of(thread) else {
        return;
    };
    let Some(question) = question_at(log, place) else {
        return;
    };
    contexts[place] = Context::Answered(answer);
    contexts[at] = Context::Asked(question, place);
}

/// Notes the entry at a place, behind all those before it.
fn note(contexts: &mut [Context], asked: &mut QuestionPlaces, log: &[Entry], at: usize, made: Entry)
    requires stands { slice_get log.now at ≡ Some made }
    requires opens { AreOpen log.now at asked.old.places.items }
    requires contexts { AreContexts log.now (length asked.old.places.items) at contexts.old }
    ensures threads { length asked.new.places.items ≡ length asked.old.places.items }
    ensures opens { AreOpen log.now (at + 1) asked.new.places.items }
    ensures contexts { AreContexts log.now (length asked.old.places.items) (at + 1) contexts.new }
{
    match made.event {
        Event::Ask(_) => asked.set(made.thread, Some(at)),
        Event::Told(answer) => {
            note_answer(contexts, asked, log, at, made.thread, answer);
            asked.set(made.thread, None);
        }
        _ => {}
    }
}

/// The context of each entry of a log of so many threads.
pub fn contexts(alloc: Global, log: &[Entry], threads: usize) -> Result<Vec<Context>, AllocError>
    ensures { IfOk result (λ contexts. AreContexts log.now threads (length log.now) contexts.items) }
{
    let mut contexts = vec![in alloc; Context::Alone; log.len()]?;
    let mut asked = QuestionPlaces {
        places: vec![in alloc; None; threads]?,
    };
    for at in 0..log.len() {
        note(&mut contexts, &mut asked, log, at, log[at]);
    }
    Ok(contexts)
}
