//! What an event of a thread makes.

ghost use Rattle.std.specs.Prelude.{◌≡◌, IfOk};
ghost use Rattle.types.specs.declared.event.Event.TheVariants.{Ask, Told};
ghost use Rattle.types.specs.declared.event.Question.{Question};
ghost use Rattle.types.specs.declared.event.Answer.{Answer};
ghost use Rattle.shared_memory.specs.History.{queue_step};
ghost use Rattle.shared_memory.specs.Sound.{IsSound};
ghost use Rattle.shared_memory.specs.WaitQueue.{IsFree};
ghost use Rattle.waiters.specs.Kept.{queue_of, without_answers};
ghost use Rattle.search_parts.specs.Sharing.{begun_in, HasAnswers};

use crate::shared::copied;
use std::alloc::{AllocError, Global};
use types::{Answer, Event, Question, Reply};
use waiters::{KeptQueue, Queue};

/// A thread that a spawn starts: its number, and the argument of the spawn.
#[derive(Clone, Copy, PartialEq, Eq)]
pub struct Begun {
    pub id: u32,
    pub arg: u32,
}

/// What an event makes of threads: the reply, the answers that are due then, and the thread that it starts.
#[derive(Drop)]
pub struct Effect {
    pub reply: Reply,
    /// The queue in which answers are due: a question's alone has some.
    pub queue: Option<Box<Queue>>,
    pub begun: Option<Begun>,
}

impl Effect {
    ghost use Rattle.search_parts.specs.Sharing.{answer_in};

    /// The answer that is due to a thread then.
    pub(crate) fn due(&self, thread: u32) -> Option<Answer>
        ensures { result ≡ answer_in self.now thread }
    {
        match &self.queue {
            Some(queue) => queue.due(thread),
            None => None,
        }
    }
}

/// The queue moves at a question of a thread that got this reply.
fn enter(queue: &mut Queue, n: u32, question: &Question, reply: Reply)
    requires { IsFree queue.old n }
    ensures { queue.new ≡ queue_step queue.old n (Ask question.now) reply }
{
    match reply {
        Reply::OutOfBounds => {}
        Reply::Value(value) => {
            queue.ask(n, question, value);
        }
        _ => {
            queue.ask(n, question, 0);
        }
    }
}

/// The thread that a question starts.
fn thread_begun(queue: &KeptQueue, question: &Question) -> Option<Begun>
    requires { IsSound (queue_of queue.now) }
    ensures { result ≡ begun_in (queue_of queue.now) (Ask question.now) }
{
    let Question::Spawn { arg } = question else {
        return None;
    };
    let id = queue.args.len() as u32 + 1;
    if id < queue.threads {
        return Some(Begun { id, arg: *arg });
    }
    None
}

/// The queue after an event of thread n that got this reply, and what it makes of threads.
///
/// # Errors
/// Where memory is refused.
pub(crate) fn entered(
    alloc: Global,
    queue: &KeptQueue,
    n: u32,
    event: &Event,
    reply: Reply,
) -> Result<(KeptQueue, Effect), AllocError>
    requires sound { IsSound (queue_of queue.now) }
    requires free { (question : Question) → event.now ≡ Ask question → IsFree (queue_of queue.now) n }
    requires untold { (answer : Answer) → event.now ≡ Told answer → ⊥ }
    ensures queue { IfOk result
        (λ r. queue_of r.0 ≡ without_answers (queue_step (queue_of queue.now) n event.now reply)) }
    ensures reply { IfOk result (λ r. r.1.reply ≡ reply) }
    ensures answers { IfOk result (λ r. HasAnswers r.1 (queue_step (queue_of queue.now) n event.now reply)) }
    ensures begun { IfOk result (λ r. r.1.begun ≡ begun_in (queue_of queue.now) event.now) }
{
    let Event::Ask(question) = event else {
        let made = Effect {
            reply,
            queue: None,
            begun: None,
        };
        return Ok((copied(alloc, queue)?, made));
    };
    let mut after = Box::new(alloc, Queue::resume(queue))?;
    enter(&mut after, n, question, reply);
    let kept = after.keep(alloc)?;
    let made = Effect {
        reply,
        queue: Some(after),
        begun: thread_begun(queue, question),
    };
    Ok((kept, made))
}
