//! What a thread does that has made its turns of its own: it leaves, or makes the event that it wants.
ghost use Rattle.std.specs.Prelude.{◌≡◌, ℕ, length, None, IfSome};
ghost use Rattle.types.specs.declared.event.Event.TheVariants as events;
ghost use Rattle.types.specs.declared.event.Question.TheVariants.{Leave, Spawn};
ghost use Rattle.types.specs.declared.event.Reply.TheVariants.{Done};
ghost use Rattle.types.specs.declared.limits.TheConstants.{MOST_THREADS};
ghost use Rattle.shared_memory.specs.Memory.{reply_of, state_after};
ghost use Rattle.shared_memory.specs.Events.{IsEvent};
ghost use Rattle.interp_trait.specs.declared.turn.Turn.TheVariants as turns;
ghost use Rattle.replay_walk.specs.Standing.{IsToMakeOn};
ghost use Rattle.search_scheduled.specs.Heard.{IsMadeBy};
ghost use Rattle.search_scheduled.specs.Settled.{IsToGoOn, IsToLeave, IsToMakeEvent, StageMade, StandsMade};
ghost use Rattle.search_scheduled.specs.Settled.{KeepsStage, TakesLeave, TakesNext};

use interp_trait::{Given, TakesTurns, Turn};
use replay_walk::{Stage, Walk, turn_at};
use shared_memory_sequential::OneMemory;
use types::{Entry, Event, Outcome, Question, Reply, Stop};

/// A thread that may leave asks to, with its outcome.
fn leave<T: TakesTurns>(walk: &mut Walk<T>, n: u32, outcome: Outcome) -> Entry
    requires { IsToLeave T.meaning n outcome walk.old }
    ensures count { length walk.new.threads.items ≡ length walk.old.threads.items }
    ensures taken { TakesLeave T.meaning n outcome walk.old result walk.new }
    ensures threads { walk.new.threads.items ≡ walk.old.threads.items }
    ensures entry { result ≡ record { thread = n; event = events.Ask Leave; reply = Done } }
{
    walk.stage.leave::<T>(n, outcome);
    Entry {
        thread: n,
        event: Event::Ask(Question::Leave),
        reply: Reply::Done,
    }
}

/// A thread makes the event that it wants, with the memory's reply.
fn make_in<T: TakesTurns>(
    stage: &mut Stage,
    threads: &mut [T],
    memory: &mut OneMemory,
    n: u32,
    event: Event,
) -> Reply
    requires event { IsEvent event }
    requires room { (arg : ℕ) → event ≡ events.Ask (Spawn arg) → length threads.old ≡ MOST_THREADS }
    requires settled { IsToMakeOn T.meaning threads.old stage.old memory.old n event }
    ensures count { length threads.new ≡ length threads.old }
    ensures memory { memory.new ≡ state_after memory.old event }
    ensures reply { result ≡ reply_of memory.old event }
    ensures made { StageMade T.meaning threads.old stage.old memory.old n event result threads.new stage.new }
    ensures kept { KeepsStage event stage.old stage.new }
{
    let reply = memory.step(&event);
    turn_at(threads, n as usize, Given::Reply(reply));
    if let Event::Ask(question) = event {
        stage.ask(threads, n, question, reply);
    }
    reply
}

/// The same of a walk.
fn make<T: TakesTurns>(walk: &mut Walk<T>, n: u32, event: Event) -> Reply
    requires event { IsEvent event }
    requires wants { IsToMakeEvent T.meaning n event walk.old }
    ensures count { length walk.new.threads.items ≡ length walk.old.threads.items }
    ensures memory { walk.new.memory ≡ state_after walk.old.memory event }
    ensures reply { result ≡ reply_of walk.old.memory event }
    ensures made { StandsMade T.meaning n event result walk.old walk.new }
    ensures kept { KeepsStage event walk.old.stage walk.new.stage }
{
    make_in(
        &mut walk.stage,
        &mut walk.threads,
        &mut walk.memory,
        n,
        event,
    )
}

/// A thread that has made its turns of its own makes its next entry, behind `at` others: its leave where it has ended,
/// or where the log is full, and else the event that it wants. There is none where it waits for an answer.
pub(crate) fn go_on<T: TakesTurns>(
    walk: &mut Walk<T>,
    n: u32,
    turn: Turn,
    at: usize,
    limit: u32,
) -> Option<Entry>
    requires { IsToGoOn T.meaning n turn walk.old }
    ensures count { length walk.new.threads.items ≡ length walk.old.threads.items }
    ensures taken { TakesNext T.meaning n turn limit at walk.old result walk.new }
    ensures none { result ≡ None → turn ≡ turns.Awaits }
    ensures thread { IfSome result (λ e. e.thread ≡ n) }
    ensures made { IfSome result (λ e. IsMadeBy e.event turn walk.old.threads.items walk.new.threads.items) }
    ensures kept { IfSome result (λ e. KeepsStage e.event walk.old.stage walk.new.stage) }
{
    match turn {
        Turn::Ended(outcome) => Some(leave(walk, n, outcome)),
        Turn::Wants(_) if at >= limit as usize => {
            Some(leave(walk, n, Outcome::Stop(Stop::RecordFull)))
        }
        Turn::Wants(event) => {
            let reply = make(walk, n, event);
            Some(Entry {
                thread: n,
                event,
                reply,
            })
        }
        Turn::Moved | Turn::Awaits => None,
    }
}
