//! A thread takes the answer that is due to it.
ghost use Rattle.std.specs.Prelude.{◌≡◌, length, None};
ghost use Rattle.replay_walk.specs.Standing.{Standing, StageStands};
ghost use Rattle.replay_walk.specs.Walked.{StandsSomewhere};
ghost use Rattle.search_scheduled.specs.Settled.{HandsDue, IsSameWalk, TakesDue, TakesDueAnswer};

use interp_trait::{Given, TakesTurns};
use replay_walk::{Stage, Walk, turn_at};
use types::Answer;

/// A thread to which an answer is due takes it, and the answer is given. One that has left makes no turn more. Where
/// none is due, nothing is changed.
fn hear_due<T: TakesTurns>(stage: &mut Stage, threads: &mut [T], n: u32) -> Option<Answer>
    requires standing { (s : Standing) × StageStands T.meaning s threads.old stage.old }
    ensures count { length threads.new ≡ length threads.old }
    ensures told { HandsDue T.meaning threads.old stage.old n result threads.new stage.new }
    ensures kept { result ≡ None → (threads.new ≡ threads.old) × (stage.new ≡ stage.old) }
    ensures queue { TakesDue n stage.old.queue stage.new.queue }
{
    let answer = stage.queue.told(n)?;
    let place = n as usize;
    match stage.ends[place] {
        None => {
            turn_at(threads, place, Given::Told(answer));
        }
        Some(_) => {}
    }
    Some(answer)
}

/// The same of a walk.
pub(crate) fn hear<T: TakesTurns>(walk: &mut Walk<T>, n: u32) -> Option<Answer>
    requires standing { StandsSomewhere T.meaning walk.old }
    ensures count { length walk.new.threads.items ≡ length walk.old.threads.items }
    ensures heard { TakesDueAnswer T.meaning n walk.old result walk.new }
    ensures kept { result ≡ None → IsSameWalk walk.old walk.new }
    ensures queue { TakesDue n walk.old.stage.queue walk.new.stage.queue }
{
    hear_due(&mut walk.stage, &mut walk.threads, n)
}
