//! Which replies an entry of an event may have.

ghost use Rattle.std.specs.Prelude.{◌≡◌};
ghost use Rattle.replay_text.specs.Conditions.{is_reply_to};

use types::{Event, Question, Reply};

/// Whether an entry of the event may have the reply.
pub fn is_reply_to(event: Event, reply: Reply) -> bool
    ensures { result ≡ is_reply_to event reply }
{
    let has_value = !matches!(
        event,
        Event::Store { .. }
            | Event::Told(_)
            | Event::Ask(Question::Notify { .. } | Question::Spawn { .. } | Question::Leave)
    );
    let has_address = !matches!(
        event,
        Event::Size
            | Event::Grow(_)
            | Event::Told(_)
            | Event::Ask(Question::Spawn { .. } | Question::Leave)
    );
    match reply {
        Reply::Value(_) => has_value,
        Reply::Done => !has_value,
        Reply::OutOfBounds => has_address,
        Reply::Again | Reply::Full => false,
    }
}
