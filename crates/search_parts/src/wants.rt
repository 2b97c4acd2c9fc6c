//! What a thread wants.

ghost use Rattle.std.specs.Prelude.{IfSome};
ghost use Rattle.shared_memory.specs.Events.{IsEvent};
ghost use Rattle.validate_typing.specs.Tabled.{WithTables};
ghost use Rattle.search_runs.specs.Called.{Walker};
ghost use Rattle.search_parts.specs.Walkers.{StandsForThread};
ghost use Rattle.search_parts.specs.Rests.{IsWantedOf};

use crate::walker::RestingThread;
use types::{Event, Question};

/// The event that a thread wants, if it wants one.
pub(crate) fn wanted(standing: &RestingThread) -> Option<Event>
    ensures wanted { (w : WithTables) → IsWantedOf w standing.now result }
    ensures event { (w : WithTables) (v : Walker) → StandsForThread w standing.now v → IfSome result IsEvent }
{
    match standing {
        RestingThread::Going(_, event) => *event,
        RestingThread::Ended(_) => Some(Event::Ask(Question::Leave)),
        _ => None,
    }
}
