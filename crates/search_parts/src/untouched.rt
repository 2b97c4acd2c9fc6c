//! Threads to which nothing happens at an event.

ghost use Rattle.std.specs.Prelude.{◌≡◌, ◌<◌, true, false};
ghost use Rattle.types.specs.declared.limits.TheConstants.{MOST_THREADS};
ghost use Rattle.search_parts.specs.Untouched.{StandsAsBefore, IsTouched};

use crate::event::Effect;

/// Whether nothing happens to thread m at an event of thread n: it made no event, hears no answer, and doesn't begin.
pub fn is_untouched(made: &Effect, n: usize, m: usize) -> bool
    requires { m < MOST_THREADS }
    ensures untouched { result ≡ true → StandsAsBefore made.now n m }
    ensures touched { result ≡ false → IsTouched made.now n m }
{
    if n == m {
        return false;
    }
    if made.due(m as u32).is_some() {
        return false;
    }
    let Some(begun) = made.begun else {
        return true;
    };
    begun.id as usize != m
}
