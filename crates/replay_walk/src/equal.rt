//! Equal events, replies and answers.
ghost use Rattle.std.specs.Prelude.{◌≡◌, true, false};

use types::{Answer, Event, Reply};

/// Whether two answers are the same.
pub fn is_same_answer(a: Answer, b: Answer) -> bool
    ensures same { result ≡ true → a ≡ b }
    ensures other { result ≡ false → a ≡ b → ⊥ }
{
    a == b
}

/// Whether two replies are the same.
pub fn is_same_reply(a: Reply, b: Reply) -> bool
    ensures same { result ≡ true → a ≡ b }
    ensures other { result ≡ false → a ≡ b → ⊥ }
{
    a == b
}

/// Whether two events are the same.
pub fn is_same_event(a: Event, b: Event) -> bool
    ensures same { result ≡ true → a ≡ b }
    ensures other { result ≡ false → a ≡ b → ⊥ }
{
    a == b
}
