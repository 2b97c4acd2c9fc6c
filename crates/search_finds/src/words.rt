//! What is looked for in the lines of a run's threads.
ghost use Rattle.std.specs.Prelude.{◌↔◌, IfOk, IsTrue};
ghost use Rattle.std.specs.Str.Iter.{HasSubslice};
ghost use Rattle.search_finds.specs.Words.{line_of, HasLineWith};

use search_endings::Ending;
use std::alloc::{AllocError, Global};
use types::Outcome;

/// Whether the line of a thread has the words.
fn has_words(
    alloc: Global,
    thread: usize,
    outcome: Outcome,
    words: &str,
) -> Result<bool, AllocError>
    ensures { IfOk result (λ has. IsTrue has ↔ HasSubslice (line_of thread outcome) words.now) }
{
    let line = format!(in alloc; "thread {thread}: {outcome}")?;
    Ok(line.contains(words))
}

/// Whether some thread's line has the words.
pub fn has_line_with(alloc: Global, ending: &Ending, words: &str) -> Result<bool, AllocError>
    ensures { IfOk result (λ has. IsTrue has ↔ HasLineWith words.now ending.now.outcomes) }
{
    for (thread, outcome) in ending.outcomes().iter().enumerate() {
        if has_words(alloc, thread, *outcome, words)? {
            return Ok(true);
        }
    }
    Ok(false)
}
