//! Whether entries, and what is known of them, are the same.
ghost use Rattle.std.specs.Prelude.{◌≡◌, true, None};
ghost use Rattle.show_named.specs.Folds.{without_caller};

use interp::CodePlace;
use replay_walk::{is_same_answer, is_same_event, is_same_reply};
use show_rows::Row;
use show_text::Context;
use types::Entry;

/// Whether two entries are the same.
pub(crate) fn is_same_entry(a: &Entry, b: &Entry) -> bool
    ensures { result ≡ true → a.now ≡ b.now }
{
    if a.thread != b.thread {
        return false;
    }
    is_same_event(a.event, b.event) && is_same_reply(a.reply, b.reply)
}

/// Whether the same stands before or behind two entries. Two answers are never to one question.
pub(crate) fn is_same_context(a: Context, b: Context) -> bool
    ensures { result ≡ true → a ≡ b }
{
    match (a, b) {
        (Context::Alone, Context::Alone) => true,
        (Context::Answered(a), Context::Answered(b)) => is_same_answer(a, b),
        _ => false,
    }
}

fn is_same_number(a: Option<u64>, b: Option<u64>) -> bool
    ensures { result ≡ true → a ≡ b }
{
    match (a, b) {
        (Some(a), Some(b)) => a == b,
        (None, None) => true,
        _ => false,
    }
}

/// Whether two places are the same, or neither is known.
pub(crate) fn is_same_place(a: Option<CodePlace>, b: Option<CodePlace>) -> bool
    ensures { result ≡ true → a ≡ b }
{
    match (a, b) {
        (Some(a), Some(b)) => a.function == b.function && a.instr == b.instr,
        (None, None) => true,
        _ => false,
    }
}

fn is_same_known_row(a: Row, b: Row) -> bool
    ensures { result ≡ true → record a { caller = None } ≡ record b { caller = None } }
{
    if a.place.function != b.place.function {
        return false;
    }
    a.place.instr == b.place.instr && is_same_number(a.before, b.before)
}

/// Whether two rows are the same but for their callers, or neither is known.
pub(crate) fn is_same_row(a: Option<Row>, b: Option<Row>) -> bool
    ensures { result ≡ true → without_caller a ≡ without_caller b }
{
    match (a, b) {
        (Some(a), Some(b)) => is_same_known_row(a, b),
        (None, None) => true,
        _ => false,
    }
}
