//! From where threads came to entries of a recorded run: the calls of all functions that are open there, which a replay
//! of the record sees as it goes along its log, and these stacks as text.
//!
//! Proved: `stacks_seen` has, of each place that is named, all calls of the thread that wants the entry there, the
//! innermost first, as they are where it wants it, behind the entries before that one in the record's run; of an answer
//! or a leave, which no thread wants, it has none. A place that is named twice is kept once, at the first of the two,
//! where `calls_at` finds it. `StacksView::text` is the text of the place where an entry was made, and behind it that
//! of each call.
//!
//! - `specs/Stacks.antt`: the calls that are kept. `specs/Seen.antt`: those of a record's entries.
//! - `specs/Texts.antt`: the text of a stack.
#![tactic(auto)]

mod seen;
mod stacks;
mod texts;

pub use seen::stacks_seen;
pub use stacks::EntryStacks;
pub use texts::StacksView;
