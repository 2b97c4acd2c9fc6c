//! Before one line of a record: what each thread is at, who sleeps, and what is in memory.
//!
//! Proved: `Scene::told` is what each spawned thread comes to next, beside the memory that is left out, or on what it
//! sleeps, with the last write of these bytes before it, and the places, locals and operands of its open functions, the
//! one that runs first, and the values that a debug section has of the place of each, which are numbers in the locals
//! and operands of that function or in the memory of the moment; and with which entries the moment's entry races.
//! `write_moment` writes exactly that in lines, who sleeps, and the bytes. The queue, the bytes, the memory and where
//! each thread stands are those of the walk there, also over a whole replay (`proofs/Walked.antt`), and from then on a
//! thread stands where it first wants something, or where it has ended. Its open functions have the locals and operands
//! that are kept of it.
//!
//! - `specs/Scenes.antt`: what is told of a moment; `specs/Lines.antt`: that in lines.
#![tactic(auto)]

mod lines;
mod moment;
mod scene;
mod standing;
mod texts;
mod told;
mod values;

pub use lines::write_moment;
pub use moment::{Bytes, Moment};
pub use scene::{MomentView, Scene};
pub use standing::{OpenFunction, ThreadSnapshot};
pub use texts::dump_text;
pub use told::{Stance, ToldMoment, ToldNext, ToldThread};
