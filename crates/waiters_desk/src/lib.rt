//! The desk: the waits, notifies, spawns and ends of the threads that share one memory, as one wait queue under a lock.
//!
//! Proved: a call's new entries are legal for the memory and the queue, with its own question, answer, both or none;
//! what it answers is what they say. Where a question is entered the log had room for it; a call that a full log
//! refuses enters nothing of the caller, and leaves the queue as it was. `begin` gives an argument only where the
//! thread was spawned with it, and nothing only where nobody is alive and it wasn't. What a call asks of its caller is
//! of the caller's own list, and others' entries don't change that. A `wait` reads its word behind all that its caller
//! had seen; and each wait behind a `notify`, in whatever history goes on from there, reads behind all that the
//! notifier had seen (clause `reads`; the law `a_wait_after_a_notify_reads_what_the_notifier_saw`). Who changes the
//! queue wakes all who wait at the desk, behind the change and before the lock is given up.
#![tactic(auto)]

mod answers;
mod desk;
mod laws;
mod locked;
mod told;
mod turn;

pub use answers::{Asked, Full, Notified};
pub use desk::Desk;
pub use laws::{
    a_free_thread_stays_free, a_meeting_leaves_both_as_they_stand,
    a_wait_after_a_notify_reads_what_the_notifier_saw, others_leave_a_thread_as_it_stands,
};
pub use turn::{hear, put};
