//! What callers of a desk and authors of locks rest on.
ghost use Rattle.waiters_desk.specs.Freedom.{AFreeThreadStaysFree, OthersLeaveAThreadAsItStands};
ghost use Rattle.waiters_desk.specs.Freedom.{AMeetingLeavesBothAsTheyStand};
ghost use Rattle.waiters_desk.specs.Locks.{AWaitAfterANotifyReadsWhatItSaw};

/// A wait whose question stands after a notify's question in a legal history read its word after everything that the
/// notifier had seen. So it never sleeps on a value that the notifier had already seen replaced, unless that was stored
/// again.
pub fn a_wait_after_a_notify_reads_what_the_notifier_saw()
    ensures { AWaitAfterANotifyReadsWhatItSaw }
{}

/// A thread that may ask the desk may still ask it after any access of its own, whatever others entered meanwhile.
pub fn a_free_thread_stays_free()
    ensures { AFreeThreadStaysFree }
{}

/// Entries of others leave a thread as it stands: a free one free, a waiting one waiting, and one without entries
/// without.
pub fn others_leave_a_thread_as_it_stands()
    ensures { OthersLeaveAThreadAsItStands }
{}

/// So does a meeting, of both seats.
pub fn a_meeting_leaves_both_as_they_stand()
    ensures { AMeetingLeavesBothAsTheyStand }
{}
