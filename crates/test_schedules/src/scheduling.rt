//! The schedule of a log: stepped along it, the machine makes the log's events in their order.
ghost use Rattle.schedule_program.specs.Runs.{IsSomewhere};

use interp_trait::TakesTurns;
use schedule_program::{Kind, Machine, Mark};
use std::alloc::{AllocError, Global};
use types::{Entry, Event, Question};

/// Steps the machine by a mark, and keeps the mark.
fn step<T: TakesTurns>(
    machine: &mut Machine<T>,
    thread: u32,
    kind: Kind,
    marks: &mut Vec<Mark>,
) -> Result<(), AllocError>
    requires { IsSomewhere T.meaning machine.old }
    ensures { IsSomewhere T.meaning machine.new }
{
    let mark = Mark { thread, kind };
    let _entry = machine.step(mark);
    marks.push(mark)?;
    Ok(())
}

/// Steps a thread by turns of its own until it wants an event, and at most `most` times.
fn go_on<T: TakesTurns>(
    machine: &mut Machine<T>,
    thread: u32,
    most: u32,
    marks: &mut Vec<Mark>,
) -> Result<(), AllocError>
    requires { IsSomewhere T.meaning machine.old }
    ensures { IsSomewhere T.meaning machine.new }
{
    'turns: for _ in 0..most {
        if machine.wanted(thread).is_some() {
            break 'turns;
        }
        step(machine, thread, Kind::Turn, marks)?;
    }
    Ok(())
}

/// A thread whose next entry is a leave, and which wants another event, finds the log full.
fn fill_before_leave<T: TakesTurns>(
    machine: &mut Machine<T>,
    entry: &Entry,
    marks: &mut Vec<Mark>,
) -> Result<(), AllocError>
    requires { IsSomewhere T.meaning machine.old }
    ensures { IsSomewhere T.meaning machine.new }
{
    let leave = Event::Ask(Question::Leave);
    if entry.event == leave && machine.wanted(entry.thread) != Some(leave) {
        return step(machine, entry.thread, Kind::Fills, marks);
    }
    Ok(())
}

/// The schedule of a log without lost tries, found by stepping a machine that is before its first mark. For each entry
/// that is no answer heard, these are the turns of its own that the thread makes before it, at most `most`, and its
/// turn; before a leave of a thread that wants another event, the thread finds the log full.
///
/// # Errors
/// Where memory is refused.
pub fn schedule_of<T: TakesTurns>(
    alloc: Global,
    machine: &mut Machine<T>,
    log: &[Entry],
    most: u32,
) -> Result<Vec<Mark>, AllocError>
    requires { IsSomewhere T.meaning machine.old }
    ensures { IsSomewhere T.meaning machine.new }
{
    let mut marks = Vec::new(alloc);
    for entry in log {
        if let Event::Told(_) = entry.event {
            continue;
        }
        go_on(machine, entry.thread, most, &mut marks)?;
        fill_before_leave(machine, entry, &mut marks)?;
        step(machine, entry.thread, Kind::Turn, &mut marks)?;
    }
    Ok(marks)
}
