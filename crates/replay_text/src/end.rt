//! Reading the ends of threads.

ghost use Rattle.std.specs.Prelude.{◌≡◌, codes};
ghost use Rattle.replay_forms.specs.Reading.{ReadsNext, behind};
ghost use Rattle.replay_text.specs.Reading.{trap_of, stop_of, result_at, trap_at, stop_at, outcome_at, report_of};
ghost use Rattle.replay_text.specs.Reading.{end_at};

use crate::number::number_behind;
use crate::value::value_at;
use replay_forms::{Item, after, number_then};
use types::{MOST_FUEL, MOST_SPAWNED, Outcome, Stop, ThreadReport, Trap};

fn trap_of(number: u64) -> Option<Trap>
    ensures { result ≡ trap_of number }
{
    match number {
        1 => Some(Trap::Unreachable),
        2 => Some(Trap::DivideByZero),
        3 => Some(Trap::IntegerOverflow),
        4 => Some(Trap::OutOfBounds),
        5 => Some(Trap::UnalignedAtomic),
        6 => Some(Trap::NotShared),
        7 => Some(Trap::UndefinedElement),
        8 => Some(Trap::UninitializedElement),
        9 => Some(Trap::SignatureMismatch),
        10 => Some(Trap::StackExhausted),
        _ => None,
    }
}

fn stop_of(number: u64) -> Option<Stop>
    ensures { result ≡ stop_of number }
{
    match number {
        1 => Some(Stop::OutOfFuel),
        2 => Some(Stop::AsleepForGood),
        3 => Some(Stop::RecordFull),
        _ => None,
    }
}

fn result_at(bytes: &[u8]) -> Option<(Outcome, &[u8])>
    ensures { ReadsNext (behind (codes "ok ") result_at) bytes.now result }
{
    let Some(rest) = after(b"ok ", bytes) else {
        return None;
    };
    let Some((value, rest)) = value_at(rest) else {
        return None;
    };
    let Some(rest) = after(b" ", rest) else {
        return None;
    };
    Some((Outcome::Done(Some(value)), rest))
}

fn trap_at(bytes: &[u8]) -> Option<(Outcome, &[u8])>
    ensures { ReadsNext trap_at bytes.now result }
{
    let Some((number, rest)) = number_behind(b"trap ", 10, b" ", bytes) else {
        return None;
    };
    let Some(trap) = trap_of(number) else {
        return None;
    };
    Some((Outcome::Trap(trap), rest))
}

fn stop_at(bytes: &[u8]) -> Option<(Outcome, &[u8])>
    ensures { ReadsNext stop_at bytes.now result }
{
    let Some((number, rest)) = number_behind(b"stop ", 3, b" ", bytes) else {
        return None;
    };
    let Some(stop) = stop_of(number) else {
        return None;
    };
    Some((Outcome::Stop(stop), rest))
}

fn outcome_at(bytes: &[u8]) -> Option<(Outcome, &[u8])>
    ensures { ReadsNext outcome_at bytes.now result }
{
    if let Some(rest) = after(b"ok - ", bytes) {
        return Some((Outcome::Done(None), rest));
    }
    if let Some(found) = result_at(bytes) {
        return Some(found);
    }
    if let Some(found) = trap_at(bytes) {
        return Some(found);
    }
    stop_at(bytes)
}

/// The report, where the number is the thread's.
fn report_of(thread: usize, number: u64, report: ThreadReport) -> Option<ThreadReport>
    ensures { result ≡ report_of thread (number, (report.outcome, report.spent)) }
{
    if number as usize == thread {
        Some(report)
    } else {
        None
    }
}

/// The line of this thread's end.
#[tactic(auto, unfolding(crate::specs::Reading::end_at))]
fn end_at(thread: usize, bytes: &[u8]) -> Option<(ThreadReport, &[u8])>
    ensures { ReadsNext (end_at thread) bytes.now result }
{
    let Some(rest) = after(b"end ", bytes) else {
        return None;
    };
    let Some((number, rest)) = number_then(MOST_SPAWNED as u64, b" ", rest) else {
        return None;
    };
    let Some((outcome, rest)) = outcome_at(rest) else {
        return None;
    };
    let Some((spent, rest)) = number_then(MOST_FUEL, b"\n", rest) else {
        return None;
    };
    let Some(report) = report_of(thread, number, ThreadReport { outcome, spent }) else {
        return None;
    };
    Some((report, rest))
}

/// The lines of the threads' ends.
pub struct EndLine;

impl Item for EndLine {
    ghost use Rattle.replay_text.specs.Reading.{end_at};

    type Value = ThreadReport;

    ghost at = { λ kind. end_at };

    fn read<'a>(&self, place: usize, bytes: &'a [u8]) -> Option<(ThreadReport, &'a [u8])> {
        end_at(place, bytes)
    }
}
