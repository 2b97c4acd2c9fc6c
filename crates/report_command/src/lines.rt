//! Words that are looked for in the lines of threads, and results that are expected.
ghost use Rattle.std.specs.Prelude.{◌≡◌, true, IfOk, IfSome};
ghost use Rattle.report_command.specs.Options.{IsFindOf};
ghost use Rattle.report_command.specs.Results.{IsSpelledBy};

use selection::Find;
use std::alloc::{AllocError, Global};
use types::{MOST_THREADS, Outcome, Stop, Trap, Value};

/// The outcomes without a number.
static PLAIN: [Outcome; 12] = [
    Outcome::Done(None),
    Outcome::Trap(Trap::Unreachable),
    Outcome::Trap(Trap::DivideByZero),
    Outcome::Trap(Trap::IntegerOverflow),
    Outcome::Trap(Trap::OutOfBounds),
    Outcome::Trap(Trap::UnalignedAtomic),
    Outcome::Trap(Trap::NotShared),
    Outcome::Trap(Trap::UndefinedElement),
    Outcome::Trap(Trap::UninitializedElement),
    Outcome::Trap(Trap::SignatureMismatch),
    Outcome::Trap(Trap::StackExhausted),
    Outcome::Stop(Stop::AsleepForGood),
];

/// Those by which a budget is spent.
static SPENT: [Outcome; 2] = [
    Outcome::Stop(Stop::OutOfFuel),
    Outcome::Stop(Stop::RecordFull),
];

/// The number at the end of words, or where there are no digits 0; none where it has more than 64 bits.
fn last_number(words: &str) -> Option<u64> {
    let digits = words
        .bytes()
        .rev()
        .take_while(|byte| byte.is_ascii_digit())
        .count();
    if digits == 0 {
        return Some(0);
    }
    match words.get(words.len().saturating_sub(digits)..) {
        Some(text) => text.parse::<u64>().ok(),
        None => None,
    }
}

/// Whether the line of some thread with this outcome can have the words.
fn can_stand(alloc: Global, words: &str, outcome: Outcome) -> Result<bool, AllocError> {
    for thread in 0..MOST_THREADS {
        let line = format!(in alloc; "thread {thread}: {outcome}")?;
        if line.contains(words) {
            return Ok(true);
        }
    }
    Ok(false)
}

fn can_stand_in(alloc: Global, words: &str, outcomes: &[Outcome]) -> Result<bool, AllocError> {
    for outcome in outcomes {
        if can_stand(alloc, words, *outcome)? {
            return Ok(true);
        }
    }
    Ok(false)
}

/// Whether a line with a value can have the words: digits at their end are those of the value, or of its first part, or
/// stand behind its first one.
fn can_stand_in_values(alloc: Global, words: &str) -> Result<bool, AllocError> {
    let Some(number) = last_number(words) else {
        return Ok(false);
    };
    let short = u32::try_from(number).unwrap_or(0);
    let behind = format!(in alloc; "1{words}")?;
    let longer = last_number(&behind).unwrap_or(0);
    let values = [
        Outcome::Done(Some(Value::I32(short))),
        Outcome::Done(Some(Value::I64(number))),
        Outcome::Done(Some(Value::I64(longer))),
    ];
    can_stand_in(alloc, words, &values)
}

/// In which lines words can stand.
#[derive(Clone, Copy, PartialEq, Eq)]
pub(crate) enum Standing {
    /// In none.
    Nowhere,
    /// In those alone that say that a budget is spent.
    WhereSpent,
    /// In others.
    Somewhere,
}

/// In which lines of a thread words can stand.
pub(crate) fn standing_of(alloc: Global, words: &str) -> Result<Standing, AllocError> {
    if can_stand_in(alloc, words, &PLAIN)? || can_stand_in_values(alloc, words)? {
        return Ok(Standing::Somewhere);
    }
    if can_stand_in(alloc, words, &SPENT)? {
        return Ok(Standing::WhereSpent);
    }
    Ok(Standing::Nowhere)
}

/// What a search through every order looks for by words of the lines in which it says what never ends.
pub(crate) fn endless_of(words: &str) -> Option<Find<'static>>
    ensures { IfSome result (IsFindOf words.now) }
{
    if "from which no run ends".contains(words) {
        return Some(Find::NoEnd);
    }
    if "a fair run can go on for ever".contains(words) {
        return Some(Find::ForEver);
    }
    None
}

/// Whether a result is spelled so: as in the line of a thread, or without its first word `ok`.
fn is_spelled(alloc: Global, words: &str, outcome: Outcome) -> Result<bool, AllocError>
    ensures { IfOk result (λ is. (is ≡ true) → IsSpelledBy words.now outcome) }
{
    let text = format!(in alloc; "{outcome}")?;
    if text.as_str() == words {
        return Ok(true);
    }
    let behind = format!(in alloc; "ok {words}")?;
    if text.as_str() == behind.as_str() {
        return Ok(true);
    }
    Ok(false)
}

/// The value that ends words, if one does.
fn plain_value(words: &str) -> Option<Value> {
    let (kind, digits) = words.split_once(':')?;
    match kind {
        "i32" | "ok i32" => Some(Value::I32(digits.parse::<u32>().ok()?)),
        "i64" | "ok i64" => Some(Value::I64(digits.parse::<u64>().ok()?)),
        _ => None,
    }
}

fn spelled_in(
    alloc: Global,
    words: &str,
    outcomes: &[Outcome],
) -> Result<Option<Outcome>, AllocError>
    ensures { IfOk result (λ o. IfSome o (IsSpelledBy words.now)) }
{
    for outcome in outcomes {
        if is_spelled(alloc, words, *outcome)? {
            return Ok(Some(*outcome));
        }
    }
    Ok(None)
}

/// The result that is spelled so: `ok i32:2` or `i32:2`, `ok`, `trap unreachable`, `stop asleep for good`, as a line of
/// a thread has it.
pub(crate) fn result_of(alloc: Global, words: &str) -> Result<Option<Outcome>, AllocError>
    ensures { IfOk result (λ o. IfSome o (IsSpelledBy words.now)) }
{
    if let Some(value) = plain_value(words) {
        return spelled_in(alloc, words, &[Outcome::Done(Some(value))]);
    }
    match spelled_in(alloc, words, &PLAIN)? {
        Some(outcome) => Ok(Some(outcome)),
        None => spelled_in(alloc, words, &SPENT),
    }
}
