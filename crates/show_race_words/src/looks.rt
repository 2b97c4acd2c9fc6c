//! What the two entries of a race do with the number of pages.

ghost use Rattle.std.specs.Prelude.{◌≡◌, ◌<◌, IfOk, length, string_bytes};
ghost use Rattle.show_race_words.specs.Written as written;
ghost use Rattle.show_race_words.specs.Written.{IsLookText};

use race_history::Race;
use show_races::changes_pages;
use show_rows::Shown;
use std::alloc::{AllocError, Global};
use types::{Entry, Event, Question};

/// What an entry is called whose bounds check looks at the number of pages.
fn look_of(event: Event) -> &'static str
    ensures { result.now ≡ written.look_of event }
{
    match event {
        Event::Load {
            addr: _,
            width: _,
            reach: _,
        } => "load",
        Event::Store {
            addr: _,
            width: _,
            reach: _,
            value: _,
        } => "store",
        Event::Rmw {
            op: _,
            addr: _,
            width: _,
            value: _,
        } => "read-modify-write",
        Event::Cmpxchg {
            addr: _,
            width: _,
            expected: _,
            replacement: _,
        } => "compare-exchange",
        Event::Ask(
            Question::Wait {
                addr: _,
                width: _,
                expected: _,
                timeout: _,
            },
        ) => "wait",
        Event::Ask(Question::Notify { addr: _, count: _ }) => "notify",
        _ => "access",
    }
}

/// That one entry looks at the number of pages, which the other changes.
fn looks(alloc: Global, looker: &Entry, changer: &Entry) -> Result<String, AllocError>
    ensures { IfOk result (λ text. string_bytes text ≡ written.looks looker.now changer.now) }
{
    let (one, other) = (looker.thread, changer.thread);
    let name = look_of(looker.event);
    let text = format!(in alloc;
        "  t{one}'s {name} looks at the number of pages, which t{other} changes\n"
    )?;
    Ok(text)
}

/// What two entries do with the number of pages, where that is their race.
fn look_of_both(alloc: Global, one: &Entry, other: &Entry) -> Result<String, AllocError>
    ensures { IfOk result (λ text. string_bytes text ≡ written.look_text one.now other.now) }
{
    if changes_pages(one) {
        return looks(alloc, other, one);
    }
    if changes_pages(other) {
        return looks(alloc, one, other);
    }
    Ok(String::new(alloc))
}

/// What the two entries of a race do with the number of pages.
pub(crate) fn look_text(alloc: Global, shown: Shown, race: Race) -> Result<String, AllocError>
    requires first { race.first < length shown.record.now.log }
    requires second { race.second < length shown.record.now.log }
    ensures { IfOk result (λ text. IsLookText shown.entry race (string_bytes text)) }
{
    let log = shown.record.log.as_slice();
    look_of_both(alloc, &log[race.first], &log[race.second])
}
