//! Records that are refused.

ghost use Rattle.std.specs.Prelude.{IfOk};
ghost use Rattle.std.specs.String.{string_bytes};
ghost use Rattle.report_reasons.specs.Added.{IsAddedTo};
ghost use Rattle.report_reasons.specs.Lines.{BeginsWithLine};

use crate::lines::add_line;
use interp_trait::Turn;
use replay_text::EventWords;
use show_text::Plain;
use std::alloc::AllocError;

/// What the lines of a header are that both versions have.
const CALL: [&str; 4] = [
    "here stands invoke, and the function's name in hexadecimal digits of its bytes, or -",
    "here stands args, and each argument as i32:N or i64:N",
    "here stands fuel N, N up to 1000000000000",
    "here stands limit N, N from 1 to 1000000",
];

/// What those are that version 2 has before them.
const SCALE: [&str; 3] = [
    "here stands module N, the number of the module's bytes",
    "here stands threads N, how many threads there may be",
    "here stands max-pages N, how many pages there may be",
];

/// What a header line has to be.
fn header_words(saved: &[u8], number: usize) -> &'static str {
    let Some(place) = number.checked_sub(2) else {
        return "the first line of a record is wathread-record, a space and the version, 1 or 2";
    };
    let is_second = saved.starts_with(b"wathread-record 2\n");
    let scale = if is_second { SCALE.len() } else { 0 };
    let words = if place < scale {
        SCALE.get(place)
    } else {
        CALL.get(place - scale)
    };
    match words {
        Some(words) => *words,
        None => "here stands another line of the header",
    }
}

/// Adds why a line of a record's header, by its number from 1 on, can't be one.
pub(crate) fn add_header(out: &mut String, saved: &[u8], number: usize) -> Result<(), AllocError>
    ensures { IfOk result (λ _. BeginsWithLine saved.now number (string_bytes out.old) (string_bytes out.new)) }
{
    add_line(out, saved, number)?;
    let words = header_words(saved, number);
    write!(out, "{words}\n")
}

/// Adds why a line of a record behind its header, by its number from 1 on, can't be one.
pub(crate) fn add_unreadable(
    out: &mut String,
    saved: &[u8],
    number: usize,
) -> Result<(), AllocError>
    ensures { IfOk result (λ _. BeginsWithLine saved.now number (string_bytes out.old) (string_bytes out.new)) }
{
    add_line(out, saved, number)?;
    add_none_such(out)
}

/// Adds that the line is none that may stand there.
fn add_none_such(out: &mut String) -> Result<(), AllocError>
    ensures { IfOk result (λ _. IsAddedTo (string_bytes out.old) (string_bytes out.new)) }
{
    out.push_str(
        "it is no line that may stand there: an entry, an end, the pages or finish, with one spelling each\n",
    )
}

/// The thread of a line that doesn't fit.
#[derive(Clone, Copy)]
pub(crate) struct UnfitThread<'a> {
    pub(crate) number: u32,
    /// What it comes to in place of the line, where that is known.
    pub(crate) turn: Option<Turn>,
    /// Where it stands behind its last entry, as it is printed.
    pub(crate) spot: &'a str,
}

/// Adds why a line of a record, by its number from 1 on, is of no run of the module, with what its thread does in place of
/// it, where that is known.
pub(crate) fn add_misfit(
    out: &mut String,
    saved: &[u8],
    number: usize,
    thread: Option<UnfitThread>,
) -> Result<(), AllocError>
    ensures { IfOk result (λ _. BeginsWithLine saved.now number (string_bytes out.old) (string_bytes out.new)) }
{
    add_line(out, saved, number)?;
    add_no_run(out, thread)
}

/// Adds that no run goes on so, and what the thread of the line does in place of it, where that is known.
fn add_no_run(out: &mut String, thread: Option<UnfitThread>) -> Result<(), AllocError>
    ensures { IfOk result (λ _. IsAddedTo (string_bytes out.old) (string_bytes out.new)) }
{
    if let Some(thread) = thread {
        add_instead(out, thread)?;
    }
    out.push_str(
        "no run of this module goes on so: is the record of another module, or of another build of it?\n",
    )
}

/// Adds what a thread does in place of the record's line, and where it stands.
fn add_instead(out: &mut String, thread: UnfitThread) -> Result<(), AllocError>
    ensures { IfOk result (λ _. IsAddedTo (string_bytes out.old) (string_bytes out.new)) }
{
    let UnfitThread { number, turn, spot } = thread;
    match turn {
        Some(Turn::Wants(event)) => {
            let words = EventWords(event);
            write!(out, "t{number} would do {words}\n")?;
        }
        Some(Turn::Awaits) => write!(out, "t{number} waits for an answer\n")?,
        Some(Turn::Ended(outcome)) => write!(out, "t{number} has ended: {outcome}\n")?,
        Some(Turn::Moved) | None => {}
    }
    let spot = Plain(spot);
    write!(out, "t{number} stands at {spot} before it\n")
}
