//! The cycles in which threads wait for one another, as text.
ghost use Rattle.std.specs.Prelude.{◌≡◌, IfOk, OnOk, string_bytes};
ghost use Rattle.show_waits.specs.CycleTexts.{SaysCycle, WritesCycles, cycle_text};

use crate::cycles::{cycle_from, waits_of};
use selection::Spans;
use show_rows::Shown;
use show_text::Unwritten;
use std::alloc::{AllocError, Global};
use std::io::Write;

/// The words of a cycle: of thread n and these others, in their order.
fn words_of(alloc: Global, n: usize, others: &[usize]) -> Result<String, AllocError>
    ensures { IfOk result (λ text. string_bytes text ≡ cycle_text n others.now) }
{
    let mut text = String::new(alloc);
    let mut at = n;
    for next in others {
        text = format!(in alloc; "{text}t{at} waits for t{next}, ")?;
        at = *next;
    }
    let text = format!(in alloc;
        "{text}t{at} waits for t{n}: a cycle; where each stands, the next one was the last of the others to write\n"
    )?;
    Ok(text)
}

/// What is told of the cycle of a thread: nothing where it waits in none, or isn't the one of the lowest number.
fn cycle_of(alloc: Global, waits: &[Option<usize>], n: usize) -> Result<String, AllocError>
    ensures { IfOk result (λ text. SaysCycle waits.now n (string_bytes text)) }
{
    match cycle_from(alloc, waits, n)? {
        Some(others) => words_of(alloc, n, others.as_slice()),
        None => Ok(String::new(alloc)),
    }
}

/// Writes each cycle in which threads wait for one another, where this memory is left out.
pub(crate) fn write_cycles<W: Write>(
    alloc: Global,
    shown: Shown,
    left_out: &Option<Spans>,
    out: &mut W,
) -> Result<(), Unwritten>
    ensures { OnOk result (WritesCycles shown.entry left_out.now (W.contents out.old) (W.contents out.new)) }
{
    let ends = shown.record.ends.as_slice();
    let waits = waits_of(alloc, shown.record.log.as_slice(), ends, left_out)?;
    for n in 0..ends.len() {
        let text = cycle_of(alloc, waits.as_slice(), n)?;
        write!(out, "{text}")?;
    }
    Ok(())
}
