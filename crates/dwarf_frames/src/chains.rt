//! The functions that were put in the place of their calls, at some offsets of the code.

ghost use Rattle.std.specs.Prelude.{◌≡◌, option_map};
ghost use Rattle.dwarf_frames.specs.Chains as specified;

use crate::frames::{Chain, UNKNOWN, write_place};
use crate::inlined::{Inlined, inlined_at};
use dwarf_lines::{DebugSections, Source};
use dwarf_units::{Spanned, Spans, Units};
use show_places::short_name;
use std::alloc::{AllocError, Global};
use std::fmt::Write;

/// The most calls of an offset that are all told.
const MOST_CALLS: usize = 4;

/// The most bytes of the chains of all offsets.
const MOST_BYTES: usize = 1 << 26;

/// The chains of some offsets.
#[derive(Drop)]
pub struct Chains {
    /// An offset each, with the index of its chain.
    spans: Spans,
    chains: Vec<Chain>,
}

impl Chains {
    /// Those of no offset.
    ///
    /// # Errors
    /// Where memory is refused.
    pub fn none(alloc: Global) -> Result<Chains, AllocError> {
        Ok(Chains {
            spans: Spans::new(alloc, Vec::new(alloc))?,
            chains: Vec::new(alloc),
        })
    }

    /// The chain of an offset, if it is one of these and functions were put in the place of their calls there.
    pub fn at(&self, offset: usize) -> Option<&Chain>
        ensures { option_map (λ c. c.now) result ≡ specified.chain_at self.now offset }
    {
        let span = self.spans.at(offset as u64)?;
        self.chains.get(span.entry)
    }
}

/// A call: the function that makes it, and the file and the line, as far as they are said.
#[derive(Clone, Copy)]
struct Call<'a> {
    caller: &'a str,
    file: Option<Source<'a>>,
    line: Option<u64>,
}

/// The calls that lead to the innermost of these functions, from the innermost one on. Those that a function of C's
/// implementation makes, whose name begins with an underscore, are left out.
fn calls_of<'a>(
    alloc: Global,
    inlined: &[Inlined<'a>],
    last: &'a str,
) -> Result<Vec<Call<'a>>, AllocError> {
    let mut calls = Vec::new(alloc);
    for (at, call) in inlined.iter().enumerate() {
        let caller = match inlined.get(at.saturating_add(1)) {
            Some(next) => next.function.unwrap_or(UNKNOWN),
            None => last,
        };
        if !caller.starts_with('_') {
            calls.push(Call {
                caller,
                file: call.file,
                line: call.line,
            })?;
        }
    }
    Ok(calls)
}

/// These calls in words. Of more than `MOST_CALLS` those in front of the last one are left out.
fn calls_text(alloc: Global, calls: &[Call]) -> Result<String, AllocError> {
    let mut words = String::new(alloc);
    for (at, call) in calls.iter().enumerate() {
        let is_told = calls.len() <= MOST_CALLS
            || at.saturating_add(1) < MOST_CALLS
            || at.saturating_add(1) == calls.len();
        if is_told {
            let caller = short_name(alloc, call.caller)?;
            write!(words, " < {caller}")?;
            write_place(call.file, call.line, &mut words)?;
        } else if at.saturating_add(1) == MOST_CALLS {
            words.push_str(" < ..")?;
        }
    }
    Ok(words)
}

/// The functions that were put in the place of their calls at an offset of the code, if there are any: the innermost one,
/// and the calls that lead to it.
pub fn chain_at(
    alloc: Global,
    units: &Units,
    lines: DebugSections,
    functions: &Spans,
    offset: u64,
) -> Result<Option<Chain>, AllocError> {
    let Some(function) = functions.at(offset) else {
        return Ok(None);
    };
    let inlined = inlined_at(alloc, units, lines, functions, offset)?;
    let Some(first) = inlined.first() else {
        return Ok(None);
    };
    let last = units.name(function.entry).unwrap_or(UNKNOWN);
    let calls = calls_of(alloc, inlined.as_slice(), last)?;
    Ok(Some(Chain {
        innermost: short_name(alloc, first.function.unwrap_or(UNKNOWN))?,
        calls: calls_text(alloc, calls.as_slice())?,
    }))
}

/// The chains of the offsets that are marked, each by so many steps at most.
pub fn read_chains(
    alloc: Global,
    units: &Units,
    lines: DebugSections,
    functions: &Spans,
    marks: &[bool],
    steps: u64,
) -> Result<Chains, AllocError> {
    let mut spans = Vec::new(alloc);
    let mut chains = Vec::new(alloc);
    let mut bytes = 0usize;
    for (offset, is_marked) in marks.iter().enumerate() {
        if !*is_marked {
            continue;
        }
        if bytes > MOST_BYTES {
            break;
        }
        units.allow(steps);
        let start = offset as u64;
        if let Some(chain) = chain_at(alloc, units, lines, functions, start)? {
            bytes = bytes
                .saturating_add(chain.innermost.len())
                .saturating_add(chain.calls.len());
            spans.push(Spanned {
                start,
                end: start.saturating_add(1),
                entry: chains.len(),
            })?;
            chains.push(chain)?;
        }
    }
    Ok(Chains {
        spans: Spans::new(alloc, spans)?,
        chains,
    })
}
