//! What is said of a frame: the calls in it whose functions were put in their places, and the values that it has.

ghost use Rattle.std.specs.Prelude.{◌≡◌, IfOk};

use crate::inlined::{Inlined, inlined_at};
use crate::values::{FrameValue, values_of};
use crate::variables::variables_at;
use dwarf_lines::{DebugSections, Source};
use dwarf_units::{Spans, Units};
use show_places::short_name;
use std::alloc::{AllocError, Global};
use std::fmt::Write;

/// What stands for a name that isn't known.
pub(crate) const UNKNOWN: &str = "?";

/// The most bytes of calls, behind which further ones are only said to be there.
const MOST_CALLS: usize = 1024;

/// The functions that were put in the place of their calls: the name of the innermost, and behind its line the calls that
/// lead to it, as ` < take queue.c:88 < body queue.c:120`.
#[derive(Drop)]
pub struct Chain {
    pub innermost: String,
    pub calls: String,
}

/// What is said of a frame whose function is at an offset of the code.
#[derive(Drop)]
pub struct CallFrame {
    /// The offset of which it is said, if it is known.
    pub offset: Option<usize>,
    /// Whether functions are known at all.
    pub is_known: bool,
    pub chain: Option<Chain>,
    pub values: Vec<FrameValue>,
}

/// Behind the name of a function that calls another one: the file and the line of the call, as far as they are known.
pub(crate) fn write_place(
    file: Option<Source>,
    line: Option<u64>,
    words: &mut String,
) -> Result<(), AllocError> {
    let Some(Source { name, .. }) = file else {
        return Ok(());
    };
    write!(words, " {name}")?;
    match line {
        Some(line) => write!(words, ":{line}"),
        None => Ok(()),
    }
}

/// These calls in words; the innermost one is the first, and the function that has them all the last.
fn chain_of(alloc: Global, inlined: &[Inlined], last: &str) -> Result<Option<Chain>, AllocError> {
    let Some(first) = inlined.first() else {
        return Ok(None);
    };
    let mut calls = String::new(alloc);
    for (at, call) in inlined.iter().enumerate() {
        let caller = match inlined.get(at.saturating_add(1)) {
            Some(next) => next.function.unwrap_or(UNKNOWN),
            None => last,
        };
        if calls.len() > MOST_CALLS {
            calls.push_str(" < ..")?;
            break;
        }
        let caller = short_name(alloc, caller)?;
        write!(calls, " < {caller}")?;
        write_place(call.file, call.line, &mut calls)?;
    }
    Ok(Some(Chain {
        innermost: short_name(alloc, first.function.unwrap_or(UNKNOWN))?,
        calls,
    }))
}

/// What is said of a frame whose function is at an offset of the code.
pub fn read_frame(
    alloc: Global,
    units: &Units,
    lines: DebugSections,
    functions: &Spans,
    offset: Option<usize>,
) -> Result<CallFrame, AllocError>
    ensures { IfOk result (λ frame. frame.offset ≡ offset) }
{
    let mut frame = CallFrame {
        offset,
        is_known: !functions.items().is_empty(),
        chain: None,
        values: Vec::new(alloc),
    };
    let Some((at, function)) = offset.and_then(|at| Some((at as u64, functions.at(at as u64)?)))
    else {
        return Ok(frame);
    };
    let inlined = inlined_at(alloc, units, lines, functions, at)?;
    let name = units.name(function.entry).unwrap_or(UNKNOWN);
    let variables = variables_at(alloc, units, functions, at)?;
    frame.chain = chain_of(alloc, inlined.as_slice(), name)?;
    frame.values = values_of(alloc, units, inlined.as_slice(), variables.as_slice())?;
    Ok(frame)
}
