//! Functions that were put in the place of their calls.

use crate::scopes::scopes_at;
use dwarf_lines::{DebugSections, Files, Source, read_files};
use dwarf_units::{Attribute, Spans, Tag, Units};
use std::alloc::{AllocError, Global};

/// A function that was put in the place of its call: its name, and the file and the line of the call, as far as they are
/// said.
#[derive(Clone, Copy, Debug, PartialEq, Eq)]
pub struct Inlined<'a> {
    pub function: Option<&'a str>,
    pub file: Option<Source<'a>>,
    pub line: Option<u64>,
}

/// How many steps a byte of the files of a unit costs.
const FILE_STEPS: usize = 64;

/// The files of the unit of scopes, if one of these was put in the place of a call.
fn files_of<'a>(
    alloc: Global,
    units: &Units<'a>,
    lines: DebugSections<'a>,
    scopes: &[usize],
) -> Result<Option<Files<'a>>, AllocError> {
    let inlined = scopes
        .iter()
        .find(|scope| units.tag(**scope) == Tag::InlinedSubroutine);
    let Some(offset) = inlined.and_then(|scope| units.lines_of(*scope)) else {
        return Ok(None);
    };
    let files = read_files(alloc, lines, offset)?;
    units.pass(files.size().saturating_mul(FILE_STEPS));
    Ok(Some(files))
}

/// The functions that were put in the place of their calls at an offset of the code, the innermost first.
pub fn inlined_at<'a>(
    alloc: Global,
    units: &Units<'a>,
    lines: DebugSections<'a>,
    functions: &Spans,
    offset: u64,
) -> Result<Vec<Inlined<'a>>, AllocError> {
    let scopes = scopes_at(alloc, units, functions, offset)?;
    let files = files_of(alloc, units, lines, scopes.as_slice())?;
    let mut chain = Vec::new(alloc);
    for scope in scopes.iter().rev() {
        if matches!(units.tag(*scope), Tag::InlinedSubroutine) {
            let number = units.number(*scope, Attribute::CallFile);
            chain.push(Inlined {
                function: units.name(*scope),
                file: number.and_then(|number| files.as_ref()?.get(number)),
                line: units.number(*scope, Attribute::CallLine),
            })?;
        }
    }
    Ok(chain)
}
