//! Scopes: a function, and the blocks and the inlined functions in it, one within the other.

ghost use Rattle.std.specs.Prelude.{◌<◌, find, IfOk, IfSome};
ghost use Rattle.dwarf_units.specs.Spans.{holds};
ghost use Rattle.dwarf_frames.specs.Scopes.{BeginsWith, AreOf};

use dwarf_units::{Spans, Tag, Units};
use std::alloc::{AllocError, Global};

/// The most scopes within one another.
const MOST_SCOPES: u32 = 4096;

/// The scope right below one that has the code at an offset. It stands behind it.
fn inner(alloc: Global, units: &Units, scope: usize, at: u64) -> Result<Option<usize>, AllocError>
    ensures { IfOk result (λ inner. IfSome inner (λ child. scope < child)) }
{
    for child in &units.children(alloc, scope, units.len())? {
        let is_scope = matches!(
            units.tag(*child),
            Tag::LexicalBlock | Tag::InlinedSubroutine
        );
        if is_scope && units.has_code(*child, at) {
            return Ok(Some(*child));
        }
    }
    Ok(None)
}

/// A function and the scopes in it that have the code at an offset.
fn scopes_from(
    alloc: Global,
    units: &Units,
    function: usize,
    offset: u64,
) -> Result<Vec<usize>, AllocError>
    ensures { IfOk result (λ scopes. BeginsWith function scopes.items) }
{
    let mut scopes = Vec::new(alloc);
    let mut scope = function;
    scopes.push(scope)?;
    for _ in 0..MOST_SCOPES {
        match inner(alloc, units, scope, offset)? {
            Some(next) => scope = next,
            None => break,
        }
        scopes.push(scope)?;
    }
    Ok(scopes)
}

/// The scopes that have the code at an offset, the function first.
pub(crate) fn scopes_at(
    alloc: Global,
    units: &Units,
    functions: &Spans,
    offset: u64,
) -> Result<Vec<usize>, AllocError>
    ensures { IfOk result (λ scopes. AreOf (find (holds offset) functions.now.items.items) scopes.items) }
{
    match functions.at(offset) {
        Some(function) => scopes_from(alloc, units, function.entry, offset),
        None => Ok(Vec::new(alloc)),
    }
}
