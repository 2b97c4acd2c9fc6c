//! Parameters and locals.

use crate::kinds::{ValueKind, kind_of};
use crate::scopes::scopes_at;
use crate::wording::type_words;
use dwarf_data::size_of;
use dwarf_units::{Base, Location, Spans, Tag, Units};
use std::alloc::{AllocError, Global};

/// A parameter or a local of a function.
#[derive(Drop)]
pub struct Variable<'a> {
    pub name: &'a str,
    pub is_parameter: bool,
    /// How many calls lead from the function whose frame it is to its own, which was put in the place of a call: 0 of
    /// the function itself.
    pub depth: usize,
    pub its_type: usize,
    /// As C writes it.
    pub type_words: String,
    /// In bytes.
    pub size: u64,
    pub kind: ValueKind,
    pub location: Location,
}

/// Where a scope is: how many calls lead to it, and the base of the function's frames.
#[derive(Clone, Copy)]
struct VariableScope {
    entry: usize,
    depth: usize,
    frame: Option<Base>,
}

/// What the entry of a variable in a scope says of it, where it says all while the code at an offset runs.
fn variable_of<'a>(
    alloc: Global,
    units: &Units<'a>,
    scope: VariableScope,
    entry: usize,
    offset: u64,
) -> Result<Option<Variable<'a>>, AllocError> {
    let location = units
        .place_at(entry, offset)
        .and_then(|place| units.location(entry, place, scope.frame));
    let (Some(name), Some(its_type), Some(location)) = (
        units.name(entry),
        units.type_of(entry),
        location,
    ) else {
        return Ok(None);
    };
    let (Some(size), Some(type_words)) = (
        size_of(alloc, units, its_type)?,
        type_words(alloc, units, Some(its_type))?,
    ) else {
        return Ok(None);
    };
    Ok(Some(Variable {
        name,
        is_parameter: units.tag(entry) == Tag::FormalParameter,
        depth: scope.depth,
        its_type,
        type_words,
        size,
        kind: kind_of(units, its_type),
        location,
    }))
}

/// The scopes at an offset, the innermost first.
fn scopes(
    alloc: Global,
    units: &Units,
    functions: &Spans,
    offset: u64,
) -> Result<Vec<VariableScope>, AllocError> {
    let mut scopes = Vec::new(alloc);
    let mut depth = 0usize;
    let mut frame = None;
    for entry in &scopes_at(alloc, units, functions, offset)? {
        match units.tag(*entry) {
            Tag::Subprogram => frame = units.frame_base(*entry),
            Tag::InlinedSubroutine => depth = depth.saturating_add(1),
            _ => {}
        }
        scopes.push(VariableScope {
            entry: *entry,
            depth,
            frame,
        })?;
    }
    Ok(scopes)
}

/// The most variables that are looked at.
const MOST_VARIABLES: usize = 256;

/// The most bytes of a variable's name.
const MOST_NAME: usize = 256;

/// The names that stand in front of others, each with the depth of its function.
#[derive(Drop)]
struct SeenNames<'a> {
    all: Vec<(&'a str, usize)>,
}

impl<'a> SeenNames<'a> {
    /// Notes the name of an entry, if it is one of a variable and not more were noted than are looked at. Answers whether
    /// no other of its function hides it.
    fn note(&mut self, units: &Units<'a>, entry: usize, depth: usize) -> Result<bool, AllocError> {
        let is_variable = matches!(units.tag(entry), Tag::FormalParameter | Tag::Variable);
        if !is_variable || self.all.len() >= MOST_VARIABLES {
            return Ok(false);
        }
        let Some(name) = units.name(entry) else {
            return Ok(false);
        };
        if name.len() > MOST_NAME {
            return Ok(false);
        }
        let is_hidden = self.all.contains(&(name, depth));
        self.all.push((name, depth))?;
        Ok(!is_hidden)
    }
}

/// The parameters and locals in scope at an offset of the code that have a place while it runs, those of the innermost
/// scope first. One of a name hides those of the same name behind it in its own function, also where it has no place. Of
/// more than are looked at the further ones are left out, and those with longer names.
pub fn variables_at<'a>(
    alloc: Global,
    units: &Units<'a>,
    functions: &Spans,
    offset: u64,
) -> Result<Vec<Variable<'a>>, AllocError> {
    let mut variables = Vec::new(alloc);
    let mut seen = SeenNames {
        all: Vec::new(alloc),
    };
    for scope in scopes(alloc, units, functions, offset)?.iter().rev() {
        for entry in &units.children(alloc, scope.entry, units.len())? {
            if seen.note(units, *entry, scope.depth)?
                && let Some(variable) = variable_of(alloc, units, *scope, *entry, offset)?
            {
                variables.push(variable)?;
            }
        }
    }
    Ok(variables)
}
