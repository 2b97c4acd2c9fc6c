//! Modules that aren't valid.

use crate::site::{FUNCTION, ImportNames, MEMORY, add_function, imported_functions, next_import};
use binary_wire::Reader;
use show_places::{read_places, section_of};
use show_text::Plain;
use std::alloc::{AllocError, Global};
use validate_typing::Fault;

/// Adds which rule outside its bodies a module breaks, and what to do.
pub(crate) fn add_rule(
    alloc: Global,
    out: &mut String,
    bytes: &[u8],
    kind: Fault,
) -> Result<(), AllocError> {
    write!(out, "{kind}\n")?;
    match kind {
        Fault::UnknownImport => add_imports(out, bytes),
        Fault::StartSection => add_start(alloc, out, bytes),
        _ => add_words(out, kind),
    }
}

/// Adds which rule a module breaks in a body: of the function with this index, at this instruction.
pub(crate) fn add_in_body(
    alloc: Global,
    out: &mut String,
    bytes: &[u8],
    kind: Fault,
    function: usize,
    instruction: usize,
) -> Result<(), AllocError> {
    let index = u32::try_from(function).unwrap_or(u32::MAX);
    write!(out, "instruction {instruction}")?;
    if let Some(offset) = offset_of(alloc, bytes, index, instruction) {
        write!(out, " at {offset:#x}")?;
    }
    add_function(alloc, out, bytes, index)?;
    write!(out, ": {kind}\n")
}

fn add_words(out: &mut String, kind: Fault) -> Result<(), AllocError> {
    let words = match kind {
        Fault::MoreThanOne => {
            "a module has one memory and one table at most, and a function and a block one result; \
            clang: -mno-multivalue, as c/wathread-cc has it"
        }
        Fault::SharedWithoutMaximum => {
            "a shared memory has a maximum; wasm-ld: --max-memory=16777216, or less"
        }
        Fault::ThreadEntry => {
            "threads need a shared memory, and a function with two i32 and no result, exported as wasi_thread_start"
        }
        Fault::SegmentOutside => {
            "a segment lies past the pages that the memory begins with; wasm-ld: --initial-memory=.."
        }
        Fault::Limits => "a minimum is at most its maximum, and no table is shared",
        _ => return Ok(()),
    };
    write!(out, "{words}\n")
}

/// Whether an import is one of the two that there are.
fn is_served(import: &ImportNames) -> bool {
    let ImportNames { module, name, kind } = *import;
    match kind {
        FUNCTION => module == "wasi" && name == "thread-spawn",
        MEMORY => module == "env" && name == "memory",
        _ => false,
    }
}

/// Adds the imports that there are none of.
fn add_imports(out: &mut String, bytes: &[u8]) -> Result<(), AllocError> {
    if let Some(section) = section_of(bytes, 2) {
        let mut reader = Reader::new(section.contents);
        let count = reader.read_u32().unwrap_or(0);
        for _ in 0..count {
            let Some(import) = next_import(&mut reader) else {
                break;
            };
            if !is_served(&import) {
                let (module, name) = (Plain(import.module), Plain(import.name));
                write!(out, "the module imports {module} {name}\n")?;
            }
        }
    }
    out.push_str(
        "there are two imports, each once: the memory env memory, and the function wasi thread-spawn of (i32) -> i32\n",
    )
}

fn start_in(bytes: &[u8]) -> Option<u32> {
    let section = section_of(bytes, 8)?;
    Reader::new(section.contents).read_u32().ok()
}

fn add_start(alloc: Global, out: &mut String, bytes: &[u8]) -> Result<(), AllocError> {
    out.push_str("the start section")?;
    if let Some(index) = start_in(bytes) {
        add_function(alloc, out, bytes, index)?;
    }
    out.push_str(
        "\nexport the function and invoke it; where wasm-ld made it, for the static data of a shared memory, \
        c/wathread-cc makes modules of C without it\n",
    )
}

/// What is left of a code section from the body of this number on, the first being that of the first function of the
/// module itself.
fn body_in(contents: &[u8], own: u32) -> Option<Reader<'_>> {
    let mut reader = Reader::new(contents);
    reader.read_u32().ok()?;
    for _ in 0..own {
        reader.read_bytes().ok()?;
    }
    let mut body = reader.read_block().ok()?;
    let groups = body.read_u32().ok()?;
    for _ in 0..groups {
        body.read_u32().ok()?;
        body.read_byte().ok()?;
    }
    Some(body)
}

/// The offset in the file of an instruction, by its function's index and its number in the body.
fn offset_of(alloc: Global, bytes: &[u8], function: u32, instruction: usize) -> Option<usize> {
    let code = section_of(bytes, 10)?;
    let own = function.checked_sub(imported_functions(bytes)?)?;
    let mut body = body_in(code.contents, own)?;
    let places = read_places(&mut body, alloc).ok()?;
    let place = places.get(instruction)?;
    Some(place.saturating_add(code.offset))
}
