//! The kinds of cases, by the keys of their bytes.

use crate::bodies::{Around, Asked, write_body};
use crate::bytes::push_bytes;
use crate::code::{write_code, write_length};
use crate::contents::write_contents;
use crate::modules::write_answer;
use crate::operands::write_operands;
use crate::portraits::write_portrait;
use crate::sections::{write_fronts, write_input, write_s32, write_s64, write_sections, write_u32};
use std::alloc::{AllocError, Global};
use test_cases::Case;

/// What is asked of the bytes behind a key.
#[derive(Clone, Copy)]
enum Kind {
    /// Whether they are read as a module.
    Input,
    /// The same of the sections of a module, without its opening.
    Sections,
    /// The same of each of their fronts.
    Fronts,
    /// What the sections of a module have.
    Contents,
    /// The number at their front.
    U32,
    S32,
    S64,
    /// The instructions that they spell.
    Code,
    /// How many these are.
    Length,
    /// Whether they are a valid module.
    Module,
    /// What a valid module tells of itself.
    Portrait,
    /// The types of its locals and operands.
    Operands,
    /// Whether they are the code of a valid body, or where its branches lead.
    Body(Around, Asked),
}

static KINDS: [(&str, Kind); 17] = [
    ("input", Kind::Input),
    ("sections", Kind::Sections),
    ("fronts", Kind::Fronts),
    ("contents", Kind::Contents),
    ("u32", Kind::U32),
    ("s32", Kind::S32),
    ("s64", Kind::S64),
    ("code", Kind::Code),
    ("length", Kind::Length),
    ("module", Kind::Module),
    ("portrait", Kind::Portrait),
    ("operands", Kind::Operands),
    ("body", Kind::Body(Around::Everything, Asked::Validity)),
    ("alone", Kind::Body(Around::Functions, Asked::Validity)),
    ("crowded", Kind::Body(Around::ManyLocals, Asked::Validity)),
    ("branches", Kind::Body(Around::Functions, Asked::Branches)),
    ("late", Kind::Body(Around::Functions, Asked::LateBranches)),
];

/// Writes what is said of bytes.
fn tell_bytes(
    alloc: Global,
    kind: Kind,
    bytes: &[u8],
    given: &mut String,
) -> Result<(), AllocError> {
    match kind {
        Kind::Input => write_input(alloc, bytes, given),
        Kind::Sections => write_sections(alloc, bytes, given),
        Kind::Fronts => write_fronts(alloc, bytes, given),
        Kind::Contents => write_contents(alloc, bytes, given),
        Kind::U32 => write_u32(bytes, given),
        Kind::S32 => write_s32(bytes, given),
        Kind::S64 => write_s64(bytes, given),
        Kind::Code => write_code(alloc, bytes, given),
        Kind::Length => write_length(alloc, bytes, given),
        Kind::Module => write_answer(alloc, bytes, given),
        Kind::Portrait => write_portrait(alloc, bytes, given),
        Kind::Operands => write_operands(alloc, bytes, given),
        Kind::Body(around, asked) => write_body(alloc, bytes, around, asked, given),
    }
}

/// Writes what is said of the bytes that a text spells.
fn tell_text(alloc: Global, kind: Kind, text: &str, given: &mut String) -> Result<(), AllocError> {
    let mut bytes = Vec::new(alloc);
    push_bytes(alloc, text, &mut bytes)?;
    tell_bytes(alloc, kind, &bytes, given)
}

/// Writes what is said of the bytes of a case.
pub fn tell(alloc: Global, case: Case, given: &mut String) -> Result<(), AllocError> {
    for (key, kind) in &KINDS {
        let texts = case.all(alloc, key)?;
        for text in &texts {
            tell_text(alloc, *kind, text, given)?;
        }
    }
    Ok(())
}
