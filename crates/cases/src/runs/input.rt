//! What a case has its command lines read.

use dwarf_lines::SourceFile;
use std::alloc::{AllocError, Global};
use test_cases::{Case, Stop, from_hex, read_file};
use test_modules::{I32, I64, PLAIN, SHARED, Small};

/// The bytes that a key's digits spell.
fn hex_of(alloc: Global, case: &Case, key: &str) -> Result<Vec<u8>, AllocError> {
    let digits = case.text(alloc, key)?;
    from_hex(alloc, str::from_utf8(&digits).unwrap_or(""))
}

/// The module of a function with this code.
fn small(alloc: Global, case: &Case) -> Result<Vec<u8>, AllocError> {
    let body = hex_of(alloc, case, "body")?;
    let spelled = hex_of(alloc, case, "memory")?;
    let output = match case.get("gives") {
        Some("nothing") => b"".as_slice(),
        Some("i64") => I64,
        _ => I32,
    };
    let memory = match case.get("memory") {
        None | Some("shared") => SHARED,
        Some("plain") => PLAIN,
        Some("none") => b"".as_slice(),
        Some(_) => spelled.as_slice(),
    };
    Small {
        output,
        memory,
        body: &body,
    }
    .bytes(alloc)
}

/// The bytes of a case's module.
pub(crate) fn module_of(rt: &HostRuntime, case: &Case) -> Result<Vec<u8>, Stop> {
    if let Some(file) = case.get("module") {
        return read_file(rt, file);
    }
    if case.get("body").is_some() {
        return Ok(small(rt.alloc(), case)?);
    }
    Ok(hex_of(rt.alloc(), case, "hex")?)
}

/// The text of the record that a case has read.
pub(crate) fn saved_of(rt: &HostRuntime, case: &Case) -> Result<Vec<u8>, Stop> {
    if let Some(file) = case.get("saved-file") {
        return read_file(rt, file);
    }
    let mut text = case.text(rt.alloc(), "saved")?;
    text.extend_from_slice(case.get("saved-rest").unwrap_or("").as_bytes())?;
    Ok(text)
}

/// The bytes of the file that names are taken from, or none.
pub(crate) fn names_of(rt: &HostRuntime, case: &Case) -> Result<Vec<u8>, Stop> {
    match case.get("names") {
        Some(file) => read_file(rt, file),
        None => Ok(Vec::new(rt.alloc())),
    }
}

/// The file of source that a case has shown, as the debug information of its module names it, or none.
pub(crate) fn sources_of(rt: &HostRuntime, case: &Case) -> Result<Vec<SourceFile>, Stop> {
    let alloc = rt.alloc();
    let mut files = Vec::new(alloc);
    if let Some(name) = case.get("source") {
        let text = read_file(rt, name)?;
        let file = SourceFile {
            directory: String::new(alloc),
            name: String::from_str(alloc, name)?,
            text: String::from_utf8(text).unwrap_or(String::new(alloc)),
        };
        if let Err(refused) = files.push(file) {
            return Err(AllocError::from(refused).into());
        }
    }
    Ok(files)
}
