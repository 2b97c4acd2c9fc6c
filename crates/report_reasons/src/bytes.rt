//! Bytes that are no module's text.

use crate::opcodes::{Unserved, float, unknown, unknown_section};
use crate::site::{add_site, section_around};
use binary_wire::Fault;
use std::alloc::{AllocError, Global};

/// How many bytes are looked at to know a text.
const FRONT: usize = 64;

/// Adds why bytes can't be read as a module, by the fault and its offset, and what to do.
pub(crate) fn add_reading(
    alloc: Global,
    out: &mut String,
    bytes: &[u8],
    kind: Fault,
    offset: usize,
) -> Result<(), AllocError> {
    if offset < 8 {
        return add_front(out, bytes);
    }
    add_byte(out, bytes, kind, offset)?;
    add_site(alloc, out, bytes, offset)?;
    write!(out, ": {kind}\n")?;
    add_hint(out, bytes, kind, offset)
}

fn is_text(bytes: &[u8]) -> bool {
    let front = bytes.get(..FRONT).unwrap_or(bytes);
    !front.is_empty()
        && front.iter().all(|byte| matches!(*byte, b'\t' | b'\n' | b'\r' | 0x20..=0x7e))
}

/// What a file is whose first eight bytes aren't those of a module.
fn add_front(out: &mut String, bytes: &[u8]) -> Result<(), AllocError> {
    let words = if bytes.is_empty() {
        "the file is empty"
    } else if is_text(bytes) {
        "the file is a text, and no module: `wat2wasm` makes one of the text format, `wathread-cc` of C"
    } else if bytes.starts_with(b"\x7fELF") {
        "the file is a program or an object for this machine; clang: --target=wasm32"
    } else if bytes.starts_with(b"\x00asm\x0d\x00\x01\x00") {
        "the file is a component, and no module"
    } else {
        "a module begins with the bytes 00 61 73 6d 01 00 00 00"
    };
    write!(out, "{words}\n")
}

fn byte_at(bytes: &[u8], offset: usize) -> Option<u8> {
    bytes.get(offset).copied()
}

/// What the byte at an offset is, where it isn't served.
fn unserved_at(bytes: &[u8], kind: Fault, offset: usize) -> Option<Unserved> {
    let byte = byte_at(bytes, offset)?;
    let section = section_around(bytes, offset)?;
    if kind == Fault::Float {
        return Some(float(byte));
    }
    if kind != Fault::UnknownByte {
        return None;
    }
    if offset < section.offset {
        return unknown_section(byte);
    }
    if section.id == 10 {
        return unknown(byte, byte_at(bytes, offset.saturating_add(1)));
    }
    None
}

/// Adds the byte at an offset, with the one behind it where it is a prefix, and what it is.
fn add_byte(out: &mut String, bytes: &[u8], kind: Fault, offset: usize) -> Result<(), AllocError> {
    let Some(byte) = byte_at(bytes, offset) else {
        return Ok(());
    };
    write!(out, "byte {byte:02x}")?;
    if byte >= 0xfb
        && let Some(next) = byte_at(bytes, offset.saturating_add(1))
    {
        write!(out, " {next:02x}")?;
    }
    if let Some(unserved) = unserved_at(bytes, kind, offset) {
        let name = unserved.name;
        write!(out, " ({name})")?;
    }
    out.push_str(" ")
}

fn add_hint(out: &mut String, bytes: &[u8], kind: Fault, offset: usize) -> Result<(), AllocError> {
    if let Some(unserved) = unserved_at(bytes, kind, offset) {
        let hint = unserved.hint;
        return write!(out, "{hint}\n");
    }
    let section = section_around(bytes, offset).map(|section| section.id);
    let words = match (kind, section) {
        (Fault::Limit, Some(2 | 5)) => {
            "a memory has 256 pages at most; wasm-ld: --max-memory=16777216, or less"
        }
        (Fault::Limit, Some(10)) => {
            "a body has 65,536 bytes at most, 1,000 locals, and 255 blocks in one another; \
            clang: -O1 makes fewer locals than -O0"
        }
        (Fault::Limit, _) if bytes.len() > 1_048_576 => {
            "a module has 1,048,576 bytes at most; wasm-ld: --strip-debug, and `show --names` takes the lines from the other build"
        }
        (Fault::LimitsFlag, _) if byte_at(bytes, offset) == Some(2) => {
            "a shared memory has a maximum; wasm-ld: --max-memory=16777216, or less"
        }
        (Fault::LimitsFlag, _) => "a memory has 32-bit addresses",
        (Fault::Size | Fault::EndOfInput, _) => "the file may be cut",
        _ => return Ok(()),
    };
    write!(out, "{words}\n")
}
