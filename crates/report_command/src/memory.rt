//! The file whose bytes are laid over the memory of a run before the first turn.
ghost use Rattle.std.specs.Prelude.{IfSome};
ghost use Rattle.report_command.specs.Addresses.{IsAddress};
ghost use Rattle.report_command.specs.Options.{IsMemoryFile};

use crate::places::{ValueReader, addr_in};

/// A file whose bytes are laid over the memory with which a run begins.
#[derive(Clone, Copy, PartialEq, Eq, Debug)]
pub struct MemoryFile<'a> {
    pub path: &'a str,
    /// The address of its first byte.
    pub addr: u32,
}

/// An address of a memory, as `addr_in` reads one.
fn memory_addr_in(text: &str) -> Option<u32>
    ensures { IfSome result (IsAddress text.now) }
{
    let addr = addr_in(text)?;
    u32::try_from(addr).ok()
}

/// Whether a text begins as an address does.
fn is_address(text: &str) -> bool {
    text.bytes()
        .next()
        .is_some_and(|byte| byte.is_ascii_digit())
}

/// Files that are laid over a memory: `FILE@ADDR`, or `FILE`, which begins at 0. What is behind the last `@` is an
/// address if it begins with a digit.
pub(crate) struct MemoryFileReader;

impl<'a> ValueReader<'a> for MemoryFileReader {
    type Value = MemoryFile<'a>;

    ghost reads = { IsMemoryFile };

    fn read(text: &'a str) -> Option<MemoryFile<'a>> {
        let whole = MemoryFile {
            path: text,
            addr: 0,
        };
        let Some((path, addr)) = text.rsplit_once('@') else {
            return Some(whole);
        };
        if !is_address(addr) {
            return Some(whole);
        }
        let addr = memory_addr_in(addr)?;
        Some(MemoryFile { path, addr })
    }
}
