//! How many entries a module's library makes, as the module tells.

ghost use Rattle.std.specs.Prelude.{◌≡◌, ◌≤◌};
ghost use Rattle.show_said.specs.Factor as specified;
ghost use Rattle.show_said.specs.Factor.{IsEntryFactor};

use crate::declared::behind_version;
use binary_wire::Reader;
use show_places::custom_section;

/// That in the contents of the section.
fn factor_in(contents: &[u8]) -> u32
    ensures factor { result ≡ specified.factor_in contents.now }
    ensures least { 1 ≤ result }
{
    let Some(number) = behind_version(contents) else {
        return 1;
    };
    match Reader::new(number).read_u32() {
        Ok(factor) => factor.max(1),
        Err(_) => 1,
    }
}

/// How many entries of a run the module takes where its program alone would make one, 1 to 4,294,967,295: by its first custom
/// section `wathread.entries`, behind a byte 1 a number; and 1 where it has no such section or that can't be read.
pub fn entry_factor(bytes: &[u8]) -> u32
    ensures factor { IsEntryFactor bytes.now result }
    ensures least { 1 ≤ result }
{
    match custom_section(bytes, b"wathread.entries") {
        Some(contents) => factor_in(contents),
        None => 1,
    }
}
