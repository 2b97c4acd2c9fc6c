//! Bytes of a memory that is given by its changes, and changes at their places among others.

ghost use Rattle.std.specs.Prelude.{◌≡◌, ◌+◌, ◌^◌, ◌++◌, ◌<◌, ◌≤◌, filter, get_or, IfOk};
ghost use Rattle.search_memory.specs.Memories.{changed_bytes, change_to, is_below, is_since, AreFrom};

use crate::beside::ChangedByte;
use std::alloc::AllocError;

/// The byte that was opened at an address.
fn opened(opening: &[u8], at: usize) -> u8
    ensures { result ≡ get_or opening.now at 0 }
{
    if at < opening.len() { opening[at] } else { 0 }
}

/// The bytes that were opened at so many addresses from one on.
fn all_opened(opening: &[u8], from: usize, width: usize) -> [u8; 8]
    requires narrow { width ≤ 8 }
    requires few { from + width < 2 ^ 64 }
    ensures { AreFrom result width opening.now from }
{
    let mut bytes = [0; 8];
    for i in 0..width {
        bytes[i] = opened(opening, from + i);
    }
    bytes
}

/// The bytes at so many addresses from one on.
pub(crate) fn bytes_at(
    opening: &[u8],
    len: usize,
    changes: &[ChangedByte],
    from: usize,
    width: usize,
) -> [u8; 8]
    requires narrow { width ≤ 8 }
    requires inside { from + width ≤ len }
    ensures { AreFrom result width (changed_bytes opening.now len changes.now) from }
{
    let mut bytes = all_opened(opening, from, width);
    for one in changes {
        if from <= one.at && one.at - from < width {
            bytes[one.at - from] = one.byte;
        }
    }
    bytes
}

/// Puts the changes at lower addresses behind.
pub(crate) fn put_lower(
    all: &mut Vec<ChangedByte>,
    changes: &[ChangedByte],
    at: usize,
) -> Result<(), AllocError>
    ensures { IfOk result (λ u. all.new.items ≡ all.old.items ++ filter (is_below at) changes.now) }
{
    for one in changes {
        if one.at < at {
            all.push(*one)?;
        }
    }
    Ok(())
}

/// Puts a byte at an address behind, where it isn't the one that was opened there.
pub(crate) fn put_byte(
    all: &mut Vec<ChangedByte>,
    opening: &[u8],
    at: usize,
    byte: u8,
) -> Result<(), AllocError>
    ensures { IfOk result (λ u. all.new.items ≡ all.old.items ++ change_to opening.now at byte) }
{
    if byte != opened(opening, at) {
        all.push(ChangedByte { at, byte })?;
    }
    Ok(())
}

/// Puts the changes from an address on behind.
pub(crate) fn put_others(
    all: &mut Vec<ChangedByte>,
    changes: &[ChangedByte],
    from: usize,
) -> Result<(), AllocError>
    ensures { IfOk result (λ u. all.new.items ≡ all.old.items ++ filter (is_since from) changes.now) }
{
    for one in changes {
        if one.at >= from {
            all.push(*one)?;
        }
    }
    Ok(())
}
