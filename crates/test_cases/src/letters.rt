//! Letters that a row of one line can't have.

use std::alloc::AllocError;

/// Adds a text, in which `\n` is a line feed and `\r` a carriage return.
pub(crate) fn push_spelled(text: &mut Vec<u8>, spelled: &str) -> Result<(), AllocError> {
    let mut is_behind = false;
    for letter in spelled.bytes() {
        match (is_behind, letter) {
            (false, b'\\') => {
                is_behind = true;
                continue;
            }
            (false, _) => text.push(letter)?,
            (true, b'n') => text.push(b'\n')?,
            (true, b'r') => text.push(b'\r')?,
            (true, _) => text.extend_from_slice(&[b'\\', letter])?,
        }
        is_behind = false;
    }
    Ok(())
}
