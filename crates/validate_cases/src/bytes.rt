//! Bytes as the cases spell them.

use std::alloc::{AllocError, Global};
use test_cases::from_hex;

/// Adds the bytes of a word: hexadecimal digits, and behind a `*` how many times they stand there.
fn push_word(alloc: Global, word: &str, bytes: &mut Vec<u8>) -> Result<(), AllocError> {
    let (digits, times) = word.split_once('*').unwrap_or((word, "1"));
    let piece = from_hex(alloc, digits)?;
    for _ in 0..times.parse::<u32>().unwrap_or(0) {
        bytes.extend_from_slice(&piece)?;
    }
    Ok(())
}

/// Adds the bytes of the words of a text.
pub(crate) fn push_bytes(alloc: Global, text: &str, bytes: &mut Vec<u8>) -> Result<(), AllocError> {
    for word in text.split(' ') {
        push_word(alloc, word, bytes)?;
    }
    Ok(())
}
