//! Bytes as hexadecimal digits.

use std::alloc::{AllocError, Global};

fn digit(letter: char) -> Option<u8> {
    match letter {
        '0'..='9' => Some((letter as u8).wrapping_sub(b'0')),
        'a'..='f' => Some((letter as u8).wrapping_sub(b'a').wrapping_add(10)),
        _ => None,
    }
}

/// The bytes that pairs of digits spell, in small letters; what is no digit, as spaces and line feeds, is passed over,
/// and so is a last digit without another one.
pub fn from_hex(alloc: Global, text: &str) -> Result<Vec<u8>, AllocError> {
    let mut bytes = Vec::new(alloc);
    let mut first = None;
    for letter in text.chars() {
        let Some(value) = digit(letter) else {
            continue;
        };
        first = match first {
            None => Some(value),
            Some(high) => {
                bytes.push(high << 4 | value)?;
                None
            }
        };
    }
    Ok(bytes)
}
