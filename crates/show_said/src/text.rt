//! A line as it is printed.

ghost use Rattle.std.specs.Prelude.{◌≡◌, ◌<◌, IfOk, MatchOption, map, true, false};
ghost use Rattle.std.specs.Str.{is_utf8};
ghost use Rattle.std.specs.String.{string_bytes};
ghost use Rattle.show_text.specs.Plain.{plain_text};
ghost use Rattle.show_said.specs.Lines as specified;
ghost use Rattle.show_said.specs.Lines.{line_text};

use show_text::Plain;
use std::alloc::{AllocError, Global};
use types::Name;

/// A byte of a text that isn't UTF-8, as it is printed.
fn plain_byte(byte: u8) -> u8
    ensures is { result ≡ specified.plain_byte byte }
    ensures ascii { result < 128 }
{
    match byte {
        b'\t' => b' ',
        32..=126 => byte,
        _ => b'?',
    }
}

/// A line that isn't UTF-8, as it is printed.
fn text_of_bytes(alloc: Global, line: &[u8]) -> Result<String, AllocError>
    ensures { IfOk result (λ text. string_bytes text ≡ map specified.plain_byte line.now) }
{
    let mut text = String::new(alloc);
    for byte in line {
        text.push(plain_byte(*byte) as char)?;
    }
    Ok(text)
}

/// A line that is UTF-8, as it is printed.
fn text_of_chars(alloc: Global, line: &str) -> Result<String, AllocError>
    ensures { IfOk result (λ text. string_bytes text ≡ plain_text line.now) }
{
    let plain = Plain(line);
    format!(in alloc; "{plain}")
}

/// A line as a text, where it is UTF-8.
fn as_text(line: &[u8]) -> Option<&str>
    ensures { MatchOption result (is_utf8 line.now ≡ false)
        (λ text. (text.now ≡ line.now) × (is_utf8 line.now ≡ true)) }
{
    match std::str::from_utf8(line) {
        Ok(text) => Some(text),
        Err(_) => None,
    }
}

/// A line as it is printed: without its control characters.
pub(crate) fn text_of(alloc: Global, line: &[u8]) -> Result<Name, AllocError>
    ensures { IfOk result (λ text. text ≡ line_text line.now) }
{
    let text = match as_text(line) {
        Some(text) => text_of_chars(alloc, text)?,
        None => text_of_bytes(alloc, line)?,
    };
    Ok(Name::from_string(text))
}
