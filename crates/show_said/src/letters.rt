//! Letters, and the lines that they make.

ghost use Rattle.std.specs.Prelude.{◌≡◌, ◌≢◌, ◌∷◌, ◌++◌, [], OnOk};
ghost use Rattle.std.specs.List.{filter};
ghost use Rattle.show_said.specs.Lines.{is_letter, letters_of, word_letters, some_line};
ghost use Rattle.show_said.specs.Said.{items};
ghost use Rattle.show_said.specs.Hears.{Hears};

use crate::said::Said;
use crate::text::text_of;
use std::alloc::{AllocError, Global};

/// Who says something, and the line of the entry with which it does.
#[derive(Clone, Copy)]
pub(crate) struct Voice {
    pub thread: usize,
    pub line: u64,
}

/// Tells a line.
fn tell(alloc: Global, voice: Voice, text: &[u8], said: &mut Vec<Said>) -> Result<(), AllocError>
    ensures { OnOk result (said.new.items ≡ said.old.items ++ items voice.thread voice.line (text.now ∷ [])) }
{
    let text = text_of(alloc, text)?;
    said.push(Said {
        thread: voice.thread,
        line: voice.line,
        text,
    })?;
    Ok(())
}

/// Tells a line that has a letter, and no other.
pub(crate) fn tell_some(
    alloc: Global,
    voice: Voice,
    text: &[u8],
    said: &mut Vec<Said>,
) -> Result<(), AllocError>
    ensures { OnOk result (said.new.items ≡ said.old.items ++ items voice.thread voice.line (some_line text.now)) }
{
    if text.is_empty() {
        return Ok(());
    }
    tell(alloc, voice, text, said)
}

/// Hears one letter more.
fn hear_letter(
    alloc: Global,
    voice: Voice,
    letter: u8,
    line: &mut Vec<u8>,
    said: &mut Vec<Said>,
) -> Result<(), AllocError>
    requires { letter ≢ 0 }
    ensures { OnOk result (Hears voice (letter ∷ []) line.old.items said.old.items line.new.items said.new.items) }
{
    if letter == b'\n' {
        tell(alloc, voice, line, said)?;
        line.clear();
        return Ok(());
    }
    line.push(letter)?;
    Ok(())
}

/// Hears a byte, which is a letter where it isn't 0.
fn hear_byte(
    alloc: Global,
    voice: Voice,
    byte: u8,
    line: &mut Vec<u8>,
    said: &mut Vec<Said>,
) -> Result<(), AllocError>
    ensures { OnOk result
        (Hears voice (filter is_letter (byte ∷ [])) line.old.items said.old.items line.new.items said.new.items) }
{
    if byte == 0 {
        return Ok(());
    }
    hear_letter(alloc, voice, byte, line, said)
}

/// Hears the letters of a number.
fn hear_word(
    alloc: Global,
    voice: Voice,
    value: u64,
    line: &mut Vec<u8>,
    said: &mut Vec<Said>,
) -> Result<(), AllocError>
    ensures { OnOk result
        (Hears voice (word_letters value) line.old.items said.old.items line.new.items said.new.items) }
{
    let bytes = value.to_le_bytes();
    for byte in &bytes {
        hear_byte(alloc, voice, *byte, line, said)?;
    }
    Ok(())
}

/// Hears what a number says.
pub(crate) fn hear(
    alloc: Global,
    voice: Voice,
    value: u64,
    line: &mut Vec<u8>,
    said: &mut Vec<Said>,
) -> Result<(), AllocError>
    ensures { OnOk result (Hears voice (letters_of value) line.old.items said.old.items line.new.items said.new.items) }
{
    if value == 0 {
        tell_some(alloc, voice, line, said)?;
        line.clear();
        return Ok(());
    }
    hear_word(alloc, voice, value, line, said)
}
