//! One row, and what it makes of a text.

use crate::letters::push_spelled;
use std::alloc::{AllocError, Global};

/// Lines that take the place of others.
#[derive(Clone, Copy)]
pub struct Edit<'a> {
    /// The numbers of the first and the last line that are replaced, from 1 on.
    pub first: usize,
    pub last: usize,
    /// What stands there then, as it is spelled in one line; nothing where it is empty.
    pub text: &'a str,
    /// Why the text is then refused, where the row says so.
    pub why: &'a str,
}

/// The numbers that a word has, one or two with a hyphen between them.
fn span(word: &str) -> Option<(usize, usize)> {
    let (first, last) = word.split_once('-').unwrap_or((word, word));
    let first = first.parse::<usize>().ok()?;
    let last = last.parse::<usize>().ok()?;
    Some((first, last))
}

impl<'a> Edit<'a> {
    /// The edit that a row spells.
    pub fn read(row: &'a str) -> Option<Edit<'a>> {
        let (word, rest) = row.split_once(' ').unwrap_or((row, ""));
        let (first, last) = span(word)?;
        let (text, why) = match rest.strip_prefix("=> ") {
            Some(why) => ("", why),
            None => rest.split_once(" => ").unwrap_or((rest, "")),
        };
        Some(Edit {
            first,
            last,
            text,
            why,
        })
    }
}

/// The lines of a text, edited, each with a line feed at its end.
pub fn edited(alloc: Global, whole: &str, edit: Edit) -> Result<Vec<u8>, AllocError> {
    let mut text = Vec::new(alloc);
    for (place, line) in whole.lines().enumerate() {
        let number = place + 1;
        if number == edit.first && !edit.text.is_empty() {
            push_spelled(&mut text, edit.text)?;
            text.push(b'\n')?;
        }
        if number < edit.first || edit.last < number {
            text.extend_from_slice(line.as_bytes())?;
            text.push(b'\n')?;
        }
    }
    Ok(text)
}
