//! One case, and all cases of a text.

use std::alloc::{AllocError, Global};

/// A title, and the lines below it.
#[derive(Clone, Copy)]
pub struct Case<'a> {
    pub title: &'a str,
    lines: &'a str,
}

/// What a line has behind its key and a space, if it is a line of this key.
fn behind<'a>(line: &'a str, key: &str) -> Option<&'a str> {
    match line.split_once(' ') {
        Some((word, rest)) if word == key => Some(rest),
        None if line == key => Some(""),
        _ => None,
    }
}

impl<'a> Case<'a> {
    /// What the first line of this key has, if there is one.
    pub fn get(&self, key: &str) -> Option<&'a str> {
        for line in self.lines.lines() {
            let found = behind(line, key);
            if found.is_some() {
                return found;
            }
        }
        None
    }

    /// What each line of this key has, in their order.
    pub fn all(&self, alloc: Global, key: &str) -> Result<Vec<&'a str>, AllocError> {
        let mut found = Vec::new(alloc);
        for line in self.lines.lines() {
            if let Some(rest) = behind(line, key) {
                found.push(rest)?;
            }
        }
        Ok(found)
    }

    /// The lines of this key as one text, each with a line feed at its end.
    pub fn text(&self, alloc: Global, key: &str) -> Result<Vec<u8>, AllocError> {
        let mut text = Vec::new(alloc);
        for line in self.lines.lines() {
            if let Some(rest) = behind(line, key) {
                text.extend_from_slice(rest.as_bytes())?;
                text.push(b'\n')?;
            }
        }
        Ok(text)
    }
}

/// The cases of a text, in their order.
pub fn cases<'a>(alloc: Global, text: &'a str) -> Result<Vec<Case<'a>>, AllocError> {
    let mut found = Vec::new(alloc);
    for piece in text.split("\n== ").skip(1) {
        let (title, lines) = piece.split_once('\n').unwrap_or((piece, ""));
        found.push(Case { title, lines })?;
    }
    Ok(found)
}
