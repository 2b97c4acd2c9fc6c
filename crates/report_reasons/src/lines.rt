//! The lines of a record, as they are told.

ghost use Rattle.std.specs.Prelude.{◌≡◌, ◌≤◌, IfOk, take};
ghost use Rattle.std.specs.String.{string_bytes};
ghost use Rattle.report_reasons.specs.Lines.{FindsLine, IsLineEnd, SaysLine};
ghost use Rattle.report_reasons.specs.Lines as specified;

use std::alloc::AllocError;
use std::fmt::{self, Formatter, Write};

/// Where the first line of a text ends: at its first line feed, or behind all of it.
fn line_end(text: &[u8]) -> usize
    ensures { IsLineEnd text.now result }
{
    let mut end = 0;
    while end < text.len() && text[end] != b'\n' {
        end += 1;
    }
    end
}

/// The line of a text with this number, from 1 on, without its line feed; nothing where the text has fewer.
fn line_of(text: &[u8], number: usize) -> Option<&[u8]>
    ensures { 1 ≤ number → FindsLine text.now number result }
{
    let mut rest = text;
    for _ in 1..number {
        let end = line_end(rest);
        if end == rest.len() {
            return None;
        }
        rest = rest.split_at(end + 1).1;
    }
    Some(&rest[..line_end(rest)])
}

fn shown_char(byte: u8) -> char
    ensures { result ≡ specified.shown_char byte }
{
    let c = char::from(byte);
    if c.is_ascii() && !c.is_control() {
        c
    } else {
        '?'
    }
}

/// Bytes as they are shown: `?` for each that is no printable character of ASCII.
#[derive(Clone, Copy)]
struct ShownBytes<'a>(&'a [u8]);

impl fmt::Display for ShownBytes<'_> {
    ghost use Rattle.std.specs.Prelude.{Some};
    ghost use Rattle.report_reasons.specs.Lines.{shown_bytes};

    ghost output = { λ l. Some (shown_bytes l.0.now) };

    fn fmt<W: Write>(&self, f: &mut Formatter<W>) -> fmt::Result {
        for byte in self.0 {
            f.write_char(shown_char(*byte))?;
        }
        Ok(())
    }
}

/// What stands before a line: `t` before the number of a thread.
fn front_of(line: &[u8]) -> &'static str
    ensures { result.now ≡ specified.front_of line.now }
{
    match line {
        [b'0'..=b'9', ..] => "t",
        _ => "",
    }
}

/// The first 200 bytes of a line, or all of it.
fn cut(line: &[u8]) -> &[u8]
    ensures { result.now ≡ take 200 line.now }
{
    &line[..usize::min(200, line.len())]
}

/// Adds a line of a record, by its number, from 1 on, as it is called there.
pub(crate) fn add_line(out: &mut String, saved: &[u8], number: usize) -> Result<(), AllocError>
    ensures { 1 ≤ number → IfOk result (λ _. SaysLine saved.now number (string_bytes out.old) (string_bytes out.new)) }
{
    let Some(line) = line_of(saved, number) else {
        return Ok(());
    };
    let front = front_of(line);
    let shown = ShownBytes(cut(line));
    write!(out, "line {number}: the record has {front}{shown}\n")
}
