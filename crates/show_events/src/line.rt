//! A JSON text as a line.

ghost use Rattle.std.specs.Prelude.{◌≡◌, ◌++◌, All, IfOk, OnOk};
ghost use Rattle.std.specs.Io.KnownBytes.{Appends};
ghost use Rattle.show_events.specs.Events as specified;
ghost use Rattle.show_events.specs.Events.{tame, line_text};
ghost use Rattle.show_events.specs.Lines.{IsTame, IsLine, AddsLine};

use show_text::Unwritten;
use std::alloc::{AllocError, Global};
use std::io::Write;

/// The lines' first characters: the array is opened, goes on, and is closed.
#[derive(Clone, Copy, PartialEq, Eq)]
pub(crate) enum Front {
    Open,
    Next,
    Close,
}

fn front_byte(front: Front) -> u8
    ensures tame { IsTame result }
    ensures which { result ≡ specified.front_byte front }
{
    match front {
        Front::Open => b'[',
        Front::Next => b',',
        Front::Close => b']',
    }
}

/// A JSON text as a line. It has an escape for each `<`; that is nowhere but in strings.
fn line_of(alloc: Global, front: Front, json: &str) -> Result<Vec<u8>, AllocError>
    ensures line { IfOk result (λ v. IsLine v.items) }
    ensures text { IfOk result (λ v. v.items ≡ line_text front json.now) }
{
    let mut line = Vec::with_capacity(alloc, json.len())?;
    line.push(front_byte(front))?;
    for byte in json.as_bytes() {
        push_tame(&mut line, *byte)?;
    }
    line.push(b'\n')?;
    Ok(line)
}

fn push_tame(line: &mut Vec<u8>, byte: u8) -> Result<(), AllocError>
    requires { All IsTame line.old.items }
    ensures tame { All IsTame line.new.items }
    ensures text { OnOk result (line.new.items ≡ line.old.items ++ tame byte) }
{
    match byte {
        b'<' => line.extend_from_slice(b"\\u003c")?,
        b'\n' => {}
        _ => line.push(byte)?,
    }
    Ok(())
}

/// Writes a JSON text as a line.
pub(crate) fn write_line<W: Write>(
    alloc: Global,
    out: &mut W,
    front: Front,
    json: &str,
) -> Result<(), Unwritten>
    ensures line { OnOk result (AddsLine (W.contents out.old) (W.contents out.new)) }
    ensures text { OnOk result (Appends (W.contents out.old) (W.contents out.new) (line_text front json.now)) }
{
    let line = line_of(alloc, front, json)?;
    out.write_all(&line)?;
    Ok(())
}
