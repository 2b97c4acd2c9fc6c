//! A place in a module, as it is printed.

ghost use Rattle.std.specs.Fmt.{WritesOnOk};
ghost use Rattle.std.specs.Prelude.{◌≡◌, ◌++◌};
ghost use Rattle.show_spots.specs.Spots.{behind_text, is_foreign, is_reserved, name_text, source_text};

use show_places::FunctionName;
use show_text::Plain;
use std::fmt::{self, Formatter, Write};

/// A place: the function, how far the instruction is behind the start of its body, and the line of source.
#[derive(Clone, Copy, PartialEq, Eq)]
pub struct Spot<'a> {
    pub name: FunctionName<'a>,
    pub offset: Option<usize>,
    /// The file and the line in it, where they are known.
    pub source: Option<(&'a str, u64)>,
    /// What stands there, without the space around it, where the file's text is at hand.
    pub text: Option<&'a str>,
}

impl fmt::Display for Spot<'_> {
    ghost use Rattle.std.specs.Prelude.{Some};
    ghost use Rattle.show_spots.specs.Spots.{spot_text};

    ghost output = { λ s. Some (spot_text s) };

    /// As `enqueue+0x2f queue.c:20`, or `enqueue+0x2f queue.c:20 | queue->tail = next;`.
    fn fmt<W: Write>(&self, f: &mut Formatter<W>) -> fmt::Result {
        write_name(f, self.name)?;
        if let Some(offset) = self.offset {
            write!(f, "+0x{offset:x}")?;
        }
        write_source(f, self)
    }
}

/// The place of a call, as it is printed behind the place that it led to.
#[derive(Clone, Copy, PartialEq, Eq)]
pub struct CallSpot<'a>(pub Spot<'a>);

impl fmt::Display for CallSpot<'_> {
    ghost use Rattle.std.specs.Prelude.{Some};
    ghost use Rattle.show_spots.specs.Spots.{call_text};

    ghost output = { λ c. Some (call_text c.0) };

    /// As ` < transfer one.c:8`, or ` < transfer one.c:8 | mutex_lock(&one);`. A function of C's implementation, as the
    /// one that calls `main`, isn't told, and neither is the one in which a thread begins.
    fn fmt<W: Write>(&self, f: &mut Formatter<W>) -> fmt::Result {
        if is_reserved(self.0.name) {
            return Ok(());
        }
        write!(f, " < ")?;
        write_name(f, self.0.name)?;
        write_source(f, &self.0)
    }
}

/// Whether a function with this name is none of a program's own: C reserves names that begin with an underscore for its
/// implementation (ISO C, section 7.1.3), and each started thread begins in `wasi_thread_start` (wasi-threads).
fn is_foreign(name: &str) -> bool
    ensures { result ≡ is_foreign name.now }
{
    let is_underscore = match name.as_bytes().first() {
        Some(byte) => *byte == b'_',
        None => false,
    };
    is_underscore || name == "wasi_thread_start"
}

/// The same of a function that has a name.
fn is_reserved(name: FunctionName) -> bool
    ensures { result ≡ is_reserved name.entry }
{
    match name {
        FunctionName::Named(name) | FunctionName::Exported(name) => is_foreign(name),
        FunctionName::Numbered(_) => false,
    }
}

/// The file and the line, and what stands there, as far as they are known.
pub(crate) fn write_source<W: Write>(f: &mut Formatter<W>, spot: &Spot) -> fmt::Result
    ensures { WritesOnOk W.write_str_gives f.old result
        (source_text (λ file. file.now) spot.now.source ++ behind_text spot.now.text) f.new }
{
    if let Some((file, line)) = spot.source {
        let file = Plain(file);
        write!(f, " {file}:{line}")?;
    }
    if let Some(text) = spot.text {
        let text = Plain(text);
        write!(f, " | {text}")?;
    }
    Ok(())
}

fn write_name<W: Write>(f: &mut Formatter<W>, name: FunctionName) -> fmt::Result
    ensures { WritesOnOk W.write_str_gives f.old result (name_text name.entry) f.new }
{
    match name {
        FunctionName::Named(name) | FunctionName::Exported(name) => {
            let name = Plain(name);
            write!(f, "{name}")
        }
        FunctionName::Numbered(index) => write!(f, "func {index}"),
    }
}
