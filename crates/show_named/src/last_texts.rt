//! The last entry that did something, as text.
ghost use Rattle.std.specs.Prelude.{◌≡◌, IfOk, OnOk, string_bytes};
ghost use Rattle.show_named.specs.declared.lasts.Act.TheVariants as acts;
ghost use Rattle.show_named.specs.LastTexts.{SaysLast, SaysPlace, WritesLast, unwritten_text};

use crate::data_map::DataMap;
use crate::lasts::SoughtWrite;
use crate::rows::named_text;
use selection::NumberSpan;
use show_rows::{Shown, Story};
use show_text::Unwritten;
use std::alloc::{AllocError, Global};
use std::fmt::{self, Formatter};
use std::io::Write;

/// The words of the last entry that is sought, or these where none writes there.
fn last_text(
    alloc: Global,
    shown: Shown,
    map: &DataMap,
    story: &Story,
    sought: SoughtWrite,
    none: &str,
) -> Result<String, AllocError>
    ensures { IfOk result (λ text. SaysLast shown.entry map.now story.now sought.before (acts.Write sought.addrs) none.now
        (string_bytes text)) }
{
    let place = sought.place_in(shown.record.log.as_slice());
    told_text(alloc, shown, map, story, place, none)
}

/// The words of the entry at this place of the log, or these where there is none.
///
/// # Errors
/// Where memory is refused.
pub fn told_text(
    alloc: Global,
    shown: Shown,
    map: &DataMap,
    story: &Story,
    place: Option<usize>,
    none: &str,
) -> Result<String, AllocError>
    ensures { IfOk result (λ text. SaysPlace shown.entry map.now story.now none.now place (string_bytes text)) }
{
    match place {
        Some(at) if at < shown.record.log.len() => named_text(alloc, shown, map, story, at),
        _ => none.to_string(alloc),
    }
}

/// Addresses: one, or the first and the last.
#[derive(Clone, Copy)]
struct Addresses(NumberSpan);

impl fmt::Display for Addresses {
    ghost use Rattle.std.specs.Prelude.{Some};
    ghost use Rattle.show_named.specs.LastTexts.{addresses_text};

    ghost output = { λ a. Some (addresses_text a.0) };

    fn fmt<W: fmt::Write>(&self, f: &mut Formatter<W>) -> fmt::Result {
        let NumberSpan { first, last } = self.0;
        if first == last {
            write!(f, "{first}")
        } else {
            write!(f, "{first} to {last}")
        }
    }
}

/// What is said where none writes there.
fn unwritten(alloc: Global, addrs: NumberSpan) -> Result<String, AllocError>
    ensures { IfOk result (λ text. string_bytes text ≡ unwritten_text addrs) }
{
    let addresses = Addresses(addrs);
    let text = format!(in alloc;
        "nobody writes to {addresses} before that: the module has these bytes, or they are zeros"
    )?;
    Ok(text)
}

/// Writes the words of the last entry that is sought, or that no entry writes there.
///
/// # Errors
/// Where memory is refused, or the stream fails.
pub fn write_last<W: Write>(
    alloc: Global,
    shown: Shown,
    map: &DataMap,
    story: &Story,
    sought: SoughtWrite,
    out: &mut W,
) -> Result<(), Unwritten>
    ensures { OnOk result (WritesLast shown.entry map.now story.now sought (W.contents out.old) (W.contents out.new)) }
{
    let none = unwritten(alloc, sought.addrs)?;
    let text = last_text(alloc, shown, map, story, sought, none.as_str())?;
    write!(out, "{text}\n")?;
    out.flush()?;
    Ok(())
}
