//! An open function.

ghost use Rattle.std.specs.Prelude.{◌≡◌, IfOk, flat_map, string_bytes};
ghost use Rattle.show_told.specs.Values as values;
ghost use Rattle.show_told.specs.Functions as specified;

use crate::values::{ToldValue, TypedWord};
use dwarf_frames::Chain;
use show_spots::{Around, Spot};
use show_text::Plain;
use std::alloc::{AllocError, Global};
use std::fmt::{self, Formatter};

/// An open function, as it is told.
#[derive(Drop)]
pub struct ToldFunction<'a> {
    /// Where it is.
    pub spot: Spot<'a>,
    /// The calls whose functions were put in their places there.
    pub chain: Option<Chain>,
    /// Its locals and its operands, the top of the stack last; none where they aren't to be listed.
    pub locals: Vec<TypedWord>,
    pub operands: Vec<TypedWord>,
    /// The lines of source around it, as far as they are at hand.
    pub around: Around<'a>,
    /// The values of its variables, the innermost block's first.
    pub values: Vec<ToldValue>,
}

/// A place in the code, with the calls whose functions were put in their places there.
#[derive(Clone, Copy)]
struct ChainedSpot<'a> {
    spot: Spot<'a>,
    chain: Option<&'a Chain>,
}

impl fmt::Display for ChainedSpot<'_> {
    ghost use Rattle.std.specs.Prelude.{Some};
    ghost use Rattle.show_told.specs.Functions.{chained_spot_text};

    ghost output = { λ s. Some (chained_spot_text s) };

    /// As `body+0x38a lock queue.c:31 < take queue.c:88 < body queue.c:120`.
    fn fmt<W: fmt::Write>(&self, f: &mut Formatter<W>) -> fmt::Result {
        let Spot {
            name,
            offset,
            source,
            text: _,
        } = self.spot;
        let Some(chain) = self.chain else {
            let whole = Spot {
                text: None,
                ..self.spot
            };
            return write!(f, "{whole}");
        };
        let front = Spot {
            name,
            offset,
            source: None,
            text: None,
        };
        let (innermost, calls) = (Plain(chain.innermost.as_str()), Plain(chain.calls.as_str()));
        write!(f, "{front} {innermost}")?;
        if let Some((file, line)) = source {
            let file = Plain(file);
            write!(f, " {file}:{line}")?;
        }
        write!(f, "{calls}")
    }
}

/// Words behind a name, if there are any.
fn listed_text(alloc: Global, name: &str, words: &[TypedWord]) -> Result<String, AllocError>
    ensures { IfOk result (λ text. string_bytes text ≡ specified.listed_text name.now words.now) }
{
    let mut text = String::new(alloc);
    if words.is_empty() {
        return Ok(text);
    }
    write!(text, "  {name}")?;
    for place in 0..words.len() {
        let word = words[place];
        write!(text, " {word}")?;
    }
    Ok(text)
}

/// Values, one behind the other.
fn values_text(alloc: Global, told: &[ToldValue]) -> Result<String, AllocError>
    ensures { IfOk result (λ text. string_bytes text ≡ flat_map values.value_text told.now) }
{
    let mut text = String::new(alloc);
    for place in 0..told.len() {
        let value = &told[place];
        write!(text, "{value}")?;
    }
    Ok(text)
}

/// A function: where it is, its words, the lines of source around it, and its values.
fn function_text(alloc: Global, told: &ToldFunction) -> Result<String, AllocError>
    ensures { IfOk result (λ text. string_bytes text ≡ specified.function_text told.now) }
{
    let spot = ChainedSpot {
        spot: told.spot,
        chain: told.chain.as_ref(),
    };
    let locals = listed_text(alloc, "locals", told.locals.as_slice())?;
    let operands = listed_text(alloc, "operands", told.operands.as_slice())?;
    let around = told.around;
    let values = values_text(alloc, told.values.as_slice())?;
    let text = format!(in alloc; "    {spot}{locals}{operands}\n{around}{values}")?;
    Ok(text)
}

/// Functions, one behind the other.
///
/// # Errors
/// Where memory is refused.
pub fn functions_text(alloc: Global, told: &[ToldFunction]) -> Result<String, AllocError>
    ensures { IfOk result (λ text. string_bytes text ≡ flat_map specified.function_text told.now) }
{
    let mut text = String::new(alloc);
    for place in 0..told.len() {
        let function = function_text(alloc, &told[place])?;
        text.push_str(function.as_str())?;
    }
    Ok(text)
}
