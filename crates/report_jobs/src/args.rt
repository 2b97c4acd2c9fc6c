//! The arguments of a run, as they are written.
ghost use Rattle.std.specs.Prelude.{IfOk};
ghost use Rattle.std.specs.Option.{MatchOption};
ghost use Rattle.report_jobs.specs.Arguments.{SpellNone, AreSpelledAs, texts_in};

use report_command::value_in;
use std::alloc::{AllocError, Global};
use types::{ValType, Value};

/// The values of texts for parameters of these types; `None` where there are more or fewer texts, or one spells
/// no value of its type.
pub(crate) fn read_args(
    alloc: Global,
    params: &[ValType],
    texts: &[&str],
) -> Result<Option<Vec<Value>>, AllocError>
    ensures { IfOk result (λ read. MatchOption read (SpellNone (texts_in texts.now) params.now)
        (λ args. AreSpelledAs (texts_in texts.now) params.now args.items)) }
{
    if params.len() != texts.len() {
        return Ok(None);
    }
    let mut args = Vec::new(alloc);
    for (i, val_type) in params.iter().enumerate() {
        let Some(value) = value_in(*val_type, texts[i]) else {
            return Ok(None);
        };
        args.push(value)?;
    }
    Ok(Some(args))
}
