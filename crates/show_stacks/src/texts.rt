//! The text of a stack.

ghost use Rattle.std.specs.Prelude.{IfOk, OnOk, string_bytes};
ghost use Rattle.show_stacks.specs.Stacks.{calls_at};
ghost use Rattle.show_stacks.specs.Texts.{AddsCalls, IsCallsText, IsStackText};

use crate::stacks::EntryStacks;
use interp::CodePlace;
use show_rows::{CodeMap, call_text, spot_text};
use std::alloc::{AllocError, Global};

/// Stacks with the code by which they are printed.
#[derive(Clone, Copy)]
pub struct StacksView<'s, 'm, 'n> {
    pub stacks: &'s EntryStacks,
    pub code: &'s CodeMap<'m, 'n>,
}

/// Adds the text of each of these calls.
fn push_calls(
    alloc: Global,
    code: &CodeMap,
    calls: &[CodePlace],
    text: &mut String,
) -> Result<(), AllocError>
    ensures { OnOk result (AddsCalls code.now calls.now (string_bytes text.old) (string_bytes text.new)) }
{
    for at in 0..calls.len() {
        let call = call_text(alloc, code, Some(calls[at]))?;
        text.push_str(call.as_str())?;
    }
    Ok(())
}

impl StacksView<'_, '_, '_> {
    /// The calls that led to the entry at a place, as they stand behind it: ` < main heap.c:13`; empty where none is told.
    ///
    /// # Errors
    /// Where memory is refused.
    pub fn calls_text(&self, alloc: Global, at: usize) -> Result<String, AllocError>
        ensures { IfOk result (λ text. IsCallsText self.now.code.now (calls_at self.now.stacks.now at) (string_bytes text)) }
    {
        let mut text = String::new(alloc);
        push_calls(alloc, self.code, self.stacks.calls_at(at), &mut text)?;
        Ok(text)
    }

    /// Where the entry at a place was made (`place`), and the calls that led there:
    /// `bump+0x11 heap.c:5 < main heap.c:13`.
    ///
    /// # Errors
    /// Where memory is refused.
    pub fn text(
        &self,
        alloc: Global,
        place: Option<CodePlace>,
        at: usize,
    ) -> Result<String, AllocError>
        ensures { IfOk result (λ text.
            IsStackText self.now.code.now place (calls_at self.now.stacks.now at) (string_bytes text)) }
    {
        let mut text = spot_text(alloc, self.code, place)?;
        push_calls(alloc, self.code, self.stacks.calls_at(at), &mut text)?;
        Ok(text)
    }
}
