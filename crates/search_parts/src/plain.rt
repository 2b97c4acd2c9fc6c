//! Whether a thread stands at a load or a store that isn't atomic.

ghost use Rattle.std.specs.Prelude.{◌≡◌};
ghost use Rattle.interp_machine.specs.Config.{Config};
ghost use Rattle.interp.specs.Kept.{IsKept};
ghost use Rattle.search_runs.specs.Called.{Walker};
ghost use Rattle.search_runs.specs.Accesses.{is_plain, is_plain_code, is_plain_instr};
ghost use Rattle.search_parts.specs.Walkers.{StandsForThread};

use crate::walker::RestingThread;
use interp::Kept;
use types::{Instr, PlainInstr};
use validate_module::ValidModule;

/// Whether the instruction is one.
fn is_plain_access(instr: &Instr) -> bool
    ensures { result ≡ is_plain_instr instr.now }
{
    matches!(
        instr,
        Instr::Plain(PlainInstr::Load(_, _) | PlainInstr::Store(_, _))
    )
}

/// Whether a thread that runs stands at one.
fn is_at_plain(valid: &ValidModule, kept: &Kept) -> bool
    ensures { (c : Config) → IsKept valid.now kept.now c → result ≡ is_plain_code c.frame.code }
{
    let Some(body) = valid.body(kept.function) else {
        return false;
    };
    match body.code.as_slice().get(kept.pc) {
        Some(instr) => is_plain_access(instr),
        None => false,
    }
}

/// Whether a thread stands at a load or a store that isn't atomic.
pub(crate) fn is_plain(valid: &ValidModule, standing: &RestingThread) -> bool
    ensures { (v : Walker) → StandsForThread valid.now standing.now v → result ≡ is_plain v }
{
    match standing {
        RestingThread::Going(kept, _) => is_at_plain(valid, kept),
        _ => false,
    }
}
