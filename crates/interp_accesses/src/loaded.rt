//! The word of a loaded number.

ghost use Rattle.std.specs.Prelude.{◌≡◌};
ghost use Rattle.types.specs.Widths.{load_type};
ghost use Rattle.interp_machine.specs.Access.{loaded_value};
ghost use Rattle.interp_state.specs.Words.{word_of, IsWord};

use interp_numeric::sign_extended;
use interp_state::word;
use shared_memory_sequential::low_bytes;
use types::LoadOp;

/// The word of the value that a load makes of a number in memory: the bits that it takes, with zeros or copies of the
/// sign above, up to the width of its type.
#[inline]
pub(crate) fn loaded(op: LoadOp, number: u64) -> u64
    ensures word { result ≡ word_of (loaded_value op number) }
    ensures in_range { IsWord (load_type op) result }
{
    match op {
        LoadOp::ZeroExtend(width) => low_bytes(number, width.bytes()),
        LoadOp::SignExtend(width) => word(sign_extended(width, number)),
    }
}
