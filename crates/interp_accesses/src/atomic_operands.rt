//! The operands of an atomic instruction.

ghost use Rattle.std.specs.Prelude.{◌≡◌, ℕ, ◌+◌, ◌<◌, ◌≤◌, Some, length, reverse, drop, nat_eq, ◌%◌, ◌^◌, IfOk};
ghost use Rattle.std.specs.Prelude.{vec_capacity};
ghost use Rattle.std.specs.List.{slice_get};
ghost use Rattle.types.specs.declared.value.ValType.{ValType};
ghost use Rattle.types.specs.Widths.{type_bytes, access_type};
ghost use Rattle.shared_memory.specs.Events.{FitsWidth};
ghost use Rattle.interp_machine.specs.Access.{answered_value};
ghost use Rattle.interp_state.specs.Words.{word_of, IsWord};
ghost use Rattle.interp_accesses.specs.Requests.{IsWidth, IsAddress, IsWordAt};

use shared_memory_sequential::low_bytes;
use types::{AccessWidth, MemArg, Trap};

/// The number of 32 bits at a place, counted from the top.
#[inline]
pub(crate) fn i32_at(values: &[u64], place: usize) -> u32
    requires { IsWordAt (reverse values.now) place ValType.I32 }
    ensures { slice_get (reverse values.now) place ≡ Some result }
{
    number_at(values, place) as u32
}

/// The number at a place, counted from the top, whichever its type.
#[inline]
pub(crate) fn number_at(values: &[u64], place: usize) -> u64
    requires { place < length values.now }
    ensures number { slice_get (reverse values.now) place ≡ Some result }
    ensures fits { (t : ValType) → IsWordAt (reverse values.now) place t → FitsWidth (type_bytes t) result }
{
    values[values.len() - 1 - place]
}

/// Whether a width divides an address.
#[inline]
pub(crate) fn is_aligned(addr: u64, width: u8) -> bool
    requires { IsWidth width }
    ensures { result ≡ nat_eq (addr % width) 0 }
{
    addr & (u64::from(width) - 1) == 0
}

/// The effective address of an access: the number of 32 bits at a place from the top and the offset, without wrapping.
#[inline]
pub(crate) fn address_at(values: &[u64], place: usize, arg: MemArg, width: u8) -> Result<u64, Trap>
    requires operand { IsWordAt (reverse values.now) place ValType.I32 }
    requires width { IsWidth width }
    ensures address { (base : ℕ) → slice_get (reverse values.now) place ≡ Some base
        → IsAddress (base + arg.offset) width result }
    ensures no_wrap { IfOk result (λ addr. addr < 2 ^ 33) }
{
    let addr = u64::from(i32_at(values, place)) + u64::from(arg.offset);
    if is_aligned(addr, width) {
        Ok(addr)
    } else {
        Err(Trap::UnalignedAtomic)
    }
}

/// The word of a number that an access answers.
#[inline]
pub(crate) fn answered(width: AccessWidth, number: u64) -> u64
    ensures word { result ≡ word_of (answered_value width number) }
    ensures in_range { IsWord (access_type width) result }
{
    low_bytes(number, width.bytes())
}

/// So many of the topmost words go.
#[inline]
pub(crate) fn drop_top(values: &mut Vec<u64>, count: usize)
    requires { count ≤ length values.old.items }
    ensures left { reverse values.new.items ≡ drop count (reverse values.old.items) }
    ensures capacity { vec_capacity values.new ≡ vec_capacity values.old }
{
    values.truncate(values.len() - count);
}
