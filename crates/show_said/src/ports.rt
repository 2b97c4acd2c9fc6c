//! Where threads put what they say, and which memory a library keeps for itself, as the module tells.

ghost use Rattle.std.specs.Prelude.{IfOk};
ghost use Rattle.show_said.specs.Ports.{span_at, IsOwn, IsPorts};

use crate::declared::read_declared;
use binary_wire::{IndexItem, Item, ReadFault, Reader};
use selection::NumberSpan;
use std::alloc::{AllocError, Global};
use types::Sequence;

/// The address of each thread, from thread 0 on, to which it stores what it says: of the module's first custom section
/// `wathread.text`, and none where it has no such section or that can't be read.
pub fn read_ports(alloc: Global, bytes: &[u8]) -> Result<Sequence<u32>, AllocError>
    ensures { IfOk result (IsPorts bytes.now) }
{
    read_declared::<IndexItem>(alloc, bytes, b"wathread.text")
}

/// Addresses from a first one to a last one, each an unsigned number of 32 bits.
struct SpanItem;

impl Item for SpanItem {
    type Value = NumberSpan;

    ghost at = { span_at };

    #[tactic(auto, unfolding(crate::specs::Ports::span_at))]
    fn read(reader: &mut Reader, _alloc: Global) -> Result<NumberSpan, ReadFault> {
        let first = reader.read_u32()?;
        let last = reader.read_u32()?;
        Ok(NumberSpan {
            first: u64::from(first),
            last: u64::from(last),
        })
    }
}

/// The addresses that a library keeps for itself: of the module's first custom section `wathread.own`, and none where it
/// has no such section or that can't be read.
pub fn read_own(alloc: Global, bytes: &[u8]) -> Result<Sequence<NumberSpan>, AllocError>
    ensures { IfOk result (IsOwn bytes.now) }
{
    read_declared::<SpanItem>(alloc, bytes, b"wathread.own")
}
