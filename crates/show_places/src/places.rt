//! The offsets of an expression's instructions.

ghost use Rattle.std.specs.Prelude.{◌≡◌, ℕ, List};
ghost use Rattle.binary_wire.specs.declared.bounds.Bounds.{Bounds};
ghost use Rattle.binary_wire.specs.Reading.{GivesNextInMemoryAs};
ghost use Rattle.show_places.specs.Places.{places_in, OnePlaceEach};

use binary_instructions::{Keep, read_each};
use binary_wire::{ReadFault, Reader};
use std::alloc::Global;
use types::Instr;

/// The offset of an instruction.
struct OffsetOnly;

impl Keep for OffsetOnly {
    type Kept = usize;

    ghost kept = { λ offset instr. offset };

    fn keep(offset: usize, _instr: Instr) -> usize {
        offset
    }
}

/// The offset of each instruction of an expression, up to the `end` that closes it.
#[tactic(auto, unfolding(crate::specs::Places::places_in))]
pub fn read_places(reader: &mut Reader, alloc: Global) -> Result<Vec<usize>, ReadFault>
    ensures gives { GivesNextInMemoryAs (λ places. places.items) places_in reader.old reader.new result }
    ensures keeps { reader.new.bounds ≡ reader.old.bounds }
{
    read_each::<OffsetOnly>(reader, alloc)
}

/// An expression that is read has one place for each of its instructions.
pub fn one_place_each()
    ensures { (s : Bounds) (bytes : List ℕ) → OnePlaceEach s bytes }
{}
