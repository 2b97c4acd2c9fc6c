//! The offsets of the instructions of each body.

ghost use Rattle.show_places.specs.Bodies.{group_at, body_at, GivesBodies};

use crate::places::read_places;
use binary_instructions::read_val_type;
use binary_wire::{Item, ReadFault, Reader, read_vector};
use std::alloc::Global;
use types::Sequence;

/// Where a body begins, behind its size, and where each of its instructions does: offsets from the start of the code
/// section's contents.
#[derive(Drop)]
pub struct BodyPlaces {
    pub start: usize,
    pub instrs: Sequence<usize>,
}

/// A group of locals: how many, and their type (Core specification 1.0, section 5.5.13).
struct GroupItem;

impl Item for GroupItem {
    type Value = ();

    ghost at = { group_at };

    #[tactic(auto, unfolding(crate::specs::Bodies::group_at))]
    fn read(reader: &mut Reader, _alloc: Global) -> Result<(), ReadFault> {
        reader.read_u32()?;
        read_val_type(reader)?;
        Ok(())
    }
}

struct BodyItem;

impl Item for BodyItem {
    type Value = BodyPlaces;

    ghost at = { body_at };

    #[tactic(auto, unfolding(crate::specs::Bodies::body_at))]
    fn read(reader: &mut Reader, alloc: Global) -> Result<BodyPlaces, ReadFault> {
        let mut body = reader.read_block()?;
        let start = body.offset();
        drop(read_vector::<GroupItem>(&mut body, alloc, u32::MAX)?);
        let instrs = Sequence::from_vec(read_places(&mut body, alloc)?);
        Ok(BodyPlaces { start, instrs })
    }
}

/// The places of each body of a code section, by its contents: the first is that of the first function of the module
/// itself.
pub fn code_places(alloc: Global, contents: &[u8]) -> Result<Sequence<BodyPlaces>, ReadFault>
    ensures { GivesBodies contents.now result }
{
    let mut reader = Reader::new(contents);
    read_vector::<BodyItem>(&mut reader, alloc, u32::MAX)
}
