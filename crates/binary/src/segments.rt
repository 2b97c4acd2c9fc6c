//! Element segments and data segments.

ghost use Rattle.binary.specs.Reading.{element_at, data_at};

use binary_instructions::read_expression;
use binary_wire::{IndexItem, Item, ReadFault, Reader, read_vector};
use std::alloc::Global;
use types::{DataSegment, ElementSegment, MOST_FUNCTIONS, Sequence};

/// The most functions of one element segment.
const ELEMENTS_MAX: u32 = MOST_FUNCTIONS as u32;

/// The item of an element section (Core specification 1.0, section 5.5.12).
pub struct ElementItem;

impl Item for ElementItem {
    type Value = ElementSegment;

    ghost at = { element_at };

    #[tactic(auto, unfolding(crate::specs::Reading::element_at))]
    fn read(reader: &mut Reader, alloc: Global) -> Result<ElementSegment, ReadFault> {
        let table = reader.read_u32()?;
        let offset = read_expression(reader, alloc)?;
        let functions = read_vector::<IndexItem>(reader, alloc, ELEMENTS_MAX)?;
        Ok(ElementSegment {
            table,
            offset,
            functions,
        })
    }
}

/// The item of a data section (Core specification 1.0, section 5.5.14).
pub struct DataItem;

impl Item for DataItem {
    type Value = DataSegment;

    ghost at = { data_at };

    #[tactic(auto, unfolding(crate::specs::Reading::data_at))]
    fn read(reader: &mut Reader, alloc: Global) -> Result<DataSegment, ReadFault> {
        let memory = reader.read_u32()?;
        let offset = read_expression(reader, alloc)?;
        let bytes = Vec::from_slice(alloc, reader.read_bytes()?)?;
        Ok(DataSegment {
            memory,
            offset,
            bytes: Sequence::from_vec(bytes),
        })
    }
}
