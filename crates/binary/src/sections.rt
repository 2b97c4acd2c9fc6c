//! Sections, with custom sections before them.

ghost use Rattle.std.specs.Prelude.{◌≡◌, length, true};
ghost use Rattle.binary_wire.specs.Reading.{Gives, GivesNext, GivesNextAs, GivesNextInMemory, PassesOver, read_at};
ghost use Rattle.binary_wire.specs.Reading.{sized_at, vector_at};
ghost use Rattle.binary.specs.Reading.{custom_at, customs_at, part_at, section_at, start_at, code_at, finish_at};

use crate::bodies::read_code_section;
use binary_wire::{Fault, Item, ReadFault, Reader, Refusal, read_vector};
use std::alloc::Global;
use types::{Body, FuncType, Sequence};

/// The id of the last kind of section.
const DATA_ID: u8 = 11;

/// A custom section (Core specification 1.0, section 5.5.3): a name, and anything.
#[tactic(auto, unfolding(crate::specs::Reading::custom_at))]
fn read_custom(reader: &mut Reader) -> Result<(), Refusal>
    ensures gives { GivesNextAs (λ _. true) custom_at reader.old reader.new result }
    ensures keeps { reader.new.bounds ≡ reader.old.bounds }
{
    reader.read_byte()?;
    let mut contents = reader.read_block()?;
    contents.read_name()?;
    Ok(())
}

/// Passes over custom sections.
pub fn read_customs(reader: &mut Reader) -> Result<(), Refusal>
    ensures gives { PassesOver (customs_at (length reader.old.rest.now)) reader.old reader.new result }
    ensures keeps { reader.new.bounds ≡ reader.old.bounds }
{
    // Each takes a byte at least.
    for _ in 0..reader.len() {
        if !reader.front_is(0) {
            return Ok(());
        }
        read_custom(reader)?;
    }
    Ok(())
}

/// A size, and a vector of exactly that size.
#[tactic(auto, unfolding(binary_wire::specs::Reading::sized_at))]
fn read_sized_vector<T: Item>(
    reader: &mut Reader,
    alloc: Global,
    limit: u32,
) -> Result<Sequence<T::Value>, ReadFault>
    ensures gives { GivesNextInMemory (sized_at (vector_at limit T.at)) reader.old reader.new result }
    ensures keeps { reader.new.bounds ≡ reader.old.bounds }
{
    let mut contents = reader.read_block()?;
    let items = read_vector::<T>(&mut contents, alloc, limit)?;
    contents.finish()?;
    Ok(items)
}

/// The section with an id (Core specification 1.0, section 5.5.2), behind custom ones: a vector. It has no items if it
/// isn't there.
#[tactic(auto, unfolding(crate::specs::Reading::section_at, crate::specs::Reading::part_at))]
pub fn read_section<T: Item>(
    reader: &mut Reader,
    alloc: Global,
    id: u8,
    limit: u32,
) -> Result<Sequence<T::Value>, ReadFault>
    ensures gives { GivesNextInMemory (section_at id limit T.at) reader.old reader.new result }
    ensures keeps { reader.new.bounds ≡ reader.old.bounds }
{
    read_customs(reader)?;
    if !reader.front_is(id) {
        return Ok(Sequence::from_vec(Vec::new(alloc)));
    }
    reader.read_byte()?;
    read_sized_vector::<T>(reader, alloc, limit)
}

/// The start section (Core specification 1.0, section 5.5.11), behind custom ones, if it is there.
#[tactic(auto, unfolding(crate::specs::Reading::part_at, crate::specs::Reading::start_at, crate::specs::Reading::start_function_at, binary_wire::specs::Reading::sized_at))]
pub fn read_start(reader: &mut Reader) -> Result<Option<u32>, Refusal>
    ensures gives { GivesNext start_at reader.old reader.new result }
    ensures keeps { reader.new.bounds ≡ reader.old.bounds }
{
    read_customs(reader)?;
    if !reader.front_is(8) {
        return Ok(None);
    }
    reader.read_byte()?;
    let mut contents = reader.read_block()?;
    let function = contents.read_u32()?;
    contents.finish()?;
    Ok(Some(function))
}

/// The code section (Core specification 1.0, section 5.5.13), behind custom ones. It has no bodies if it isn't there.
#[tactic(auto, unfolding(crate::specs::Reading::part_at, crate::specs::Reading::code_at, binary_wire::specs::Reading::sized_at))]
pub fn read_code(
    reader: &mut Reader,
    alloc: Global,
    types: &[FuncType],
    functions: &[u32],
) -> Result<Sequence<Body>, ReadFault>
    ensures gives { GivesNextInMemory (code_at types.now functions.now) reader.old reader.new result }
    ensures keeps { reader.new.bounds ≡ reader.old.bounds }
{
    read_customs(reader)?;
    if !reader.front_is(10) {
        return Ok(Sequence::from_vec(Vec::new(alloc)));
    }
    reader.read_byte()?;
    let mut contents = reader.read_block()?;
    let bodies = read_code_section(&mut contents, alloc, types, functions)?;
    contents.finish()?;
    Ok(bodies)
}

/// That nothing is left of the input. A section that is left is unknown, or out of order.
pub fn read_end(reader: &Reader) -> Result<(), Refusal>
    ensures { Gives (λ _. true) result (read_at finish_at reader.now) }
{
    match reader.peek() {
        None => Ok(()),
        Some(id) => {
            if id > DATA_ID {
                Err(reader.fault(Fault::UnknownByte))
            } else {
                Err(reader.fault(Fault::SectionOrder))
            }
        }
    }
}
