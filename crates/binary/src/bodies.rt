//! Bodies of functions: their locals and their code.

ghost use Rattle.std.specs.Prelude.{◌≡◌, ◌<◌, ◌++◌, length, replicate, IfOk};
ghost use Rattle.binary_wire.specs.Reading.{GivesNextInMemory};
ghost use Rattle.binary.specs.Reading.{groups_at, locals_at, body_at, body_of_at, bodies_at, code_section_at};

use binary_instructions::{read_expression, read_val_type};
use binary_wire::{Fault, ReadFault, Reader};
use std::alloc::{AllocError, Global};
use types::{Body, FuncType, MOST_BODY_BYTES, MOST_LOCALS, Sequence, ValType, param_count};

/// So many locals more of one type.
fn push_locals(locals: &mut Vec<ValType>, number: u32, val_type: ValType) -> Result<(), AllocError>
    ensures { IfOk result (λ _. locals.new.items ≡ locals.old.items ++ replicate number val_type) }
{
    for _ in 0..number {
        locals.push(val_type)?;
    }
    Ok(())
}

/// Groups of locals, so many, each a number and a type, written out: no more locals than there is room for.
fn read_groups(
    reader: &mut Reader,
    alloc: Global,
    count: u32,
    room: u32,
) -> Result<Sequence<ValType>, ReadFault>
    ensures gives { GivesNextInMemory (groups_at count room) reader.old reader.new result }
    ensures keeps { reader.new.bounds ≡ reader.old.bounds }
{
    let mut locals = Vec::new(alloc);
    let mut left = room;
    for _ in 0..count {
        let number = reader.read_u32_within(left)?;
        let val_type = read_val_type(reader)?;
        push_locals(&mut locals, number, val_type)?;
        left -= number;
    }
    locals.shrink_to_fit();
    Ok(Sequence::from_vec(locals))
}

/// The locals of a body: no more than there is room for.
#[tactic(auto, unfolding(crate::specs::Reading::locals_at))]
fn read_locals(
    reader: &mut Reader,
    alloc: Global,
    room: u32,
) -> Result<Sequence<ValType>, ReadFault>
    ensures gives { GivesNextInMemory (locals_at room) reader.old reader.new result }
    ensures keeps { reader.new.bounds ≡ reader.old.bounds }
{
    let count = reader.read_u32()?;
    read_groups(reader, alloc, count, room)
}

/// The body of a function with so many parameters (Core specification 1.0, section 5.5.13).
#[tactic(auto, unfolding(crate::specs::Reading::body_at, crate::specs::Reading::body_contents_at, crate::specs::Reading::block_within_at))]
fn read_body(reader: &mut Reader, alloc: Global, params: usize) -> Result<Body, ReadFault>
    ensures gives { GivesNextInMemory (body_at params) reader.old reader.new result }
    ensures keeps { reader.new.bounds ≡ reader.old.bounds }
{
    let size = reader.read_u32_within(MOST_BODY_BYTES)?;
    let mut contents = reader.read_part(size as usize)?;
    let room = MOST_LOCALS.saturating_sub(params);
    let locals = read_locals(&mut contents, alloc, room as u32)?;
    let code = read_expression(&mut contents, alloc)?;
    contents.finish()?;
    Ok(Body { locals, code })
}

/// The body of the function with this place among those of the module.
fn read_body_of(
    reader: &mut Reader,
    alloc: Global,
    types: &[FuncType],
    functions: &[u32],
    place: usize,
) -> Result<Body, ReadFault>
    requires { place < length functions.now }
    ensures gives { GivesNextInMemory (body_of_at types.now functions.now place) reader.old reader.new result }
    ensures keeps { reader.new.bounds ≡ reader.old.bounds }
{
    let params = param_count(types, functions[place]);
    read_body(reader, alloc, params)
}

/// The bodies of the functions, given by the indices of their types.
fn read_bodies(
    reader: &mut Reader,
    alloc: Global,
    types: &[FuncType],
    functions: &[u32],
) -> Result<Sequence<Body>, ReadFault>
    ensures gives { GivesNextInMemory (bodies_at types.now functions.now) reader.old reader.new result }
    ensures keeps { reader.new.bounds ≡ reader.old.bounds }
{
    let mut bodies = Vec::new(alloc);
    for i in 0..functions.len() {
        let body = read_body_of(reader, alloc, types, functions, i)?;
        bodies.push(body)?;
    }
    Ok(Sequence::from_vec(bodies))
}

/// The contents of a code section: as many bodies as there are functions.
#[tactic(auto, unfolding(crate::specs::Reading::code_section_at))]
pub fn read_code_section(
    reader: &mut Reader,
    alloc: Global,
    types: &[FuncType],
    functions: &[u32],
) -> Result<Sequence<Body>, ReadFault>
    ensures gives { GivesNextInMemory (code_section_at types.now functions.now) reader.old reader.new result }
    ensures keeps { reader.new.bounds ≡ reader.old.bounds }
{
    let offset = reader.offset();
    let count = reader.read_u32()?;
    if count as usize != functions.len() {
        return Err(ReadFault::Malformed {
            kind: Fault::CountsDiffer,
            offset,
        });
    }
    read_bodies(reader, alloc, types, functions)
}
