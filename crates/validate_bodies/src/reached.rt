//! The types of the operands at a place of a body: those of the open blocks of the pass over what comes before it.

ghost use Rattle.std.specs.Prelude.{◌≡◌, ◌<◌, ◌≤◌, length, reverse, IfOk};
ghost use Rattle.types.specs.Nesting.{IsExpression};
ghost use Rattle.validate_instructions.specs.Scope.{context_of, in_body};
ghost use Rattle.validate_bodies.specs.Reached.{TypesAt, AreAllKnown};
ghost use Rattle.validate_bodies.specs.Forth.{BlocksAt, operands_in, goes_on_in};

use crate::body::{own_block, pass, scope_of};
use crate::ends::BlockEnds;
use std::alloc::{AllocError, Global};
use types::{Body, FuncType, Instr, ValType};
use validate_instructions::{Declared, Flow, OpenBlock, Problem, Scope};

/// The blocks that are open at a place, the innermost last. `None` where no typed code begins with what comes before
/// it.
fn blocks_at(
    alloc: Global,
    scope: &Scope,
    code: &[Instr],
    place: usize,
) -> Result<Option<Vec<OpenBlock>>, AllocError>
    requires expression { IsExpression code.now }
    requires within { place < length code.now }
    ensures { IfOk result (BlocksAt (context_of scope.now) code.now place) }
{
    let mut blocks = Vec::new(alloc);
    blocks.push(own_block(alloc, scope, code.len())?)?;
    let Ok(mut ends) = BlockEnds::of(alloc, code) else {
        return Err(AllocError);
    };
    let mut row = Vec::new(alloc);
    for here in 0..place {
        row.clear();
        match pass(
            alloc,
            scope,
            &mut blocks,
            &mut ends,
            &code[here],
            here,
            &mut row,
        ) {
            Ok(()) => {}
            Err(Problem::OutOfMemory) => return Err(AllocError),
            Err(Problem::Wrong(_)) => return Ok(None),
        }
    }
    Ok(Some(blocks))
}

/// Whether the innermost block goes on.
fn goes_on(blocks: &[OpenBlock]) -> bool
    ensures { result ≡ goes_on_in (reverse blocks.now) }
{
    match blocks.last() {
        Some(block) => block.flow == Flow::Live,
        None => false,
    }
}

/// What is known of the operands of all blocks.
fn operands_of(alloc: Global, blocks: &[OpenBlock]) -> Result<Vec<Option<ValType>>, AllocError>
    ensures { IfOk result (λ all. all.items ≡ operands_in blocks.now) }
{
    let mut operands = Vec::new(alloc);
    for block in blocks {
        operands.extend_from_slice(&block.operands)?;
    }
    Ok(operands)
}

/// The types of operands, if all of them are known.
fn known_types(
    alloc: Global,
    operands: &[Option<ValType>],
) -> Result<Option<Vec<ValType>>, AllocError>
    ensures { IfOk result (AreAllKnown operands.now) }
{
    let mut types = Vec::new(alloc);
    for operand in operands {
        let Some(val_type) = operand else {
            return Ok(None);
        };
        types.push(*val_type)?;
    }
    Ok(Some(types))
}

/// The types of the operands at a place of code.
fn types_at(
    alloc: Global,
    scope: &Scope,
    code: &[Instr],
    place: usize,
) -> Result<Option<Vec<ValType>>, AllocError>
    requires { IsExpression code.now }
    ensures { IfOk result (TypesAt (context_of scope.now) code.now place) }
{
    if place >= code.len() {
        return Ok(None);
    }
    let Some(blocks) = blocks_at(alloc, scope, code, place)? else {
        return Ok(None);
    };
    if !goes_on(&blocks) {
        return Ok(None);
    }
    known_types(alloc, &operands_of(alloc, &blocks)?)
}

/// The types of the operands of the whole frame before an instruction of the body of a function of this type, the
/// topmost last (Core specification 1.0, section 3.3 and appendix "Validation Algorithm"). `place` is the instruction's
/// number.
///
/// `None` where the body has no instruction with this number, where one before it breaks a rule, and where one that
/// never goes on stands before it in a block that is open there, so that any operands may lie there.
///
/// # Errors
/// Where memory is refused.
pub fn operand_types(
    alloc: Global,
    declared: &Declared,
    func_type: &FuncType,
    body: &Body,
    place: usize,
) -> Result<Option<Vec<ValType>>, AllocError>
    requires expression { IsExpression body.now.code }
    requires one_result { length func_type.now.results ≤ 1 }
    ensures { IfOk result (TypesAt (in_body declared.now func_type.now body.now) body.now.code place) }
{
    types_at(
        alloc,
        &scope_of(declared, func_type, body),
        body.code.as_slice(),
        place,
    )
}
