//! Operands that are taken from a block and put there.

ghost use Rattle.std.specs.Prelude.{[], ◌∷◌, reverse, MatchResult};
ghost use Rattle.validate_typing.specs.Typing.{results_of};
ghost use Rattle.validate_instructions.specs.Blocks.{TakesAny, LacksAny, Taking, Putting, PuttingAny, Moving};

use crate::block::{Flow, OpenBlock};
use crate::problem::Problem;
use types::ValType;
use validate_typing::Fault;

/// Takes an operand of any type, and says which, where that is known.
pub fn take_any(block: &mut OpenBlock) -> Result<Option<ValType>, Problem>
    ensures { MatchResult result (λ kind. TakesAny kind block.old block.new) (LacksAny block.old) }
{
    match block.operands.pop() {
        Some(kind) => Ok(kind),
        None => {
            if block.flow == Flow::Free {
                Ok(None)
            } else {
                Err(Problem::Wrong(Fault::TypeMismatch))
            }
        }
    }
}

/// Takes an operand of a type.
pub fn take_one(block: &mut OpenBlock, wanted: ValType) -> Result<(), Problem>
    ensures { Taking (wanted ∷ []) block.old block.new result }
{
    match take_any(block)? {
        Some(found) if found != wanted => Err(Problem::Wrong(Fault::TypeMismatch)),
        _ => Ok(()),
    }
}

/// Takes an operand, if there is a type.
pub fn take_result(block: &mut OpenBlock, wanted: Option<ValType>) -> Result<(), Problem>
    ensures { Taking (results_of wanted) block.old block.new result }
{
    match wanted {
        None => Ok(()),
        Some(val_type) => take_one(block, val_type),
    }
}

/// Takes operands of these types, the topmost first.
pub fn take_all(block: &mut OpenBlock, wanted: &[ValType]) -> Result<(), Problem>
    ensures { Taking wanted.now block.old block.new result }
{
    for val_type in wanted {
        take_one(block, *val_type)?;
    }
    Ok(())
}

/// Takes arguments of these types, the topmost last.
pub fn take_params(block: &mut OpenBlock, params: &[ValType]) -> Result<(), Problem>
    ensures { Taking (reverse params.now) block.old block.new result }
{
    for index in (0..params.len()).rev() {
        take_one(block, params[index])?;
    }
    Ok(())
}

/// Puts an operand, of which this is known.
pub fn put_any(block: &mut OpenBlock, kind: Option<ValType>) -> Result<(), Problem>
    ensures { PuttingAny kind block.old block.new result }
{
    block.operands.push(kind)?;
    Ok(())
}

/// Puts an operand of a type.
pub fn put_one(block: &mut OpenBlock, given: ValType) -> Result<(), Problem>
    ensures { Putting (given ∷ []) block.old block.new result }
{
    put_any(block, Some(given))
}

/// Puts an operand, if there is a type.
pub fn put_result(block: &mut OpenBlock, given: Option<ValType>) -> Result<(), Problem>
    ensures { Putting (results_of given) block.old block.new result }
{
    match given {
        None => Ok(()),
        Some(val_type) => put_one(block, val_type),
    }
}

/// Puts operands of these types, the topmost first.
pub fn put_all(block: &mut OpenBlock, given: &[ValType]) -> Result<(), Problem>
    ensures { Putting given.now block.old block.new result }
{
    for index in (0..given.len()).rev() {
        put_one(block, given[index])?;
    }
    Ok(())
}

/// Takes operands of these types, the topmost first, and puts another, if there is one.
pub fn replace(
    block: &mut OpenBlock,
    wanted: &[ValType],
    given: Option<ValType>,
) -> Result<(), Problem>
    ensures { Moving wanted.now (results_of given) block.old block.new result }
{
    take_all(block, wanted)?;
    put_result(block, given)
}
