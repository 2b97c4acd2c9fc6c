//! Constant expressions.

ghost use Rattle.std.specs.Prelude.{◌≡◌};
ghost use Rattle.validate_typing.specs.Image.{offset_of};
ghost use Rattle.validate_module_rules.specs.Faults.{constant_in, constant_fault, global_fault, first_of};

use types::{Global, Instr, PlainInstr, ValType, Value};
use validate_typing::Fault;

/// The value of an expression that is exactly one integer constant and `end` (Core specification 1.0, section 3.3.7).
fn constant(code: &[Instr]) -> Option<Value>
    ensures { result ≡ constant_in code.now }
{
    match code {
        [Instr::Plain(PlainInstr::I32Const(number)), Instr::End] => Some(Value::I32(*number)),
        [Instr::Plain(PlainInstr::I64Const(number)), Instr::End] => Some(Value::I64(*number)),
        _ => None,
    }
}

/// The fault of an expression that ought to be a constant of this type.
pub fn fault_of_constant(code: &[Instr], val_type: ValType) -> Option<Fault>
    ensures { result ≡ constant_fault code.now val_type }
{
    match constant(code) {
        None => Some(Fault::NotConstant),
        Some(value) if value.val_type() == val_type => None,
        Some(_) => Some(Fault::TypeMismatch),
    }
}

/// The number of a constant expression of type i32, and 0 of any other expression.
pub fn offset(code: &[Instr]) -> u32
    ensures { result ≡ offset_of code.now }
{
    let Some(first) = code.first() else {
        return 0;
    };
    match first {
        Instr::Plain(PlainInstr::I32Const(number)) => *number,
        _ => 0,
    }
}

fn fault_of_global(global: &Global) -> Option<Fault>
    ensures { result ≡ global_fault global.now }
{
    fault_of_constant(global.init.as_slice(), global.global_type.val_type)
}

/// The first fault of the globals: an initial expression that isn't a constant of the global's type.
pub fn fault_of_globals(globals: &[Global]) -> Option<Fault>
    ensures { result ≡ first_of global_fault globals.now }
{
    for global in globals {
        let fault = fault_of_global(global);
        if fault.is_some() {
            return fault;
        }
    }
    None
}
