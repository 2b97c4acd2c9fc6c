//! Laws of the definitions.

ghost use Rattle.std.specs.Prelude.{ℕ, List};
ghost use Rattle.types.specs.declared.instr.Instr.{Instr};
ghost use Rattle.validate_typing.specs.Context.{Context};
ghost use Rattle.validate_bodies.specs.Reached.{HasOneTyping, AreExclusive, IsReadOff};

/// Before a place that is reached a frame has operands of these types and of no others, whatever typing of the code
/// before it is looked at; and behind an instruction that never goes on it isn't reached (Core specification 1.0,
/// section 3.3.5).
pub fn operands_have_one_type_each()
    ensures types { (c : Context) (code : List Instr) (place : ℕ) → HasOneTyping c code place }
    ensures cut_off { (c : Context) (code : List Instr) (place : ℕ) → AreExclusive c code place }
{}

/// Which blocks are open at a place, and what is done in each, is read off the code before it.
pub fn blocks_are_read_off_the_code()
    ensures { (front : List Instr) → IsReadOff front }
{}
