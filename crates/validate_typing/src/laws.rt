//! Laws of the definitions.

ghost use Rattle.std.specs.Prelude.{◌≡◌, ◌∷◌, [], ◌++◌};
ghost use Rattle.types.specs.Nesting.{Code, flat};
ghost use Rattle.types.specs.declared.instr.Instr.TheVariants.{End};
ghost use Rattle.validate_typing.specs.Nested.{nested_of};

/// Nested instructions that are written flat, with a final end, are read off again: an expression stands for
/// one nesting (Core specification 1.0, section 5.4.6).
#[tactic(auto, using(crate::proofs::Nested::nested_of_flat))]
pub fn expression_stands_for_one_nesting()
    ensures { (c : Code) → nested_of (flat c ++ (End ∷ [])) ≡ c }
{}
