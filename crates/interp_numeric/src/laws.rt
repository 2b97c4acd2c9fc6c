//! Laws of the definitions, each as a function that does nothing and ensures it.

ghost use Rattle.interp_numeric.specs.Laws.{UnsignedOfSigned, TypedResults, BelowStays};

/// The integer that stands for the signed number of an integer is that integer, at every width.
pub fn unsigned_of_signed()
    ensures { UnsignedOfSigned }
{}

/// On operands of the types that it takes, a numeric instruction gives a value of the type that it gives, or traps.
pub fn typed_results()
    ensures { TypedResults }
{}

/// What lies below the operands that a numeric instruction takes changes nothing, and stays.
pub fn below_stays()
    ensures { BelowStays }
{}
