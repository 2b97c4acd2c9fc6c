//! Which memory something belongs to.
use std::marker::Brand;

/// Names one memory by a type: its table, what it was before any entry, and how many entries its log takes (0 for a
/// memory that keeps none). A memory and its seats have one such type, so no seat is used at another memory.
pub trait Naming {
    ghost use Rattle.std.specs.Prelude.{ℕ};
    ghost use Rattle.atomic_table.specs.Seated.{TableId};
    ghost use Rattle.shared_memory.specs.Memory.{Memory};

    ghost table: { TableId };

    ghost opening: { Memory };

    ghost limit: { ℕ };
}

/// The function that prepares a memory names it here.
impl Naming for Brand {
    ghost use Rattle.shared_memory_on_table.specs.Names.{no_name};

    ghost table = { no_name.table };

    ghost opening = { no_name.opening };

    ghost limit = { no_name.limit };
}
