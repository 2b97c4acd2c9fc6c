//! What two callers of one shared memory can rely on, whichever memory it is, proved from the trait alone.
ghost use Rattle.std.specs.Prelude.{◌≡◌};
ghost use mathlib.Core.List.{IsPrefix};
ghost use Rattle.shared_memory.specs.Legal.{IsMemoryLegal};
ghost use Rattle.shared_memory.specs.Memory.{IsWhole};

use shared_memory::SharedMemory;

/// Two callers that have met have one legal list, which begins with the list of each.
pub fn agree<M: SharedMemory>(memory: &M, a: &mut M::Seat, b: &mut M::Seat)
    ensures one { M.seen b.new ≡ M.seen a.new }
    ensures begins { IsPrefix (M.seen a.old) (M.seen a.new) × IsPrefix (M.seen b.old) (M.seen a.new) }
    ensures legal { IsMemoryLegal M.opening (M.seen a.new) }
{
    memory.meet(a, b);
}

/// The most pages that a memory may have, as the memory before any entry says, which is whole pages of 65,536 bytes.
pub fn most_pages<M: SharedMemory>(memory: &M) -> u32
    ensures most { result ≡ M.opening.max }
    ensures whole { IsWhole M.opening }
{
    memory.pages_max()
}
