//! Threads whose next accesses are known.
ghost use Rattle.std.specs.Prelude.{IfOk};
ghost use Rattle.search_settled.specs.Flat.{IsThreadOf};
ghost use Rattle.search_race_free.specs.Search.{IsAccessOf};

use search_settled::{Moves, NextAccess};
use std::alloc::{AllocError, Global};

/// Threads that are moved one by one, and of which is known what each does with the memory next.
pub trait Accesses: Moves {
    ghost use Rattle.schedule.specs.System.{State};
    ghost use Rattle.search_race_free.specs.Wanted.{ArePlain};
    ghost use Rattle.search_race_free.specs.Search.{NoneBeyond, NobodyGoesOn};

    /// What thread n does with the memory next, if it can go on.
    fn access(
        &self,
        alloc: Global,
        shared: &Self::Shared,
        thread: &Self::Thread,
        n: usize,
    ) -> Result<Option<NextAccess>, AllocError>
        requires { (z : State Self.X Self.T) × IsThreadOf (Self.threads self.now) shared.now thread.now n z }
        ensures { IfOk result (IsAccessOf (Self.threads self.now) shared.now thread.now n) };

    /// A plain access is nobody else's concern, unless it conflicts with theirs.
    ghost plain: { (t : Self) → ArePlain (Self.threads t).system (Self.threads t).accesses (Self.threads t).first };

    /// Only so many threads can go on.
    ghost beyond: { (t : Self)
        → NoneBeyond (Self.threads t).system (Self.threads t).accesses (Self.threads t).first (Self.threads t).most };

    /// Nobody goes on in the end.
    ghost finished: { (t : Self)
        → NobodyGoesOn (Self.threads t).system (Self.threads t).accesses (Self.ends t) };
}
