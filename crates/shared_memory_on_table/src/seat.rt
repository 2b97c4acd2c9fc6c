//! The seats of a memory, and the meeting of two of them.
ghost use Rattle.std.specs.Prelude.{◌≡◌, ◌<◌, ◌≤◌};
ghost use Rattle.types.specs.declared.limits.TheConstants.{DESK_NAME};
ghost use Rattle.shared_memory_on_table.specs.Rule.{ExchangeRights, MeetsIn};

use crate::naming::Naming;
use crate::rule::{History, Row};
use crate::steps;
use crate::view::TableSeat;
use std::marker::{Model, PhantomData};

/// A place on the memory's table on which one caller stands. Contracts see that caller.
#[derive(Drop)]
pub struct StandingCaller<B: Naming> {
    /// The number under which the caller enters, 0 to 64.
    pub name: u32,
    /// Its seat of the table.
    pub place: TableSeat,
    /// The memory that it belongs to.
    pub of: PhantomData<B>,
}

impl<B: Naming> Model for StandingCaller<B> {
    ghost use Rattle.shared_memory_on_table.specs.declared.view.Caller.{Caller};
    ghost use Rattle.shared_memory_on_table.specs.Moves.{caller_in};
    ghost use Rattle.shared_memory_on_table.specs.Rule.{StandsAlone};

    ghost Value = { Caller };

    ghost view = { λ s. caller_in s.place.me.0 };

    ghost invariant = { λ s. StandsAlone B.table B.opening s.name s.place.table_id s.place.me };
}

impl<B: Naming> StandingCaller<B> {
    /// The number under which the caller enters, 0 to 64.
    pub fn name(&self) -> u32
        ensures { result ≡ self.now.name }
    {
        self.name
    }
}

/// A caller's place at a memory. It is made with the memory, and never twice.
#[derive(Drop)]
pub struct CallerSeat<B: Naming> {
    /// Who stands there, and what it has seen.
    pub caller: StandingCaller<B>,
    pub ghost known: { caller.name ≤ DESK_NAME },
}

/// Two callers learn from each other, and exchange the queue right.
pub fn meet<B: Naming, K, H: History<K>>(
    row: &Row<K, H>,
    a: &mut StandingCaller<B>,
    b: &mut StandingCaller<B>,
)
    requires row { (row.now.table_id ≡ B.table) × (0 < row.now.table_id.words) }
    ensures names { (a.new.name ≡ a.old.name) × (b.new.name ≡ b.old.name) }
    ensures rights { ExchangeRights a.old b.old a.new b.new }
    ensures one { b.new.seen ≡ a.new.seen }
    ensures longer { MeetsIn B.opening a.old b.old a.new.seen }
    ensures tries { (a.new.lost ≡ a.old.lost) × (b.new.lost ≡ b.old.lost) }
{
    steps::meet(row, &mut a.place, &mut b.place);
}
