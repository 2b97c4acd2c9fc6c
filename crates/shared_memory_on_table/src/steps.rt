//! Moves of the seats, each made of single steps on the table.
ghost use Rattle.std.specs.Prelude.{◌≡◌, ◌<◌};
ghost use Rattle.shared_memory_on_table.specs.Callers.{GoesOn};
ghost use Rattle.shared_memory_on_table.specs.Moves.{SeatBecomes, IsOne, caller_in, others_stay, first_goes, together};
ghost use Rattle.shared_memory_on_table.specs.Moves.{longest, after_meeting};

use crate::rule::{History, Row};
use crate::view::{FirstOff, Meeting, TableSeat, Together};

/// The first caller of one seat goes to another.
pub fn hand<K, H: History<K>>(row: &Row<K, H>, from: &mut TableSeat, to: &mut TableSeat)
    requires row { 0 < row.now.table_id.words }
    requires own { (from.old.table_id ≡ row.now.table_id) × (to.old.table_id ≡ row.now.table_id) }
    ensures from { SeatBecomes from.old from.new (others_stay from.old.me.0, from.old.me.1) }
    ensures to { SeatBecomes to.old to.new (together to.old.me.0 (first_goes from.old.me.0), to.old.me.1) }
{
    let goes = row.split_seat::<FirstOff>(from);
    row.join_seat::<Together>(to, goes);
}

/// Two callers meet: both have then seen the longer of their lists, and the queue right is exchanged.
pub(crate) fn meet<K, H: History<K>>(row: &Row<K, H>, a: &mut TableSeat, b: &mut TableSeat)
    requires row { 0 < row.now.table_id.words }
    requires own { (a.old.table_id ≡ row.now.table_id) × (b.old.table_id ≡ row.now.table_id) }
    requires a { IsOne a.old.me }
    requires b { IsOne b.old.me }
    ensures a { SeatBecomes a.old a.new (after_meeting a.old.me b.old.me (longest a.old.me b.old.me)) }
    ensures b { SeatBecomes b.old b.new (after_meeting b.old.me a.old.me (longest a.old.me b.old.me)) }
    ensures a_goes_on { GoesOn (caller_in a.old.me.0) (longest a.old.me b.old.me) }
    ensures b_goes_on { GoesOn (caller_in b.old.me.0) (longest a.old.me b.old.me) }
{
    hand(row, b, a);
    row.load::<Meeting>(a, 0);
    hand(row, a, b);
}
