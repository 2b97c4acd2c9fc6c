//! Moves of the seats, each made of single steps on the word.
ghost use Rattle.std.specs.Prelude.{◌≡◌, ◌<◌};
ghost use Rattle.shared_memory_on_table.specs.Callers.{GoesOn, AllGoOn};
ghost use Rattle.shared_memory_on_table.specs.Moves.{SeatBecomes, IsOne, IsKeeper, caller_in, sees};
ghost use Rattle.locked_recorder.specs.Rule.{HasGuest, MayMake, after_entry, keeps, log_with, sees_with};

use crate::rule::{Enter, Learn, Making, Row};
use shared_memory_on_table::{TableSeat, hand};
use std::marker::Brand;
use types::Entry;

// The keeper makes an entry of the caller on its seat.
fn enter<M: Making>(row: &Row, keeper: &mut TableSeat, entry: &Entry)
    requires row { 0 < row.now.table_id.words }
    requires own { keeper.old.table_id ≡ row.now.table_id }
    requires entry { M.entry ≡ entry.now }
    requires guest { HasGuest keeper.old.me }
    requires may { MayMake (caller_in keeper.old.me.0) entry.now }
    ensures keeper { SeatBecomes keeper.old keeper.new (after_entry entry.now keeper.old.me) }
    ensures goes_on { AllGoOn keeper.old.me.0.callers keeper.old.me.0.log }
{
    row.load::<Enter<M>>(keeper, 0);
}

/// The caller's entry is made: its view goes to the keeper's seat, grows there with the log, and comes back.
pub fn record(row: &Row, keeper: &mut TableSeat, caller: &mut TableSeat, entry: &Entry)
    requires row { 0 < row.now.table_id.words }
    requires own { (keeper.old.table_id ≡ row.now.table_id) × (caller.old.table_id ≡ row.now.table_id) }
    requires keeper { IsKeeper keeper.old.me }
    requires caller { IsOne caller.old.me }
    requires may { MayMake (caller_in caller.old.me.0) entry.now }
    ensures keeper { SeatBecomes keeper.old keeper.new (keeps (log_with entry.now keeper.old.me.0)) }
    ensures caller { SeatBecomes caller.old caller.new (sees_with entry.now keeper.old.me caller.old.me) }
    ensures goes_on { GoesOn (caller_in caller.old.me.0) keeper.old.me.0.log }
{
    hand(row, caller, keeper);
    enter::<Brand>(row, keeper, entry);
    hand(row, keeper, caller);
}

/// The caller learns the log.
pub fn look(row: &Row, keeper: &mut TableSeat, caller: &mut TableSeat)
    requires row { 0 < row.now.table_id.words }
    requires own { (keeper.old.table_id ≡ row.now.table_id) × (caller.old.table_id ≡ row.now.table_id) }
    requires keeper { IsKeeper keeper.old.me }
    requires caller { IsOne caller.old.me }
    ensures keeper { SeatBecomes keeper.old keeper.new keeper.old.me }
    ensures caller { SeatBecomes caller.old caller.new (sees keeper.old.me.0.log caller.old.me) }
    ensures goes_on { GoesOn (caller_in caller.old.me.0) keeper.old.me.0.log }
{
    hand(row, caller, keeper);
    row.load::<Learn>(keeper, 0);
    hand(row, keeper, caller);
}
