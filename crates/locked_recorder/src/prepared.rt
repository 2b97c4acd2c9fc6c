//! The opening of a recorder, up to its name.
ghost use Rattle.std.specs.Prelude.{◌≡◌, ◌↔◌, true, false, IfOk, OnOk, IsErrOf};
ghost use Rattle.locked_recorder.specs.Promises.{IsOpenedFrom, can_record};

use crate::rule::Board;
use shared_memory_on_table::TableSeat;
use shared_memory_sequential::{OneMemory, OpenFault};
use std::alloc::Global;
use std::marker::Model;
use types::{Entry, MOST_LIMIT, PAST_LIMIT};

/// A recorder that has no name yet. Contracts see by what it is to be named: its table, the memory before any entry,
/// and the limit of its log.
#[derive(Drop)]
pub struct Prepared {
    pub(crate) board: Board,
    pub(crate) keeper: TableSeat,
    pub(crate) memory: OneMemory,
    pub(crate) limit: u32,
    pub(crate) log: Vec<Entry>,
}

impl Model for Prepared {
    ghost use Rattle.std.specs.Prelude.{vec_capacity};
    ghost use Rattle.shared_memory_on_table.specs.Names.{MemoryName};
    ghost use Rattle.locked_recorder.specs.Promises.{IsPrepared};

    ghost Value = { MemoryName };

    ghost view = { λ p. record { table = p.board.shared.table_id; opening = p.memory; limit = p.limit } };

    ghost invariant = { λ p. IsPrepared p.board.shared.table_id p.keeper.table_id p.keeper.me p.limit
        (vec_capacity p.log) p.log.items };
}

impl Prepared {
    /// Prepares a recorder over a memory of these bytes and at most `max` pages, whose log takes `limit` entries, and
    /// past it only `Told` and the question `Leave`. All that later calls need is reserved here and by
    /// `LockedRecorder::open`, and no more: room for `limit` and 192 entries.
    ///
    /// # Errors
    /// `PastLimit` exactly where the image isn't whole pages of 65,536 bytes or passes `max` pages, `max` passes 256,
    /// or `limit` isn't 1 to 1,000,000; otherwise `NoMemory` where the room can't be had.
    pub fn new(alloc: Global, image: &[u8], max: u32, limit: u32) -> Result<Prepared, OpenFault>
        ensures opened { IfOk result (IsOpenedFrom image.now max limit) }
        ensures within { OnOk result (can_record image.now max limit ≡ true) }
        ensures past_limit { IsErrOf result OpenFault.PastLimit ↔ (can_record image.now max limit ≡ false) }
    {
        if limit == 0 || limit > MOST_LIMIT {
            return Err(OpenFault::PastLimit);
        }
        let memory = OneMemory::open(alloc, image, max)?;
        let Ok(log) = Vec::with_capacity(alloc, limit as usize + PAST_LIMIT) else {
            return Err(OpenFault::NoMemory);
        };
        let Ok((board, keeper)) = Board::of_words(alloc, &[0], &()) else {
            return Err(OpenFault::NoMemory);
        };
        Ok(Prepared {
            board,
            keeper,
            memory,
            limit,
            log,
        })
    }
}
