//! The recorder.
ghost use Rattle.std.specs.Prelude.{◌≡◌, ◌<◌, IfOk, IsOkUnless, All, map, vec_capacity};
ghost use Rattle.types.specs.declared.limits.TheConstants.{SEATS};
ghost use Rattle.shared_memory.specs.Memory.{IsWhole};
ghost use Rattle.shared_memory_on_table.specs.Callers.{fresh_from};
ghost use Rattle.locked_recorder.specs.Promises.{Begins, IsRecord, IsBounded};

use crate::LockedSeat;
use crate::keeper::{Finished, Keeper, check_all};
use crate::prepared::Prepared;
use crate::rule::{Board, Unmoved};
use shared_memory::SharedMemory;
use shared_memory_on_table::{Naming, meet, take_seats};
use shared_memory_sequential::OpenFault;
use std::alloc::Global;
use std::marker::PhantomData;
use std::sync::{Mutex, Wait};
use types::{Event, Reply};

/// A memory that threads share by a lock, with the log of all entries. It is shared by reference.
#[derive(Drop)]
pub struct LockedRecorder<B: Naming, W: Wait + Drop> {
    board: Board,
    keeper: Mutex<Keeper<B>>,
    limit: u32,
    pages_max: u32,
    rt: W,
    ghost here: { board.shared.table_id ≡ B.table },
    ghost word: { 0 < board.shared.table_id.words },
    ghost limited: { limit ≡ B.limit },
    ghost sized: { pages_max ≡ B.opening.max },
    ghost whole: { IsWhole B.opening },
}

impl<B: Naming, W: Wait + Drop> LockedRecorder<B, W> {
    /// Opens a prepared recorder under its name, with 65 seats in order of name: 0 to 63 for threads, and 64 for the
    /// desk, which alone has the queue right. No seat has seen an entry. By `rt` its calls may wait for the lock.
    ///
    /// # Errors
    /// `NoMemory` where the room for the seats can't be had.
    pub fn open(
        alloc: Global,
        rt: W,
        prepared: Prepared,
    ) -> Result<(LockedRecorder<B, W>, Vec<LockedSeat<B>>), OpenFault>
        requires table { prepared.table ≡ B.table }
        requires opening { prepared.opening ≡ B.opening }
        requires limit { prepared.limit ≡ B.limit }
        ensures seats { IfOk result (λ r. map (λ s. s.caller) r.1.items ≡ fresh_from SEATS 0) }
        ensures room { IfOk result (λ r. vec_capacity r.1 ≡ SEATS) }
        ensures fault { IsOkUnless result OpenFault.NoMemory }
    {
        let Prepared {
            board,
            keeper: mut place,
            memory,
            limit,
            log,
        } = prepared;
        let pages_max = memory.max();
        let Ok(seats) = take_seats::<B, (), Unmoved>(alloc, &board.shared, &mut place) else {
            return Err(OpenFault::NoMemory);
        };
        let keeper = Keeper {
            place,
            memory,
            limit,
            log,
            of: PhantomData,
        };
        Ok((
            LockedRecorder {
                board,
                keeper: Mutex::new(keeper),
                limit,
                pages_max,
                rt,
            },
            seats,
        ))
    }

    /// Gives up the recorder and all its seats for the log and the memory after it. The list of each seat begins the
    /// log, and the log has of its name what it has. The log has at most 192 entries above its limit, and the memory at
    /// most 256 pages.
    pub fn finish(self, seats: Vec<LockedSeat<B>>) -> Finished
        ensures seats { All (λ s. Begins s.caller result.log.items) seats.items }
        ensures record { IsRecord B.opening result.log.items result.pages result.bytes.items }
        ensures bounds { IsBounded B.limit result.log.items result.pages }
    {
        let LockedRecorder {
            board,
            keeper: locked,
            limit: _,
            pages_max: _,
            rt: _,
        } = self;
        let mut keeper = locked.into_inner();
        check_all(&board.shared, &mut keeper, seats);
        keeper.finish()
    }
}

impl<B: Naming + Send + Sync, W: Wait + Drop> SharedMemory for LockedRecorder<B, W> {
    type Seat = LockedSeat<B>;

    ghost use Rattle.std.specs.Prelude.{false, Some};
    ghost use Rattle.std.proofs.Common.{refl};

    const LOSES: bool = false;

    ghost LOSES = { false };

    ghost opening = { B.opening };

    ghost limit = { λ m. Some B.limit };

    ghost pages_max = { λ m. B.opening.max };

    ghost name = { λ s. s.caller.name };

    ghost seen = { λ s. s.caller.seen };

    ghost has_queue_right = { λ s. s.caller.has_queue_right };

    ghost lost = { λ s. s.caller.lost };

    ghost names = { λ s. s.known };

    ghost most = { λ m. refl };

    ghost whole = { λ m. m.whole };

    fn access(&self, seat: &mut LockedSeat<B>, event: Event) -> Reply {
        self.keeper
            .lock(&self.rt)
            .access(&self.board.shared, &mut seat.caller, event)
    }

    fn meet(&self, a: &mut LockedSeat<B>, b: &mut LockedSeat<B>) {
        meet(&self.board.shared, &mut a.caller, &mut b.caller);
    }

    fn name(&self, seat: &LockedSeat<B>) -> u32 {
        seat.caller.name()
    }

    fn limit(&self) -> Option<u32> {
        Some(self.limit)
    }

    fn pages_max(&self) -> u32 {
        self.pages_max
    }
}
