//! Threads that find turns ahead.

use crate::called::Searched;
use search_parts::{Common, SharedWalker};
use search_race_free::{Ahead, KnownTables, MakesAhead, made_ahead};
use std::alloc::{AllocError, Global};
use std::thread::Threads;

/// So many threads, which find turns of states that a search met ahead of it. What it answers is the same for any number.
#[derive(Drop)]
pub struct Hands<'r, R> {
    pub rt: &'r R,
    pub jobs: usize,
}

impl<R: Threads + Sync> MakesAhead<Searched<'_>> for Hands<'_, R> {
    ghost use denote.Param.Send.{IsSync};
    ghost use Rattle.search_race_free.proofs.Crossing.{sync-fact};

    ghost ready = { λ h. IsSync R.row };

    ghost fact = { λ h ready. sync-fact ready };

    fn ahead(
        &self,
        alloc: Global,
        system: &Searched<'_>,
        tables: &KnownTables<Common, SharedWalker>,
        from: usize,
        most_plain: u32,
    ) -> Result<Ahead<Common, SharedWalker>, AllocError> {
        made_ahead(self.rt, self.jobs, alloc, system, tables, from, most_plain)
    }
}
