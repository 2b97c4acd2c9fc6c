//! The last accesses, word by word.
ghost use Rattle.std.specs.Prelude.{◌≡◌, ◌<◌, ◌/◌, ◌%◌, [], IfOk, OnOk, length, replicate};
ghost use Rattle.std.specs.List.{fold};
ghost use Rattle.race_history.specs.Lasts.{keeping, kept, list_for, table, with_last};

use crate::access::{ThreadAccess, is_same};
use std::alloc::{AllocError, Global};

/// The last place at which an access was made.
#[derive(Clone, Copy)]
pub(crate) struct Last {
    pub(crate) place: usize,
    pub(crate) access: ThreadAccess,
}

/// Of each access that was made the last place. Those of one aligned 8-byte word stand in one list, maybe with those of
/// other words and locations.
#[derive(Drop)]
pub(crate) struct Lasts {
    pub(crate) lists: Vec<Vec<Last>>,
}

/// Which of so many lists the accesses to a byte's word stand in.
fn list_of(addr: u64, lists: usize) -> usize
    requires { 0 < lists }
    ensures at { result ≡ addr / 8 % lists }
    ensures within { result < lists }
{
    (addr / 8 % lists as u64) as usize
}

/// A list has one more behind it, and none of the same access any more.
fn put(list: &mut Vec<Last>, last: Last) -> Result<(), AllocError>
    ensures { OnOk result (list.new.items ≡ with_last last list.old.items) }
{
    list.retain(|x| !is_same(&x.access, &last.access));
    list.push(last)?;
    Ok(())
}

impl Lasts {
    /// Of no access, in so many lists.
    pub(crate) fn new(alloc: Global, lists: usize) -> Result<Lasts, AllocError>
        ensures { IfOk result (λ lasts. table lasts ≡ replicate lists []) }
    {
        let mut all = Vec::with_capacity(alloc, lists)?;
        for _ in 0..lists {
            all.push(Vec::new(alloc))?;
        }
        Ok(Lasts { lists: all })
    }

    /// Those near a byte: at least those of its word.
    pub(crate) fn near(&self, addr: u64) -> &[Last]
        requires { 0 < length (table self.now) }
        ensures { result.now ≡ list_for (table self.now) addr }
    {
        let k = list_of(addr, self.lists.len());
        self.lists[k].as_slice()
    }

    /// Keeps an access, which is behind all those before.
    fn keep(&mut self, last: Last) -> Result<(), AllocError>
        requires { 0 < length (table self.old) }
        ensures { OnOk result (table self.new ≡ kept (table self.old) last) }
    {
        let k = list_of(last.access.addr, self.lists.len());
        put(&mut self.lists[k], last)
    }

    /// Keeps the accesses of the entry at a place, which is behind all those before.
    pub(crate) fn keep_all(
        &mut self,
        place: usize,
        accesses: &[ThreadAccess],
    ) -> Result<(), AllocError>
        requires { 0 < length (table self.old) }
        ensures { OnOk result (table self.new ≡ fold (keeping place) (table self.old) accesses.now) }
    {
        for access in accesses {
            self.keep(Last {
                place,
                access: *access,
            })?;
        }
        Ok(())
    }
}
