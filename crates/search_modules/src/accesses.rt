//! What the threads of a module do with the memory next.

use crate::called::Searched;
use search_parts::{Common, SharedWalker, next_access};
use search_race_free::Accesses;
use search_settled::NextAccess;
use std::alloc::{AllocError, Global};

impl Accesses for Searched<'_> {
    ghost use Rattle.std.specs.Prelude.{length};
    ghost use Rattle.search_modules.specs.Moved.{called};
    ghost use Rattle.search_runs.proofs.Accessing.{plain, beyond, finished};

    ghost plain = { λ t. plain (called t) t.allowed (length t.opening.items) };

    ghost beyond = { λ t. beyond (called t) t.allowed (length t.opening.items) };

    ghost finished = { λ t. finished (called t) t.allowed (length t.opening.items) t.dump };

    fn access(
        &self,
        _alloc: Global,
        shared: &Common,
        thread: &SharedWalker,
        n: usize,
    ) -> Result<Option<NextAccess>, AllocError> {
        Ok(next_access(
            self.valid,
            &self.allowed,
            self.opening.as_slice(),
            shared,
            thread.walker(),
            n,
        ))
    }
}
