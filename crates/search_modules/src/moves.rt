//! The threads of a module, moved one by one.

use crate::after::{begun_after, thread_after};
use crate::beginning::first_flat;
use crate::called::Searched;
use search_endings::Ending;
use search_parts::{Common, Effect, SharedWalker, ending_at, is_untouched, make_event};
use search_settled::{Moves, RestingState};
use std::alloc::{AllocError, Global};

impl Moves for Searched<'_> {
    ghost use Rattle.types.specs.declared.event.Event.{Event};
    ghost use Rattle.types.specs.declared.event.Reply.{Reply};
    ghost use Rattle.types.specs.declared.event.Answer.{Answer};
    ghost use Rattle.schedule_threads.specs.Shared.{Shared};
    ghost use Rattle.search_runs.specs.Called.{Walker as Thread};
    ghost use Rattle.search_runs.specs.Ends.{HasEndedSo};
    ghost use Rattle.search_modules.specs.Moved.{called, threads, IsStuck};
    ghost use Rattle.search_runs.proofs.Tame.{tame};
    ghost use Rattle.search_parts.proofs.Bounds.{bounded, over, same_shared, same_thread};

    type Shared = Common;

    type Thread = SharedWalker;

    type Effect = Effect;

    type Ending = Ending;

    ghost X = { Shared };

    ghost T = { Thread };

    ghost E = { Event };

    ghost V = { Reply };

    ghost A = { Answer };

    ghost threads = { threads };

    ghost ends = { λ t. HasEndedSo t.dump };

    ghost stuck = { IsStuck };

    ghost tame = { λ t. tame (called t) };

    ghost bounded = { λ t. bounded (called t) };

    ghost over = { λ t. over (called t) t.dump };

    ghost same_shared = { λ t. same_shared t.opening.items };

    ghost same_thread = { λ t. same_thread t.valid.now (called t) };

    fn first(
        &self,
        alloc: Global,
    ) -> Result<Option<RestingState<Common, SharedWalker>>, AllocError> {
        first_flat(alloc, self)
    }

    fn started(&self, shared: &Common) -> usize {
        shared.started()
    }

    fn event(
        &self,
        alloc: Global,
        shared: &Common,
        thread: &SharedWalker,
        n: usize,
    ) -> Result<Option<(Common, Effect)>, AllocError> {
        make_event(
            alloc,
            self.valid,
            self.opening.as_slice(),
            shared,
            thread.walker(),
            n,
        )
    }

    fn after(
        &self,
        alloc: Global,
        made: &Effect,
        n: usize,
        thread: &SharedWalker,
        m: usize,
    ) -> Result<Option<SharedWalker>, AllocError> {
        thread_after(alloc, self, made, n, thread, m)
    }

    fn hears(&self, made: &Effect, n: usize, m: usize) -> bool {
        !is_untouched(made, n, m)
    }

    fn share(&self, thread: &SharedWalker) -> Result<SharedWalker, AllocError> {
        thread.share()
    }

    fn copied(&self, alloc: Global, shared: &Common) -> Result<Common, AllocError> {
        shared.copy(alloc)
    }

    fn first_after(
        &self,
        alloc: Global,
        made: &Effect,
        n: usize,
        m: usize,
    ) -> Result<Option<SharedWalker>, AllocError> {
        begun_after(alloc, self, made, n, m)
    }

    fn ending(
        &self,
        alloc: Global,
        shared: &Common,
        each: &[SharedWalker],
    ) -> Result<Option<Ending>, AllocError> {
        ending_at(alloc, self.opening.as_slice(), shared, each, self.dump)
    }
}
