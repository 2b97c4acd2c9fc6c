//! A thread at rest that several states share.

ghost use Rattle.std.specs.Prelude.{◌≡◌, IfOk};

use crate::shared::HashedThread;
use crate::walker::RestingThread;
use std::alloc::{AllocError, Global};
use std::hash::{Hash, Hasher};
use std::marker::Model;
use std::sync::Arc;

/// A thread at rest, kept once for all states to which nothing happened to it from one to the next.
#[derive(Drop)]
pub struct SharedWalker {
    walker: Arc<HashedThread, Global>,
}

impl Model for SharedWalker {
    ghost use Rattle.search_parts.specs.declared.shared.HashedThread as walkers;

    ghost Value = { walkers.HashedThread };

    ghost view = { λ s. s.walker.value };
}

impl SharedWalker {
    /// A thread that one state has.
    ///
    /// # Errors
    /// Where memory is refused.
    pub fn new(alloc: Global, standing: RestingThread) -> Result<SharedWalker, AllocError>
        ensures { IfOk result (λ t. t.standing ≡ standing) }
    {
        let walker = Arc::new(alloc, HashedThread::new(standing))?;
        Ok(SharedWalker { walker })
    }

    /// The same thread for one state more.
    ///
    /// # Errors
    /// Where no more states can have it.
    pub fn share(&self) -> Result<SharedWalker, AllocError>
        ensures { IfOk result (λ t. t ≡ self.now) }
    {
        let walker = self.walker.clone()?;
        Ok(SharedWalker { walker })
    }

    /// The thread itself.
    pub fn walker(&self) -> &HashedThread
        ensures { result.now ≡ self.now }
    {
        &*self.walker
    }
}

impl PartialEq for SharedWalker {
    ghost use Rattle.std.specs.Cmp.{partial_equiv_from_equiv};
    ghost use Rattle.search_parts.specs.contracts.shared.HashedThreadPartialEq.TheImpl as walkers;
    ghost use Rattle.search_parts.specs.contracts.shared.HashedThreadEq.TheImpl.Laws.{laws-law};

    ghost eq = { walkers.eq-value.it };

    ghost laws = { partial_equiv_from_equiv laws-law };

    fn eq(&self, other: &SharedWalker) -> bool {
        self.walker() == other.walker()
    }
}

impl Eq for SharedWalker {
    ghost use Rattle.search_parts.specs.contracts.shared.HashedThreadEq.TheImpl.Laws.{laws-law};

    ghost laws = { laws-law };
}

impl Hash for SharedWalker {
    ghost use Rattle.std.specs.Prelude.{nat_eq};
    ghost use Rattle.std.specs.Cmp.{first_so};
    ghost use Rattle.std.specs.Hash as fed;
    ghost use Rattle.std.proofs.Common.{ap};
    ghost use Rattle.std.proofs.lemmas.Bool.{eqb-true};
    ghost use Rattle.search_parts.specs.contracts.walker.RestingThreadPartialEq.TheImpl as standings;

    ghost hash_input = { λ t. fed.u64 t.digest };

    ghost respects_eq = { λ x y same. ap fed.u64
        (eqb-true x.digest y.digest (first_so (nat_eq x.digest y.digest) (standings.eq-value.it x.standing y.standing) same)) };

    fn hash<H: Hasher>(&self, state: &mut H) {
        self.walker().digest.hash(state);
    }
}
