//! Who says of a run whether it is looked for.
ghost use Rattle.std.specs.Prelude.{◌≡◌, ◌↔◌, ℕ, Bool, IfOk, true};
ghost use Rattle.search_finds.specs.Finds.{IsFind};

use crate::{ending_of, is_looked_for};
use search_endings::Ending;
use search_scheduled::MadeRun;
use selection::Sought;
use spawn_host::Request;
use std::alloc::{AllocError, Global};

/// Says of each run that is made whether it is the one that is looked for.
pub trait Judges {
    ghost use Rattle.spawn_host.specs.Requests.{Requested};
    ghost use Rattle.search_scheduled.specs.declared.running.MadeRun.{MadeRun};

    /// What its answer says of a run of what is requested.
    ghost judges: { Self → Requested → MadeRun → Bool → Type 0 };

    /// Whether it is to be heard where threads stand, while a run is made.
    fn hears(&self) -> bool;

    /// Whether a run of what is requested is looked for.
    ///
    /// # Errors
    /// Where memory is refused.
    fn is_sought(
        &self,
        alloc: Global,
        request: &Request,
        made: &MadeRun,
    ) -> Result<bool, AllocError>
        requires { (limit : ℕ) × IsFind request.now limit made.now }
        ensures { IfOk result (judges self.now request.now made.now) };
}

/// Looks for a run that ends so.
#[derive(Clone, Copy)]
pub(crate) struct EndsSo<'a> {
    pub(crate) sought: &'a Sought<'a>,
}

impl Judges for EndsSo<'_> {
    ghost use Rattle.search_finds.specs.Finds.{EndsAsLookedFor};

    ghost judges = { λ j q made is. (is ≡ true) ↔ EndsAsLookedFor j.sought.now j.sought.now.dump made.end };

    fn hears(&self) -> bool {
        false
    }

    fn is_sought(
        &self,
        alloc: Global,
        _request: &Request,
        made: &MadeRun,
    ) -> Result<bool, AllocError> {
        let ending = ending_of(alloc, &made.end, self.sought.dump)?;
        is_looked_for(alloc, self.sought, &ending)
    }
}

/// Looks for a run that has this ending, by so many first bytes of the memory.
#[derive(Clone, Copy)]
pub(crate) struct EndsAlike<'a> {
    pub(crate) ending: &'a Ending,
    pub(crate) dump: u32,
}

impl Judges for EndsAlike<'_> {
    ghost use Rattle.search_finds.specs.Endings.{ending_left};

    ghost judges = { λ j q made is. (is ≡ true) ↔ (ending_left j.dump made.end ≡ j.ending.now) };

    fn hears(&self) -> bool {
        false
    }

    fn is_sought(
        &self,
        alloc: Global,
        _request: &Request,
        made: &MadeRun,
    ) -> Result<bool, AllocError> {
        let ending = ending_of(alloc, &made.end, self.dump)?;
        Ok(ending == *self.ending)
    }
}
