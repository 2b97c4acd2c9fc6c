//! How endings are noted.
ghost use Rattle.std.specs.Prelude.{◌≡◌, ◌<◌, ◌^◌, ◌-◌, IfOk, IfErr, MatchOption, []};
ghost use Rattle.search_finds.specs.Tables.{IsNewTo, HasRowAt, IsNoted, IsMetAgain};

use crate::met::{EndingTable, Met};
use search_endings::Ending;
use std::alloc::{AllocError, Global};

impl EndingTable {
    /// Before the first run.
    pub fn new(alloc: Global) -> EndingTable
        ensures { (result.runs ≡ 0) × (result.met.items ≡ []) }
    {
        EndingTable {
            met: Vec::new(alloc),
            runs: 0,
        }
    }

    /// Where an ending stands that was met before.
    fn place_of(&self, ending: &Ending) -> Option<usize>
        ensures { MatchOption result (IsNewTo self.now ending.now) (HasRowAt self.now ending.now) }
    {
        for (place, met) in self.met.iter().enumerate() {
            if met.ending == *ending {
                return Some(place);
            }
        }
        None
    }

    /// Notes the ending of a run, and says whether it is new. Fewer than 2^64 - 1 runs were noted before.
    ///
    /// # Errors
    /// Where memory is refused; then the table is as it was.
    pub fn note(&mut self, run: u64, ending: Ending) -> Result<bool, AllocError>
        requires { self.old.runs < 2 ^ 64 - 1 }
        ensures noted { IfOk result (λ is_new. IsNoted run ending is_new self.old self.new) }
        ensures refused { IfErr result (λ _. (self.new.runs ≡ self.old.runs)
            × (self.new.met.items ≡ self.old.met.items)) }
    {
        match self.place_of(&ending) {
            Some(place) => {
                self.runs += 1;
                self.met[place].times += 1;
                Ok(false)
            }
            None => {
                self.met.reserve(1)?;
                self.met.push_reserved(Met {
                    ending,
                    times: 1,
                    first: run,
                });
                self.runs += 1;
                Ok(true)
            }
        }
    }
}
