//! A run of a module along a strategy.
ghost use Rattle.std.specs.Prelude.{◌≡◌, IfErr, IfOk, OnOk};
ghost use Rattle.types.specs.declared.limits.TheConstants.{MOST_PAGES};
ghost use Rattle.validate_typing.specs.Validity.{HasDistinctNames};
ghost use Rattle.validate_module.specs.Pages.{HasPagesWithin};
ghost use Rattle.interp.specs.Threads.{meaning_in};
ghost use Rattle.replay.specs.Runs.{IsRunOf};
ghost use Rattle.search_scheduled.specs.Headers.{IsOfRequest};
ghost use Rattle.search_scheduled.specs.Heard.{IsHeardRun};
ghost use Rattle.search_scheduled.specs.Led.{IsGivenUpRun, IsLedRun};
ghost use Rattle.search_scheduled.specs.Nowhere.{HasNoEnd};
ghost use Rattle.search_scheduled.specs.SpareThreads.{HasBegunFor, HoldsSpares};

use crate::Course;
use crate::concluding::{Concluded, conclude};
use crate::ear::Places;
use crate::fault::SearchFault;
use crate::threads::{Spares, opening, threads_of};
use interp::Thread;
use replay_text::{Record, RecordParts, Version};
use search_strategies::Strategy;
use spawn_host::{EndState, Request};
use std::alloc::{AllocError, Global};
use types::{MOST_PAGES, MOST_THREADS, Name, Sequence};
use validate_module::ValidModule;

/// A run that was made: its record, what it left, and where the threads of its entries stood, if that was heard.
#[derive(Drop)]
pub struct MadeRun {
    pub record: Record,
    pub end: EndState,
    pub heard: Places,
}

/// A valid module's memory has no more pages than any may have. It does nothing else.
fn show_pages_fit(module: &ValidModule)
    ensures { HasPagesWithin MOST_PAGES «module».now.parts }
{
    let _parts = module.parts();
}

/// No two exports of a valid module have one name. It does nothing else.
fn show_distinct_names(module: &ValidModule)
    ensures { HasDistinctNames «module».now.parts.exports }
{
    let _parts = module.parts();
}

/// The parts of a record before the first turn: its header alone.
fn header_of(alloc: Global, request: &Request, limit: u32) -> Result<RecordParts, AllocError>
    ensures { IfOk result (IsOfRequest request.now limit) }
{
    let call = request.call();
    Ok(RecordParts {
        version: Version::Two,
        module_len: request.module().parts().length,
        threads: MOST_THREADS as u32,
        max_pages: MOST_PAGES,
        invoke: Name::from_string(String::from_str(alloc, call.name)?),
        args: Sequence::from_vec(Vec::from_slice(alloc, call.args)?),
        fuel: call.fuel,
        limit,
        log: Sequence::from_vec(Vec::new(alloc)),
        ends: Sequence::from_vec(Vec::new(alloc)),
        pages: 0,
    })
}

/// Makes the call of a request by one thread: before each event the strategy says which thread makes it, of those that
/// can go on. A thread takes an answer as soon as that is due. The limit is 1 to 1,000,000 entries, and the fuel of the
/// call 0 to 1,000,000,000,000 units.
///
/// The record is of a run of the module that ends so, and its log is the one to which the strategy leads. It is of
/// version 2, and says that there may be 64 threads and 256 pages.
///
/// # Errors
/// `NoEnd` where no record tells such a run, as where a number is out of its range; `GivenUp` where the strategy gives the run up, `NoMemory`.
pub fn run_along<S: Strategy>(
    alloc: Global,
    request: &Request,
    limit: u32,
    strategy: &mut S,
) -> Result<MadeRun, SearchFault>
    ensures header { IfOk result (λ made. IsOfRequest request.now limit made.record) }
    ensures run { IfOk result (λ made. IsRunOf request.now.parts made.record made.end) }
    ensures heard { IfOk result (λ made. IsHeardRun request.now limit made.record made.heard) }
    ensures led { IfOk result (λ made.
        IsLedRun S.chooses S.hears request.now limit strategy.old strategy.new made.record) }
    ensures given_up { IfErr result (λ fault. fault ≡ SearchFault.GivenUp
        → IsGivenUpRun S.chooses S.hears request.now limit S.may_end strategy.old strategy.new) }
    ensures no_end { IfErr result (λ fault. fault ≡ SearchFault.NoEnd
        → HasNoEnd request.now limit S.chooses S.hears strategy.old) }
{
    run_with_spares(
        alloc,
        request,
        limit,
        false,
        strategy,
        &mut Spares::new(alloc),
    )
}

/// A course before the first turn.
fn course_of<'m>(
    alloc: Global,
    request: &Request<'m, '_>,
    limit: u32,
    spares: &mut Spares<'m>,
) -> Result<Course<Thread<'m>>, SearchFault>
    requires spares { HoldsSpares request.now.parts request.now.fuel spares.old }
    ensures begun { IfOk result (HasBegunFor meaning_in request.now limit) }
    ensures limit { IfOk result (λ course. course.limit ≡ limit) }
    ensures fault { IfErr result (λ fault. fault ≡ SearchFault.NoMemory) }
    ensures spares { OnOk result (HoldsSpares request.now.parts request.now.fuel spares.new) }
{
    let module = request.module();
    show_distinct_names(module);
    let threads = threads_of(alloc, request, &mut spares.threads)?;
    let memory = opening(alloc, module, &mut spares.image)?;
    Ok(Course::new(alloc, threads, memory, request.call().fuel, limit))
}

/// `run_along` with the threads that the runs before it didn't start: those of this run that aren't started are given
/// back. Where that is asked for, it is heard of each entry where its thread stands.
///
/// # Errors
/// As of `run_along`.
pub fn run_with_spares<'m, S: Strategy>(
    alloc: Global,
    request: &Request<'m, '_>,
    limit: u32,
    hears: bool,
    strategy: &mut S,
    spares: &mut Spares<'m>,
) -> Result<MadeRun, SearchFault>
    requires spares { HoldsSpares request.now.parts request.now.fuel spares.old }
    ensures header { IfOk result (λ made. IsOfRequest request.now limit made.record) }
    ensures run { IfOk result (λ made. IsRunOf request.now.parts made.record made.end) }
    ensures heard { IfOk result (λ made. IsHeardRun request.now limit made.record made.heard) }
    ensures led { IfOk result (λ made.
        IsLedRun S.chooses S.hears request.now limit strategy.old strategy.new made.record) }
    ensures given_up { IfErr result (λ fault. fault ≡ SearchFault.GivenUp
        → IsGivenUpRun S.chooses S.hears request.now limit S.may_end strategy.old strategy.new) }
    ensures no_end { IfErr result (λ fault. fault ≡ SearchFault.NoEnd
        → HasNoEnd request.now limit S.chooses S.hears strategy.old) }
    ensures spares { OnOk result (HoldsSpares request.now.parts request.now.fuel spares.new) }
{
    let module = request.module();
    show_distinct_names(module);
    show_pages_fit(module);
    let header = header_of(alloc, request, limit)?;
    let mut course = course_of(alloc, request, limit, spares)?;
    let mut heard = Places::new(alloc, hears);
    course.go(strategy, &mut heard)?;
    let Concluded { parts, end, unused } = conclude(alloc, course, header)?;
    spares.take_back(module, unused)?;
    match Record::new(parts) {
        Ok(record) => Ok(MadeRun { record, end, heard }),
        Err(_) => Err(SearchFault::NoEnd),
    }
}
