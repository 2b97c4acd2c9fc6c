//! Whether a run has a race: one that was made, or a recorded one.
ghost use Rattle.std.specs.Prelude.{◌≡◌, ◌≤◌, ◌<◌, ℕ, IfOk, true, false, length, map};
ghost use Rattle.shared_memory.specs.History.{AreEntries};
ghost use Rattle.shared_memory.specs.Legal.{IsQueueLegal};
ghost use Rattle.show_races.specs.Sites.{opening_of as opening_by, opening_shown, sites_shown};
ghost use Rattle.search_finds.specs.Finds.{IsFind};
ghost use Rattle.search_races.specs.Heard.{row_heard};
ghost use Rattle.show_races.specs.Races.{Says, SaysOfRun};
ghost use Rattle.show_races.specs.Rows.{sites_of as sites_by};

use allowed_races::Allowed;
use interp::CodePlace;
use race_history::{Race, is_history, races_of};
use replay_text::Record;
use search_finds::Judges;
use search_scheduled::MadeRun;
use show_races::{opening_of, sites_of, watched};
use show_rows::{CodeMap, Row, Shown};
use spawn_host::Request;
use std::alloc::{AllocError, Global};
use validate_module::ValidModule;

/// Whether races are named.
fn is_any(pairs: &[Race]) -> bool
    ensures some { result ≡ true → 1 ≤ length pairs.now }
    ensures none { result ≡ false → length pairs.now < 1 }
{
    pairs.len() >= 1
}

/// Whether two accesses of a record's run race that may not.
fn is_racy(alloc: Global, shown: Shown, allowed: &Allowed) -> Result<bool, AllocError>
    requires entries { AreEntries shown.record.now.log }
    requires legal { IsQueueLegal shown.record.now.log }
    ensures { IfOk result (Says shown.entry.record.now.log (sites_shown allowed.now shown.entry) (opening_shown shown.entry)) }
{
    let sites = sites_of(alloc, shown, allowed)?;
    let opening = opening_of(alloc, shown.code.parts())?;
    let log = shown.record.log.as_slice();
    let races = races_of(alloc, log, sites.as_slice(), opening, 1)?;
    Ok(is_any(races.pairs.as_slice()))
}

/// Whether two accesses of a recorded run race, where its threads stand as these rows say.
fn is_racy_by(
    alloc: Global,
    module: &ValidModule,
    record: &Record,
    rows: &[Option<Row>],
    allowed: &Allowed,
) -> Result<bool, AllocError>
    ensures { IfOk result (Says «record».now.log
        (sites_by allowed.now «module».now.parts «record».now rows.now) (opening_by «module».now.parts)) }
{
    let code = CodeMap::read(alloc, module.parts(), &[], &[])?;
    let shown = Shown {
        record: record.parts(),
        rows,
        code: &code,
    };
    if !is_history(shown.record.log.as_slice()) {
        return Err(AllocError);
    }
    is_racy(alloc, shown, allowed)
}

/// Whether two accesses of a recorded run of a module race that may not, as a replay of it says where its threads stand.
///
/// # Errors
/// Where memory is refused.
pub fn has_race(
    alloc: Global,
    module: &ValidModule,
    record: &Record,
    allowed: &Allowed,
) -> Result<bool, AllocError>
    ensures { IfOk result (SaysOfRun allowed.now «module».now.parts «record».now) }
{
    let Ok(rows) = watched(alloc, module, record) else {
        return Err(AllocError);
    };
    is_racy_by(alloc, module, record, rows.as_slice(), allowed)
}

/// The rows of entries of which it was heard where their threads stood.
fn rows_heard(alloc: Global, places: &[CodePlace]) -> Result<Vec<Option<Row>>, AllocError>
    ensures { IfOk result (λ rows. rows.items ≡ map row_heard places.now) }
{
    places
        .iter()
        .map(|place| {
            Some(Row {
                place: *place,
                caller: None,
                before: None,
            })
        })
        .collect(alloc)
}

/// Whether two accesses of a run race of which it was heard, while it was made, where its threads stood.
fn has_heard_race(
    alloc: Global,
    request: &Request,
    made: &MadeRun,
    allowed: &Allowed,
) -> Result<bool, AllocError>
    requires find { (limit : ℕ) × IsFind request.now limit made.now }
    requires heard { made.now.heard.hears ≡ true }
    ensures { IfOk result (SaysOfRun allowed.now request.now.parts made.now.record) }
{
    let rows = rows_heard(alloc, made.heard.places.as_slice())?;
    is_racy_by(
        alloc,
        request.module(),
        &made.record,
        rows.as_slice(),
        allowed,
    )
}

/// Looks for a run of a module in which two accesses race that may not. It is heard where threads stand while a run is made, so that no
/// run is replayed.
#[derive(Clone, Copy)]
pub struct RaceJudge<'a> {
    pub allowed: Allowed<'a>,
}

impl Judges for RaceJudge<'_> {
    ghost use Rattle.show_races.specs.Races.{SaysOfRun};

    ghost judges = { λ j q made is. SaysOfRun j.allowed q.parts made.record is };

    fn hears(&self) -> bool {
        true
    }

    fn is_sought(
        &self,
        alloc: Global,
        request: &Request,
        made: &MadeRun,
    ) -> Result<bool, AllocError> {
        if made.heard.hears {
            return has_heard_race(alloc, request, made, &self.allowed);
        }
        has_race(alloc, request.module(), &made.record, &self.allowed)
    }
}
