//! The entries of a record by the program, in words: what is printed, or why there is nothing to print.
ghost use Rattle.std.specs.Prelude.{◌≡◌, ℕ, List, IfOk, IfErr, is_some, false};
ghost use Rattle.types.specs.declared.parts.Parts.{Parts};
ghost use Rattle.report_jobs.specs.Jobs.{IsNoRecordOf, IsNoValidModule, IsUnfit, IsRecordOf, IsOfRun};
ghost use Rattle.report_jobs.specs.Prints.{changed};
ghost use Rattle.report_command.specs.Views.{path_of};
ghost use Rattle.report_jobs.specs.Silence.{IsRefusal, Stays};
ghost use Rattle.report_jobs.specs.Undone.{ended_status, undone_status};
ghost use Rattle.report_jobs.specs.Why.{RefusesModule, RefusesRecord};
ghost use Rattle.report_looks.specs.Looked as looked;
ghost use Rattle.report_looks.specs.Looked.{PrintsShow, shown_on};
ghost use Rattle.report_looks.specs.Raced.{IsSeen, OfModule};
ghost use Rattle.report_looks.specs.Silent.{IfUnshown, IsNoRefusal, IsShowStatus, IsUnshown};

use crate::printing::print_asked;
use crate::wanted::{Unshown, asked_of, no_memory};
use dwarf_lines::{SourceFile, Sources};
use replay_text::{Record, RecordFault, read_record};
use report_command::{RecordView, ShowLook};
use report_jobs::{
    Done, Refused, Streams, Undone, Unfit, load, misfit, of_refusal, of_unfit, said_in,
};
use show_moments::MomentView;
use show_named::DataMap;
use show_races::rows_seen;
use show_rows::{CodeMap, Row, Shown, Stood};
use show_said::read_own;
use show_text::Unwritten;
use std::alloc::{AllocError, Global};
use std::io::Write;
use validate_module::ValidModule;

/// Shows the entries of the record whose text `saved` is: each in words, with its place in the module. `how` may ask for
/// what threads and memory are like at a moment, for the last write of some bytes, for a page or for a trace, in place of
/// rows. A page and a trace are the file that it makes.
///
/// It is done only where the record is of a run of the module. A refusal is of the module (status 2), of bytes that are
/// the text of no record of a run of it (4), or says that the record is one and has not what is asked for (3). Then nothing
/// is written, and where no page and no trace is asked for the file's writer stays as it is.
///
/// # Errors
/// The refusal; or that memory or a stream failed.
pub fn show_saved<'a, W: Write, E: Write, S: Write>(
    alloc: Global,
    code: CodeBytes,
    saved: &[u8],
    how: &ShowLook<'a>,
    streams: &mut Streams<W, E, S>,
) -> Result<Done, Undone<'a>>
    ensures shown { ended_status result ≡ 0 → IsRecordOf code.entry.«module».now saved.now }
    ensures prints { ended_status result ≡ 0
        → OfModule (PrintsShow code.entry.«module».now how.now (shown_on W.contents S.contents how.now streams.old streams.new))
        code.entry.«module».now saved.now }
    ensures done { IfOk result (λ done. done.status ≡ 0) }
    ensures refused { ended_status result ≡ 2 → IsNoValidModule code.entry.«module».now }
    ensures why { IfErr result (λ why. undone_status why ≡ 2 → RefusesModule code.entry.«module».now why) }
    ensures absent { ended_status result ≡ 3 → IsRecordOf code.entry.«module».now saved.now }
    ensures none { ended_status result ≡ 4 → IsNoRecordOf code.entry.«module».now saved.now }
    ensures wrong { IfErr result
        (λ why. undone_status why ≡ 4 → RefusesRecord code.entry.«module».now saved.now why) }
    ensures status { IsShowStatus (ended_status result) }
    ensures silent { IsRefusal (ended_status result)
        → Stays streams.old.out streams.new.out × Stays streams.old.save streams.new.save }
    ensures unwanted { is_some (path_of how.now.view) ≡ false → Stays streams.old.save streams.new.save }
    ensures no_memory { Stays streams.old.memory streams.new.memory }
    ensures unsaid { Stays streams.old.err streams.new.err }
{
    let Streams { out, save, .. } = streams;
    if how.view.path().is_some() {
        return show_to(alloc, code, saved, how, save);
    }
    show_to(alloc, code, saved, how, out)
}

/// The same on one of the streams.
fn show_to<'a, W: Write>(
    alloc: Global,
    code: CodeBytes,
    saved: &[u8],
    how: &ShowLook<'a>,
    out: &mut W,
) -> Result<Done, Undone<'a>>
    ensures shown { ended_status result ≡ 0 → IsRecordOf code.entry.«module».now saved.now }
    ensures prints { ended_status result ≡ 0
        → OfModule (PrintsShow code.entry.«module».now how.now (changed W.contents out.old out.new))
        code.entry.«module».now saved.now }
    ensures done { IfOk result (λ done. done.status ≡ 0) }
    ensures refused { ended_status result ≡ 2 → IsNoValidModule code.entry.«module».now }
    ensures why { IfErr result (λ why. undone_status why ≡ 2 → RefusesModule code.entry.«module».now why) }
    ensures absent { ended_status result ≡ 3 → IsRecordOf code.entry.«module».now saved.now }
    ensures none { ended_status result ≡ 4 → IsNoRecordOf code.entry.«module».now saved.now }
    ensures wrong { IfErr result
        (λ why. undone_status why ≡ 4 → RefusesRecord code.entry.«module».now saved.now why) }
    ensures status { IsShowStatus (ended_status result) }
    ensures silent { IsRefusal (ended_status result) → Stays out.old out.new }
{
    let valid = match load(alloc, code.module) {
        Ok(valid) => valid,
        Err(refusal) => return Err(of_refusal(refusal)),
    };
    match show_record(alloc, &valid, code, saved, how, out) {
        Ok(()) => Ok(Done::with(0)),
        Err(Unshown::Unfit { unfit, stood }) => Err(of_unfit(unfit, valid, stood)),
        Err(Unshown::Absent(absent)) => Err(Undone::Refused(Refused::Absent(absent))),
    }
}

/// The bytes of a module, and what its code is called.
#[derive(Clone, Copy)]
pub struct CodeBytes<'a> {
    pub module: &'a [u8],
    /// Those that have the names of its functions and data and the lines of its source: its own, or those of another build
    /// of its code.
    pub names: &'a [u8],
    /// The files of source whose text is shown.
    pub sources: &'a [SourceFile],
}

/// The code of a module, with what it is called, the text of its source, and of a run the functions that were put in the
/// place of their calls, and the data of signed types that it touches.
fn code_of<'a>(
    alloc: Global,
    module: &'a ValidModule,
    code: CodeBytes<'a>,
    map: &DataMap,
    seen: &SeenRun,
) -> Result<CodeMap<'a, 'a>, AllocError>
    ensures { IfOk result (λ c. c.parts.now ≡ «module».now.parts) }
{
    let known = CodeMap::read(alloc, module.parts(), code.module, code.names)?;
    let signed = map.signed(alloc, known, seen.record.parts().log.as_slice())?;
    let chained = map.chained(alloc, signed, &seen.rows)?;
    Ok(chained.with_sources(Sources::new(alloc, code.sources)?))
}

/// Whether what threads say is wanted.
fn says(view: RecordView) -> bool
    ensures { result ≡ looked.says view.entry }
{
    match view {
        RecordView::Said => true,
        RecordView::Moment(at) => at.text,
        _ => false,
    }
}

/// Shows of the record whose text `saved` is what is asked for.
fn show_record<'a, W: Write>(
    alloc: Global,
    module: &ValidModule,
    code: CodeBytes,
    saved: &[u8],
    how: &ShowLook<'a>,
    out: &mut W,
) -> Result<(), Unshown<'a>>
    ensures shown { IfOk result (λ _. IsOfRun «module».now.parts saved.now) }
    ensures prints { IfOk result
        (λ _. PrintsShow code.entry.«module».now how.now (changed W.contents out.old out.new) «module».now.parts saved.now) }
    ensures unshown { IfErr result (IsUnshown «module».now.parts saved.now) }
    ensures silent { IfErr result (λ why. IfUnshown why (Stays out.old out.new)) }
{
    let seen = match seen_of(alloc, module, saved) {
        Ok(seen) => seen,
        Err(UnseenRecord { unfit, stood }) => return Err(Unshown::Unfit { unfit, stood }),
    };
    let map = match DataMap::read(alloc, code.names) {
        Ok(map) => map,
        Err(_) => return Err(no_memory()),
    };
    let places = match code_of(alloc, module, code, &map, &seen) {
        Ok(places) => places,
        Err(_) => return Err(no_memory()),
    };
    let own = match read_own(alloc, code.module) {
        Ok(own) => own,
        Err(_) => return Err(no_memory()),
    };
    let asked = match asked_of(alloc, seen.record.parts(), &map, how, own.as_slice()) {
        Ok(asked) => asked,
        Err(why) => return Err(why),
    };
    let said = match said_in(alloc, code.module, &seen.record, says(how.view)) {
        Ok(said) => said,
        Err(_) => return Err(no_memory()),
    };
    let view = MomentView {
        valid: module,
        shown: Shown {
            record: seen.record.parts(),
            rows: seen.rows.as_slice(),
            code: &places,
        },
        map: &map,
        is_raw: false,
        left_out: &asked.look.choice.left_out,
    };
    match print_asked(alloc, view, &seen.record, &asked, &said, out) {
        Ok(()) => Ok(()),
        Err(unwritten) => Err(Unshown::Unfit {
            unfit: unfit_of(unwritten),
            stood: None,
        }),
    }
}

/// What rows that weren't written say of the record: nothing.
pub(crate) fn unfit_of(unwritten: Unwritten) -> Unfit
    ensures unfit { (m : Parts) (saved : List ℕ) → IsUnfit m saved result }
    ensures no_refusal { IsNoRefusal result }
{
    match unwritten {
        Unwritten::NoMemory => Unfit::NoMemory,
        Unwritten::Output => Unfit::Output,
    }
}

/// A record of a run, and where each of its entries was made.
#[derive(Drop)]
pub(crate) struct SeenRun {
    pub record: Record,
    pub rows: Vec<Option<Row>>,
}

/// Why a record isn't seen, and what the thread of the entry that doesn't fit does in place of it, where there is such an
/// entry.
#[derive(Clone, Copy)]
pub(crate) struct UnseenRecord {
    pub unfit: Unfit,
    pub stood: Option<Stood>,
}

impl UnseenRecord {
    /// Where no entry is one that doesn't fit.
    fn alone(unfit: Unfit) -> UnseenRecord
        ensures { result.unfit ≡ unfit }
    {
        UnseenRecord { unfit, stood: None }
    }
}

/// Replays the record whose text the bytes are, and sees where its entries are made.
pub(crate) fn seen_of(
    alloc: Global,
    module: &ValidModule,
    saved: &[u8],
) -> Result<SeenRun, UnseenRecord>
    ensures seen { IfOk result (λ s. IsSeen «module».now.parts saved.now s.«record» s.rows.items) }
    ensures shown { IfOk result (λ _. IsOfRun «module».now.parts saved.now) }
    ensures unfit { IfErr result (λ e. IsUnfit «module».now.parts saved.now e.unfit) }
{
    let record = match read_record(alloc, saved) {
        Ok(record) => record,
        Err(RecordFault::NoMemory) => return Err(UnseenRecord::alone(Unfit::NoMemory)),
        Err(fault) => return Err(UnseenRecord::alone(Unfit::Unread(fault))),
    };
    match rows_seen(alloc, module, &record) {
        Ok(rows) => Ok(SeenRun { record, rows }),
        Err(unseen) => Err(UnseenRecord {
            unfit: misfit(unseen.fault),
            stood: unseen.stood,
        }),
    }
}
