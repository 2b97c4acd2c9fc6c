//! What is asked for of a record, with its own places and addresses; or why it has no such thing.
ghost use Rattle.std.specs.Prelude.{◌≡◌, ◌++◌, ◌∷◌, [], IfErr, IfOk, None, OnOk, position};
ghost use Rattle.std.specs.List.{AllZip};
ghost use Rattle.selection.specs.Choices as chosen;
ghost use Rattle.report_command.specs.declared.show.RecordView.TheVariants as views;
ghost use Rattle.show_named.specs.declared.data_map.DataMap.{DataMap};
ghost use Rattle.report_jobs.specs.declared.replaying.Unfit.TheVariants as unfits;
ghost use Rattle.report_looks.specs.declared.wanted.Unshown.TheVariants as unshown;
ghost use Rattle.report_looks.specs.Looked as looked;
ghost use Rattle.report_looks.specs.Looked.{IsAsked, IsLookAt, IsWanted};
ghost use Rattle.report_looks.specs.Addresses.{AreAddresses};
ghost use Rattle.report_looks.specs.Allowing.{IsNamed, IsSaidOf, SomeNamed};
ghost use Rattle.report_looks.specs.Silent.{IsAbsent, IsUnrefused};

use dwarf_data::{ByteRange, NamedBytes};
use replay_text::RecordParts;
use report_command::{At, Data, Form, LastWrite, RecordView, ShowLook, When};
use report_jobs::{Absent, Unfit};
use selection::{Choice, Look, NumberSpan, spans_if_any};
use show_moments::Bytes;
use show_named::{DataMap, SoughtWrite};
use show_rows::Stood;
use std::alloc::{AllocError, Global};
use types::{Entry, Event, Outcome, Question, ThreadReport};

/// Why nothing is shown.
#[derive(Clone, Copy)]
pub(crate) enum Unshown<'a> {
    /// The record is of no run, or memory or the stream failed; and what the thread of the entry that doesn't fit does in
    /// place of it, where there is such an entry.
    Unfit { unfit: Unfit, stood: Option<Stood> },
    /// The record has not what is asked for.
    Absent(Absent<'a>),
}

/// Too little memory was left.
pub(crate) fn no_memory() -> Unshown<'static>
    ensures { result ≡ unshown.Unfit unfits.NoMemory None }
{
    Unshown::Unfit {
        unfit: Unfit::NoMemory,
        stood: None,
    }
}

/// A moment of a record: how many entries are before it, whether it is the end, and the bytes that are shown of it.
#[derive(Clone, Copy)]
pub(crate) struct Here {
    pub place: usize,
    pub is_end: bool,
    pub bytes: Bytes,
    /// Whether all locals and operands are shown as they are.
    pub is_raw: bool,
    /// Whether what threads said before it is shown.
    pub text: bool,
    /// In which form it is printed.
    pub form: Form,
}

/// What is shown of a record, and how.
#[derive(Drop)]
pub(crate) struct LookRequest<'a> {
    pub wanted: Wanted<'a>,
    pub look: Look,
}

/// What is shown of a record.
#[derive(Clone, Copy)]
pub(crate) enum Wanted<'a> {
    /// Its entries, or what threads say, in the form of this view.
    Entries(RecordView<'a>),
    /// A moment of it.
    Moment(Here),
    /// The last write of some bytes, in this form.
    Write { sought: SoughtWrite, form: Form },
}

/// Whether a thread leaves that trapped.
fn leaves_trapped(ends: &[ThreadReport], entry: &Entry) -> bool
    ensures { result ≡ looked.leaves_trapped ends.now entry.now }
{
    let Event::Ask(Question::Leave) = entry.event else {
        return false;
    };
    match ends.get(entry.thread as usize) {
        Some(report) => matches!(report.outcome, Outcome::Trap(_)),
        None => false,
    }
}

/// The place of the first entry by which a thread leaves that trapped.
fn first_trap(log: &[Entry], ends: &[ThreadReport]) -> Option<usize>
    ensures { result ≡ position (looked.leaves_trapped ends.now) log.now }
{
    log.iter().position(|entry| leaves_trapped(ends, entry))
}

/// How many entries of a record stand before a moment; `None` where it has no such moment.
pub(crate) fn place_in(parts: &RecordParts, when: When) -> Option<usize>
    ensures { result ≡ looked.place_in parts.now when }
{
    let log = parts.log.as_slice();
    match when {
        When::Line(line) => {
            let first = parts.version.header_lines() + 1;
            let line = usize::try_from(line).unwrap_or(usize::MAX);
            Some(line.saturating_sub(first).min(log.len()))
        }
        When::End => Some(log.len()),
        When::Trap => first_trap(log, parts.ends.as_slice()),
    }
}

/// The addresses of bytes.
fn addresses_of(place: ByteRange) -> NumberSpan
    ensures { result ≡ chosen.span_of place.start place.size }
{
    NumberSpan {
        first: place.start,
        last: place.start.saturating_add(place.size.saturating_sub(1)),
    }
}

/// The addresses of data.
pub(crate) fn span_of<'a>(
    alloc: Global,
    map: &DataMap,
    data: Data<'a>,
) -> Result<NumberSpan, Unshown<'a>>
    ensures addresses { IfOk result (AreAddresses map.now «data».entry) }
    ensures why { IfErr result IsUnrefused }
    ensures named { IfErr result (λ why. IsAbsent why → IsNamed «data».entry) }
    ensures said { IfErr result (IsSaidOf «data».entry) }
{
    let words = match data {
        Data::At(addrs) => return Ok(addrs),
        Data::Named(words) => words,
    };
    match map.named(alloc, words) {
        Ok(NamedBytes::One(place)) => Ok(addresses_of(place)),
        Ok(NamedBytes::Nothing) => Err(Unshown::Absent(Absent::NoData(words))),
        Ok(NamedBytes::Several) => Err(Unshown::Absent(Absent::SeveralData(words))),
        Err(_) => Err(no_memory()),
    }
}

/// The write that is sought.
fn write_of<'a>(
    alloc: Global,
    parts: &RecordParts,
    map: &DataMap,
    write: LastWrite<'a>,
) -> Result<Wanted<'a>, Unshown<'a>>
    ensures wanted { IfOk result (IsWanted parts.now map.now (views.Write write.entry)) }
    ensures why { IfErr result IsUnrefused }
{
    let addrs = match span_of(alloc, map, write.bytes) {
        Ok(addrs) => addrs,
        Err(why) => return Err(why),
    };
    match place_in(parts, write.before) {
        Some(before) => Ok(Wanted::Write {
            sought: SoughtWrite { addrs, before },
            form: write.form,
        }),
        None => Err(Unshown::Absent(Absent::NoTrap)),
    }
}

/// The moment that is asked for.
fn moment_of<'a>(parts: &RecordParts, at: At) -> Result<Wanted<'a>, Unshown<'static>>
    ensures wanted { IfOk result (λ w. (map : DataMap) → IsWanted parts.now map (views.Moment at) w) }
    ensures why { IfErr result IsUnrefused }
{
    let Some(place) = place_in(parts, at.when) else {
        return Err(Unshown::Absent(Absent::NoTrap));
    };
    Ok(Wanted::Moment(Here {
        place,
        is_end: matches!(at.when, When::End),
        bytes: Bytes {
            addr: at.addr,
            count: at.count,
        },
        is_raw: at.is_raw,
        text: at.text,
        form: at.form,
    }))
}

/// What is shown of a record, by what is asked for.
fn wanted_of<'a>(
    alloc: Global,
    parts: &RecordParts,
    map: &DataMap,
    view: RecordView<'a>,
) -> Result<Wanted<'a>, Unshown<'a>>
    ensures wanted { IfOk result (IsWanted parts.now map.now view.entry) }
    ensures why { IfErr result IsUnrefused }
{
    match view {
        RecordView::Write(write) => write_of(alloc, parts, map, write),
        RecordView::Moment(at) => moment_of(parts, at),
        RecordView::Rows => Ok(Wanted::Entries(RecordView::Rows)),
        RecordView::Unfolded => Ok(Wanted::Entries(RecordView::Unfolded)),
        RecordView::Said => Ok(Wanted::Entries(RecordView::Said)),
        RecordView::Object => Ok(Wanted::Entries(RecordView::Object)),
        RecordView::Page(path) => Ok(Wanted::Entries(RecordView::Page(path))),
        RecordView::Trace(path) => Ok(Wanted::Entries(RecordView::Trace(path))),
    }
}

/// Puts a span behind the others.
fn put(spans: &mut Vec<NumberSpan>, span: NumberSpan) -> Result<(), AllocError>
    ensures { OnOk result (spans.new.items ≡ spans.old.items ++ span ∷ []) }
{
    spans.push(span)?;
    Ok(())
}

/// The addresses of each of these data, in order.
pub(crate) fn spans_of<'a>(
    alloc: Global,
    map: &DataMap,
    all: &[Data<'a>],
) -> Result<Vec<NumberSpan>, Unshown<'a>>
    ensures addresses { IfOk result (λ spans. AllZip (AreAddresses map.now) all.now spans.items) }
    ensures why { IfErr result IsUnrefused }
    ensures named { IfErr result (λ why. IsAbsent why → SomeNamed all.now) }
{
    let mut spans = Vec::new(alloc);
    for k in 0..all.len() {
        let span = match span_of(alloc, map, all[k]) {
            Ok(span) => span,
            Err(why) => return Err(why),
        };
        match put(&mut spans, span) {
            Ok(()) => {}
            Err(_) => return Err(no_memory()),
        }
    }
    Ok(spans)
}

/// Whether such a view leaves out what a library keeps for itself, where these bytes are asked for.
fn leaves_out(view: RecordView, bytes: &[Data]) -> bool
    ensures { result ≡ looked.leaves_out view.entry bytes.now }
{
    match view {
        RecordView::Rows | RecordView::Page(_) | RecordView::Trace(_) => bytes.is_empty(),
        RecordView::Moment(at) => !at.is_unfolded,
        RecordView::Unfolded | RecordView::Said | RecordView::Write(_) | RecordView::Object =>
            false,
    }
}

/// The addresses that are left out, where a library keeps these for itself.
fn left_out(
    alloc: Global,
    how: &ShowLook,
    own: &[NumberSpan],
) -> Result<Vec<NumberSpan>, AllocError>
    ensures { IfOk result (λ spans. spans.items ≡ looked.left_out how.now own.now) }
{
    if leaves_out(how.view, how.bytes.as_slice()) {
        return Vec::from_slice(alloc, own);
    }
    Ok(Vec::new(alloc))
}

/// How entries are shown at these addresses, where a library keeps those for itself.
fn look_at(
    alloc: Global,
    how: &ShowLook,
    addrs: Vec<NumberSpan>,
    own: &[NumberSpan],
) -> Result<Look, AllocError>
    ensures { IfOk result (IsLookAt how.now addrs.items own.now) }
{
    let lines = Vec::from_slice(alloc, how.lines.as_slice())?;
    Ok(Look {
        choice: Choice {
            lines: spans_if_any(alloc, lines)?,
            threads: Vec::from_slice(alloc, how.threads.as_slice())?,
            addrs: spans_if_any(alloc, addrs)?,
            left_out: spans_if_any(alloc, left_out(alloc, how, own)?)?,
        },
        width: how.width,
        color: how.color,
    })
}

/// What is shown of a record, and how, by what is asked for, where a library keeps these addresses for itself.
pub(crate) fn asked_of<'a>(
    alloc: Global,
    parts: &RecordParts,
    map: &DataMap,
    how: &ShowLook<'a>,
    own: &[NumberSpan],
) -> Result<LookRequest<'a>, Unshown<'a>>
    ensures asked { IfOk result (IsAsked parts.now map.now how.now own.now) }
    ensures why { IfErr result IsUnrefused }
{
    let wanted = match wanted_of(alloc, parts, map, how.view) {
        Ok(wanted) => wanted,
        Err(why) => return Err(why),
    };
    let addrs = match spans_of(alloc, map, how.bytes.as_slice()) {
        Ok(addrs) => addrs,
        Err(why) => return Err(why),
    };
    match look_at(alloc, how, addrs, own) {
        Ok(look) => Ok(LookRequest { wanted, look }),
        Err(_) => Err(no_memory()),
    }
}
