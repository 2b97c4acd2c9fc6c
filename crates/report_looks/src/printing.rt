//! What is written of a record that is shown.
ghost use Rattle.std.specs.Prelude.{◌≡◌, false, All, IfOk, OnOk};
ghost use Rattle.show_races.specs.Told.{IsWithin};
ghost use Rattle.report_looks.specs.Looked as looked;
ghost use Rattle.report_looks.specs.RunMoments.{IsMomentIn, WritesHere, WritesIn};
ghost use Rattle.report_looks.specs.Looked.{WritesBelow, WritesEntries, WritesFoldedOf, WritesLastIn, WritesRowsOf};
ghost use Rattle.report_looks.specs.Looked.{SaysLeftOut, WritesMomentOf, WritesTraceOf, WritesWanted};

use crate::moments::print_page;
use crate::saying::{SaidPart, chooses_all, write_before, write_told};
use crate::wanted::{Here, LookRequest, Wanted};
use allowed_races::Allowed;
use race_history::{Race, is_history};
use replay::replay_watched;
use replay_text::Record;
use report_command::{Form, RecordView};
use report_objects::{write_end, write_entries, write_last_object, write_scene};
use selection::{Choice, Look, Spans};
use show_events::write_trace;
use show_moments::{Moment, MomentView, write_moment};
use show_named::{DataMap, SoughtWrite, write_folded, write_last, write_rows};
use show_races::racing_pairs;
use show_rows::{Shown, Story};
use show_said::Said;
use show_text::Unwritten;
use show_waits::write_waits;
use std::alloc::{AllocError, Global};
use std::io::Write;
use types::{Outcome, ThreadReport};
use validate_module::ValidModule;

/// How many races a trace or a moment marks, at most.
pub(crate) const MOST_MARKS: usize = 100_000;

/// The pairs of entries that race, so many at most. A log of more threads than 64 has none that are known.
pub(crate) fn races_in(alloc: Global, shown: Shown, most: usize) -> Result<Vec<Race>, AllocError>
    ensures { IfOk result (λ races. All (IsWithin shown.entry.record.now.log) races.items) }
{
    if !is_history(shown.record.log.as_slice()) {
        return Ok(Vec::new(alloc));
    }
    racing_pairs(alloc, shown, &Allowed::nothing(), most)
}

/// Writes of a record what is asked for, by all that its threads say.
pub(crate) fn print_asked<W: Write>(
    alloc: Global,
    seen: MomentView,
    record: &Record,
    asked: &LookRequest,
    said: &[Said],
    out: &mut W,
) -> Result<(), Unwritten>
    requires of_module { seen.shown.code.now.parts.now ≡ seen.valid.now.parts }
    requires of_record { «record».now ≡ seen.shown.record.now }
    requires left_out { seen.left_out.now ≡ asked.now.look.choice.left_out }
    ensures { OnOk result (WritesWanted seen.entry.shown seen.entry.map.now asked.now.look said.now asked.now.wanted
        (W.contents out.old) (W.contents out.new)) }
{
    match asked.wanted {
        Wanted::Write { sought, form } => print_last(
            alloc, seen.shown, seen.map, sought, form, out,
        ),
        Wanted::Moment(here) => print_told_moment(alloc, seen, record, here, said, out),
        Wanted::Entries(view) => {
            print_entries(alloc, seen, record, &asked.look, said, view, out)
        },
    }
}

/// Writes a moment, and below it what threads said before, where that is wanted.
fn print_told_moment<W: Write>(
    alloc: Global,
    seen: MomentView,
    record: &Record,
    here: Here,
    said: &[Said],
    out: &mut W,
) -> Result<(), Unwritten>
    requires of_module { seen.shown.code.now.parts.now ≡ seen.valid.now.parts }
    requires of_record { «record».now ≡ seen.shown.record.now }
    ensures { OnOk result (WritesMomentOf seen.entry.shown seen.entry.map.now seen.entry.left_out.now here said.now
        (W.contents out.old) (W.contents out.new)) }
{
    let moment = moment_of(alloc, seen.valid, record, here)?;
    print_moment(alloc, seen, &moment, here, out)?;
    write_before(out, seen.shown.record, here, said)
}

/// Writes the words of the last write that is sought, in lines or as an object.
fn print_last<W: Write>(
    alloc: Global,
    shown: Shown,
    map: &DataMap,
    sought: SoughtWrite,
    form: Form,
    out: &mut W,
) -> Result<(), Unwritten>
    ensures { OnOk result (WritesLastIn form shown.entry map.now sought (W.contents out.old) (W.contents out.new)) }
{
    let story = Story::new(alloc, shown.record.log.as_slice())?;
    match form {
        Form::Lines => write_last(alloc, shown, map, &story, sought, out),
        Form::Json => write_last_object(alloc, shown, map, &story, sought, out),
    }
}

/// Writes the rows, or the object, the page or the trace that has them; or what threads say.
fn print_entries<W: Write>(
    alloc: Global,
    seen: MomentView,
    record: &Record,
    look: &Look,
    said: &[Said],
    view: RecordView,
    out: &mut W,
) -> Result<(), Unwritten>
    requires of_module { seen.shown.code.now.parts.now ≡ seen.valid.now.parts }
    requires of_record { «record».now ≡ seen.shown.record.now }
    requires left_out { seen.left_out.now ≡ look.now.choice.left_out }
    ensures { OnOk result (WritesEntries view.entry seen.entry.shown seen.entry.map.now look.now said.now
        (W.contents out.old) (W.contents out.new)) }
{
    let (shown, map) = (seen.shown, seen.map);
    match view {
        RecordView::Page(_) => print_page(alloc, seen, record, look, out),
        RecordView::Trace(_) => print_trace(alloc, shown, look, out),
        RecordView::Object => write_entries(alloc, shown, map, look, out),
        RecordView::Unfolded => print_rows(alloc, shown, map, look, out),
        RecordView::Said => write_told(out, shown.record, SaidPart::Chosen(&look.choice), said),
        RecordView::Rows | RecordView::Moment(_) | RecordView::Write(_) => print_folded(
            alloc, shown, map, look, out,
        ),
    }
}

/// Writes a trace, with the races that it marks.
fn print_trace<W: Write>(
    alloc: Global,
    shown: Shown,
    look: &Look,
    out: &mut W,
) -> Result<(), Unwritten>
    ensures { OnOk result (WritesTraceOf shown.entry look.now (W.contents out.old) (W.contents out.new)) }
{
    let races = races_in(alloc, shown, MOST_MARKS)?;
    write_trace(alloc, shown, look, races.as_slice(), out)
}

/// Whether a thread was stopped that ended so.
fn is_stop(outcome: Outcome) -> bool
    ensures { result ≡ looked.is_stop outcome }
{
    matches!(outcome, Outcome::Stop(_))
}

/// Whether a thread was stopped.
fn has_stopped(ends: &[ThreadReport]) -> bool
    ensures { result ≡ looked.has_stopped ends.now }
{
    ends.iter().any(|report| is_stop(report.outcome))
}

/// Whether all entries are chosen, and a thread was stopped.
fn has_waits(shown: Shown, look: &Look) -> bool
    ensures { result ≡ looked.has_waits shown.entry look.now }
{
    chooses_all(&look.choice) && has_stopped(shown.record.ends.as_slice())
}

/// Writes what each thread waits for that was stopped, if that is wanted.
fn print_waits<W: Write>(
    alloc: Global,
    shown: Shown,
    map: &DataMap,
    left_out: &Option<Spans>,
    is_wanted: bool,
    out: &mut W,
) -> Result<(), Unwritten>
    ensures { OnOk result
        (WritesBelow is_wanted shown.entry map.now left_out.now (W.contents out.old) (W.contents out.new)) }
{
    if !is_wanted {
        return Ok(());
    }
    let story = Story::new(alloc, shown.record.log.as_slice())?;
    write_waits(alloc, shown, map, &story, left_out, out)
}

/// Says below rows that addresses are left out, where some are.
fn say_left_out<W: Write>(out: &mut W, look: &Look) -> Result<(), Unwritten>
    ensures { OnOk result (SaysLeftOut look.now.choice.left_out (W.contents out.old) (W.contents out.new)) }
{
    if look.choice.left_out.is_none() {
        return Ok(());
    }
    let line =
        b"entries in memory that a library keeps for itself are left out; --unfold has them\n";
    match out.write_all(line) {
        Ok(()) => Ok(()),
        Err(_) => Err(Unwritten::Output),
    }
}

/// Writes rows, folded; and below them whether addresses are left out, and, where all rows are asked for, what each
/// thread waits for that was stopped.
fn print_folded<W: Write>(
    alloc: Global,
    shown: Shown,
    map: &DataMap,
    look: &Look,
    out: &mut W,
) -> Result<(), Unwritten>
    ensures { OnOk result (WritesFoldedOf shown.entry map.now look.now (W.contents out.old) (W.contents out.new)) }
{
    write_folded(alloc, shown, map, look, out)?;
    say_left_out(out, look)?;
    let is_wanted = has_waits(shown, look);
    print_waits(alloc, shown, map, &look.choice.left_out, is_wanted, out)
}

/// Writes a row for each entry; and below them, where all are asked for, what each thread waits for that was stopped.
fn print_rows<W: Write>(
    alloc: Global,
    shown: Shown,
    map: &DataMap,
    look: &Look,
    out: &mut W,
) -> Result<(), Unwritten>
    ensures { OnOk result (WritesRowsOf shown.entry map.now look.now (W.contents out.old) (W.contents out.new)) }
{
    write_rows(alloc, shown, map, look, out)?;
    let is_wanted = has_waits(shown, look);
    print_waits(alloc, shown, map, &look.choice.left_out, is_wanted, out)
}

/// A moment of a record, seen by a second replay.
pub(crate) fn moment_of<'r>(
    alloc: Global,
    module: &ValidModule,
    record: &'r Record,
    here: Here,
) -> Result<Moment<'r>, Unwritten>
    ensures { IfOk result (λ moment. moment.is_short ≡ false
        → IsMomentIn «module».now.parts «record».now here.place here.bytes moment) }
{
    let log = record.parts().log.as_slice();
    let mut moment = Moment::new(alloc, log, here.place, here.bytes)?;
    match replay_watched(alloc, module, record, &mut moment) {
        Ok(_) => Ok(moment),
        Err(_) => Err(Unwritten::NoMemory),
    }
}

/// Writes what threads and memory are like at a moment.
fn print_moment<W: Write>(
    alloc: Global,
    seen: MomentView,
    moment: &Moment,
    here: Here,
    out: &mut W,
) -> Result<(), Unwritten>
    ensures { OnOk result (WritesHere seen.entry.valid.now.parts seen.entry.shown seen.entry.map.now seen.entry.left_out.now here
        moment.now (W.contents out.old) (W.contents out.new)) }
{
    let view = MomentView {
        is_raw: here.is_raw,
        ..seen
    };
    if here.is_end {
        return write_end(alloc, view, moment, here.form, out);
    }
    print_scene(alloc, view, moment, here.form, out)
}

/// Writes what threads and memory are like before an entry, in lines or as an object.
fn print_scene<W: Write>(
    alloc: Global,
    view: MomentView,
    moment: &Moment,
    form: Form,
    out: &mut W,
) -> Result<(), Unwritten>
    ensures says { OnOk result (WritesIn form view.entry moment.now (W.contents out.old) (W.contents out.new)) }
    ensures whole { OnOk result (moment.now.is_short ≡ false) }
{
    let races = races_in(alloc, view.shown, MOST_MARKS)?;
    match form {
        Form::Lines => write_moment(alloc, view, moment, &races, out),
        Form::Json => write_scene(alloc, view, moment, &races, out),
    }
}
