//! Moments and a last write as JSON objects.
ghost use Rattle.std.specs.Prelude.{◌≡◌, ◌<◌, false, All, IfOk, OnOk, length};
ghost use Rattle.std.specs.List.{AllZip};
ghost use Rattle.show_races.specs.Told.{IsWithin};
ghost use Rattle.show_moments.specs.Scenes.{seen};
ghost use Rattle.report_objects.specs.Scenes as specified;
ghost use Rattle.report_objects.specs.Scenes.{AreRows, IsAskedRow, IsLastRow, IsRowIfAny, IsThreadObject, IsTouchedRow};
ghost use Rattle.report_objects.specs.Scenes.{WritesLastObject, WritesScene, WritesSceneOf, WritesSeen};

use crate::objects::named_row;
use race_history::Race;
use selection::NumberSpan;
use shared_memory::Sleeper;
use show_json::{
    LastRow, MemoryBytes, MomentShown, MomentThread, NamedRow, ThreadState, write_last,
    write_moment,
};
use show_moments::{Moment, MomentView, Scene, Stance, ToldNext, ToldThread};
use show_named::{DataMap, SoughtWrite};
use show_rows::{Shown, Story};
use show_text::Unwritten;
use std::alloc::{AllocError, Global};
use std::io::Write;
use waiters::KeptQueue;

/// The entry at a place of the log, if there is one.
pub(crate) fn row_if_any<'a>(
    alloc: Global,
    shown: &'a Shown,
    map: &DataMap,
    story: &'a Story,
    place: Option<usize>,
) -> Result<Option<NamedRow<'a>>, AllocError>
    ensures { IfOk result (IsRowIfAny shown.now map.now story.now place) }
{
    match place {
        Some(at) if at < shown.record.log.len() => {
            Ok(Some(named_row(alloc, shown, map, story, at)?))
        }
        _ => Ok(None),
    }
}

/// The entry that did something last, if one did.
pub(crate) fn last_row<'a>(
    alloc: Global,
    shown: &'a Shown,
    map: &DataMap,
    story: &'a Story,
    place: Option<usize>,
) -> Result<LastRow<'a>, AllocError>
    ensures { IfOk result (IsLastRow shown.now map.now story.now place) }
{
    Ok(LastRow(row_if_any(alloc, shown, map, story, place)?))
}

/// The same of a place in the log of a moment's record.
fn row_in<'a>(scene: &'a Scene, place: Option<usize>) -> Result<Option<NamedRow<'a>>, AllocError>
    ensures { IfOk result (specified.IsRow (seen scene.now) place) }
{
    let view = &scene.view;
    row_if_any(scene.alloc, &view.shown, view.map, scene.story, place)
}

/// How a thread stands to its first entry.
fn state_of(stance: Stance) -> ThreadState
    ensures { result ≡ specified.state_of stance }
{
    match stance {
        Stance::Wants => ThreadState::Wants,
        Stance::Ends => ThreadState::Ends,
        Stance::Owed => ThreadState::Owed,
        Stance::Asleep(_) => ThreadState::Asleep,
    }
}

/// The question on which a thread sleeps, if it does.
fn asked_in<'a>(scene: &'a Scene, stance: Stance) -> Result<Option<NamedRow<'a>>, AllocError>
    ensures { IfOk result (IsAskedRow (seen scene.now) stance) }
{
    match stance {
        Stance::Asleep(asked) => row_in(scene, Some(asked)),
        _ => Ok(None),
    }
}

/// The last write of the bytes to which a thread comes, if it comes to some.
fn last_in<'a>(
    scene: &'a Scene,
    touched: Option<NumberSpan>,
    last: Option<usize>,
) -> Result<Option<LastRow<'a>>, AllocError>
    ensures { IfOk result (IsTouchedRow (seen scene.now) touched last) }
{
    match touched {
        Some(_) => Ok(Some(LastRow(row_in(scene, last)?))),
        None => Ok(None),
    }
}

/// A thread that comes to something.
fn next_object<'a>(
    scene: &'a Scene,
    thread: usize,
    next: &'a ToldNext,
) -> Result<MomentThread<'a>, AllocError>
    ensures { IfOk result (specified.IsNextObject (seen scene.now) thread next.now) }
{
    Ok(MomentThread {
        thread,
        state: state_of(next.stance),
        entry: row_in(scene, Some(next.at))?,
        asked: asked_in(scene, next.stance)?,
        last_write: last_in(scene, next.touched, next.last)?,
        functions: next.functions.as_slice(),
    })
}

/// A thread at a moment.
fn thread_object<'a>(scene: &'a Scene, told: &'a ToldThread) -> Result<MomentThread<'a>, AllocError>
    ensures { IfOk result (IsThreadObject (seen scene.now) told.now) }
{
    match &told.next {
        Some(next) => next_object(scene, told.thread, next),
        None => Ok(MomentThread {
            thread: told.thread,
            state: ThreadState::Gone,
            entry: None,
            asked: None,
            last_write: None,
            functions: &[],
        }),
    }
}

/// The threads at a moment.
fn thread_objects<'a>(
    scene: &'a Scene,
    told: &'a [ToldThread],
) -> Result<Vec<MomentThread<'a>>, AllocError>
    ensures { IfOk result (λ threads. AllZip (IsThreadObject (seen scene.now)) told.now threads.items) }
{
    let mut threads = Vec::with_capacity(scene.alloc, told.len())?;
    for k in 0..told.len() {
        let thread = thread_object(scene, &told[k])?;
        threads.push(thread)?;
    }
    Ok(threads)
}

/// The entries at these places.
#[tactic(auto, using(show_rows::proofs::Zipped::zip_next))]
fn rows_in<'a>(scene: &'a Scene, places: &[usize]) -> Result<Vec<NamedRow<'a>>, AllocError>
    requires { All (λ at. at < length scene.now.view.shown.record.now.log) places.now }
    ensures { IfOk result (λ rows. AreRows (seen scene.now) places.now rows.items) }
{
    let view = &scene.view;
    let mut rows = Vec::with_capacity(scene.alloc, places.len())?;
    for k in 0..places.len() {
        let row = named_row(scene.alloc, &view.shown, view.map, scene.story, places[k])?;
        rows.push(row)?;
    }
    Ok(rows)
}

/// Who sleeps, who has slept longest first.
fn asleep_in(queue: &Option<KeptQueue>) -> &[Sleeper]
    ensures { result.now ≡ specified.asleep_in queue.now }
{
    match queue {
        Some(queue) => queue.sleepers.as_slice(),
        None => &[],
    }
}

/// The bytes that are wanted of a moment, if some are.
pub(crate) fn memory_of<'a>(moment: &'a Moment) -> Option<MemoryBytes<'a>>
    ensures { specified.IsMemoryOf moment.now result }
{
    if moment.wanted.count == 0 {
        return None;
    }
    Some(MemoryBytes {
        addr: moment.wanted.addr,
        bytes: moment.bytes.as_slice(),
    })
}

/// Writes a moment as an object, with those of these races in which its entry is.
///
/// # Errors
/// Where memory is refused, or some was while the moment was made; and where the output fails.
pub fn write_scene<W: Write>(
    alloc: Global,
    view: MomentView,
    moment: &Moment,
    races: &[Race],
    out: &mut W,
) -> Result<(), Unwritten>
    requires { All (IsWithin view.shown.record.now.log) races.now }
    ensures says { OnOk result (WritesScene view.entry moment.now races.now (W.contents out.old) (W.contents out.new)) }
    ensures whole { OnOk result (moment.now.is_short ≡ false) }
{
    if moment.is_short {
        return Err(Unwritten::NoMemory);
    }
    let story = Story::new(alloc, view.shown.record.log.as_slice())?;
    let scene = Scene {
        alloc,
        view,
        story: &story,
        moment,
    };
    write_seen(&scene, races, out)
}

/// Writes what is told of a moment as an object.
fn write_seen<W: Write>(scene: &Scene, races: &[Race], out: &mut W) -> Result<(), Unwritten>
    requires { All (IsWithin scene.now.view.shown.record.now.log) races.now }
    ensures { OnOk result (WritesSeen (seen scene.now) races.now (W.contents out.old) (W.contents out.new)) }
{
    let told = scene.told(races)?;
    let threads = thread_objects(scene, told.threads.as_slice())?;
    let rows = rows_in(scene, told.races.as_slice())?;
    write_shown(scene, threads.as_slice(), rows.as_slice(), out)
}

/// Writes these threads and entries as the object of a moment.
fn write_shown<'t, 'a, W: Write>(
    scene: &'t Scene,
    threads: &'t [MomentThread<'a>],
    races: &'t [NamedRow<'a>],
    out: &mut W,
) -> Result<(), Unwritten>
    ensures { OnOk result
        (WritesSceneOf (seen scene.now) threads.now races.now (W.contents out.old) (W.contents out.new)) }
{
    let moment = scene.moment;
    let object = MomentShown {
        line: scene.view.shown.line_of(moment.at),
        threads,
        races,
        asleep: asleep_in(&moment.queue),
        memory: memory_of(moment),
    };
    write_moment(scene.alloc, out, &object)
}

/// Writes the last write that is sought as an object.
///
/// # Errors
/// Where memory is refused, and where the output fails.
pub fn write_last_object<W: Write>(
    alloc: Global,
    shown: Shown,
    map: &DataMap,
    story: &Story,
    sought: SoughtWrite,
    out: &mut W,
) -> Result<(), Unwritten>
    ensures { OnOk result
        (WritesLastObject shown.entry map.now story.now sought (W.contents out.old) (W.contents out.new)) }
{
    let place = sought.place_in(shown.record.log.as_slice());
    let last = last_row(alloc, &shown, map, story, place)?;
    write_last(alloc, out, &last)
}
