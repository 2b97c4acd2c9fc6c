//! The events of a record, one a line.

ghost use Rattle.std.specs.Prelude.{◌≡◌, ◌≤◌, ◌<◌, ℕ, length, All, OnOk, IfOk};
ghost use Rattle.std.specs.List.{AllZip, Contains, enumerate_from};
ghost use Rattle.std.specs.List.Sorted.{IsStrictlyIncreasing};
ghost use Rattle.show_rows.specs.Listing.{IsStoryOf};
ghost use Rattle.show_events.specs.Events.{InTurn, AddsName, AddsEvent, AddsArrow, AddsEvents};
ghost use Rattle.show_events.specs.Written.{WritesTrace};
ghost use Rattle.show_events.specs.Events.{AreThreadsOf, IsThreadAt, AreAmong, kind_text};
ghost use Rattle.show_events.specs.Links.{AreAnswers, in_list};
ghost use Rattle.show_events.specs.Lines.{AddsLine, AddsLines};

use crate::event::{EntryEvent, entry_event, finish_event, name_event, start_event};
use crate::line::{Front, write_line};
use crate::links::{Link, LinkKind, Links};
use race_history::Race;
use selection::Look;
use show_rows::{Shown, Story, chosen_entries};
use show_text::Unwritten;
use std::alloc::{AllocError, Global};
use std::io::Write;
use types::Entry;

/// What the one process of all threads is called.
const PROCESS: &str =
    "{\"ph\":\"M\",\"name\":\"process_name\",\"ts\":0,\"pid\":1,\"tid\":0,\"args\":{\"name\":\"wathread\"}}";

/// Writes the entries that are chosen as a text in the Trace Event Format.
///
/// Each thread is a track, and each entry an event from its number on; a wait goes up to its answer, every other entry
/// to the next number. Wake-ups, spawns and these races between entries that are chosen are flows.
pub fn write_trace<W: Write>(
    alloc: Global,
    shown: Shown,
    look: &Look,
    races: &[Race],
    out: &mut W,
) -> Result<(), Unwritten>
    ensures { OnOk result (WritesTrace shown.entry races.now look.now (W.contents out.old) (W.contents out.new)) }
{
    let chosen = chosen_entries(alloc, shown, look)?;
    out.write_all(b"{\"displayTimeUnit\":\"ns\",\"traceEvents\":\n")?;
    write_events(alloc, shown, races, &chosen, out)?;
    out.write_all(b"}\n")?;
    out.flush()?;
    Ok(())
}

/// Writes the events of the entries at these places, which are in order, as a JSON array: lines in which no `<` is, so
/// that it may stand in a page. Each place has a line.
///
/// # Errors
/// Where memory is refused, and where the output fails.
pub fn write_events<W: Write>(
    alloc: Global,
    shown: Shown,
    races: &[Race],
    chosen: &[usize],
    out: &mut W,
) -> Result<(), Unwritten>
    requires { All (λ at. at < length shown.record.now.log) chosen.now }
    ensures lines { OnOk result
        ((n : ℕ) × (length chosen.now ≤ n) × AddsLines n (W.contents out.old) (W.contents out.new)) }
    ensures which { OnOk result
        (AddsEvents shown.entry races.now chosen.now (W.contents out.old) (W.contents out.new)) }
{
    let log = shown.record.log.as_slice();
    let story = Story::new(alloc, log)?;
    let links = Links::new(alloc, log, &story, races)?;
    let threads = threads_of(alloc, log, chosen)?;
    let among = threads_among(alloc, log, chosen)?;
    write_line(alloc, out, Front::Open, PROCESS)?;
    write_threads(alloc, &threads, out)?;
    write_entries(alloc, shown, &story, &links, chosen, out)?;
    write_links(alloc, &among, &links.links, out)?;
    write_line(alloc, out, Front::Close, "")?;
    Ok(())
}

fn threads_at(alloc: Global, log: &[Entry], chosen: &[usize]) -> Result<Vec<u32>, AllocError>
    requires { All (λ at. at < length log.now) chosen.now }
    ensures { IfOk result (λ threads. AllZip (IsThreadAt log.now) chosen.now threads.items) }
{
    let mut threads = Vec::with_capacity(alloc, chosen.len())?;
    for place in 0..chosen.len() {
        threads.push(log[chosen[place]].thread)?;
    }
    Ok(threads)
}

/// The threads of the entries at these places, each once, in the order of their numbers.
fn threads_of(alloc: Global, log: &[Entry], chosen: &[usize]) -> Result<Vec<u32>, AllocError>
    requires { All (λ at. at < length log.now) chosen.now }
    ensures { IfOk result (λ threads. AreThreadsOf log.now chosen.now threads.items) }
{
    let mut threads = threads_at(alloc, log, chosen)?;
    put_in_order(&mut threads);
    Ok(threads)
}

/// Puts numbers in order, each once.
fn put_in_order(numbers: &mut Vec<u32>)
    ensures ascend { IsStrictlyIncreasing numbers.new.items }
    ensures keeps { (n : ℕ) → Contains numbers.old.items n → Contains numbers.new.items n }
    ensures no_other { (n : ℕ) → Contains numbers.new.items n → Contains numbers.old.items n }
{
    numbers.sort_unstable();
    numbers.dedup();
}

/// Of each entry its thread, if its place is one of these.
fn threads_among(
    alloc: Global,
    log: &[Entry],
    chosen: &[usize],
) -> Result<Vec<Option<u32>>, AllocError>
    requires { All (λ at. at < length log.now) chosen.now }
    ensures { IfOk result (λ among. AreAmong log.now chosen.now among.items) }
{
    let mut among = vec![in alloc; None; log.len()]?;
    for place in 0..chosen.len() {
        let at = chosen[place];
        among[at] = Some(log[at].thread);
    }
    Ok(among)
}

fn write_threads<W: Write>(alloc: Global, threads: &[u32], out: &mut W) -> Result<(), Unwritten>
    ensures lines { OnOk result (AddsLines (length threads.now) (W.contents out.old) (W.contents out.new)) }
    ensures which { OnOk result (InTurn AddsName threads.now (W.contents out.old) (W.contents out.new)) }
{
    for place in 0..threads.len() {
        write_thread(alloc, threads[place], out)?;
    }
    Ok(())
}

fn write_thread<W: Write>(alloc: Global, thread: u32, out: &mut W) -> Result<(), Unwritten>
    ensures line { OnOk result (AddsLine (W.contents out.old) (W.contents out.new)) }
    ensures which { OnOk result (AddsName thread (W.contents out.old) (W.contents out.new)) }
{
    let name = name_event(alloc, thread)?;
    write_line(alloc, out, Front::Next, name.as_str())
}

fn write_entries<W: Write>(
    alloc: Global,
    shown: Shown,
    story: &Story,
    links: &Links,
    chosen: &[usize],
    out: &mut W,
) -> Result<(), Unwritten>
    requires within { All (λ at. at < length shown.record.now.log) chosen.now }
    requires story { IsStoryOf shown.record.now.log story.now }
    requires answers { AreAnswers story.now.contexts.items (length shown.record.now.log) links.now.answers.items }
    ensures lines { OnOk result (AddsLines (length chosen.now) (W.contents out.old) (W.contents out.new)) }
    ensures which { OnOk result
        (InTurn (AddsEvent shown.entry story.now) chosen.now (W.contents out.old) (W.contents out.new)) }
{
    for place in 0..chosen.len() {
        write_entry(alloc, shown, story, links, chosen[place], out)?;
    }
    Ok(())
}

fn write_entry<W: Write>(
    alloc: Global,
    shown: Shown,
    story: &Story,
    links: &Links,
    at: usize,
    out: &mut W,
) -> Result<(), Unwritten>
    requires within { at < length shown.record.now.log }
    requires story { IsStoryOf shown.record.now.log story.now }
    requires answers { AreAnswers story.now.contexts.items (length shown.record.now.log) links.now.answers.items }
    ensures line { OnOk result (AddsLine (W.contents out.old) (W.contents out.new)) }
    ensures which { OnOk result (AddsEvent shown.entry story.now at (W.contents out.old) (W.contents out.new)) }
{
    let log = shown.record.log.as_slice();
    let entry = &log[at];
    let words = shown.words_at(story, at, entry).to_string(alloc)?;
    let place = shown.place_text(alloc, story, at)?;
    let event = EntryEvent {
        thread: entry.thread,
        at: at as u64,
        length: links.length_of(log, &story.contexts, at) as u64,
        words: words.as_str(),
        line: shown.line_of(at),
        place: place.as_str(),
    };
    let json = entry_event(alloc, event)?;
    write_line(alloc, out, Front::Next, json.as_str())?;
    Ok(())
}

/// Writes the links between entries of which the threads are known, each as two events.
fn write_links<W: Write>(
    alloc: Global,
    among: &[Option<u32>],
    links: &[Link],
    out: &mut W,
) -> Result<(), Unwritten>
    ensures lines { OnOk result ((n : ℕ) × AddsLines n (W.contents out.old) (W.contents out.new)) }
    ensures which { OnOk result
        (InTurn (AddsArrow among.now) (enumerate_from 0 links.now) (W.contents out.old) (W.contents out.new)) }
{
    for number in 0..links.len() {
        write_link(alloc, among, number as u64, links[number], out)?;
    }
    Ok(())
}

fn kind_text(kind: LinkKind) -> &'static str
    ensures { result.now ≡ kind_text kind }
{
    match kind {
        LinkKind::Wake => "wakes",
        LinkKind::Spawn => "spawns",
        LinkKind::Race => "races",
    }
}

fn thread_among(among: &[Option<u32>], at: usize) -> Option<u32>
    ensures { result ≡ in_list among.now at }
{
    *among.get(at)?
}

/// Writes a link as two events, if the threads of both of its entries are known.
#[tactic(auto, using(crate::proofs::Behind::none_at_all))]
fn write_link<W: Write>(
    alloc: Global,
    among: &[Option<u32>],
    number: u64,
    link: Link,
    out: &mut W,
) -> Result<(), Unwritten>
    ensures lines { OnOk result ((n : ℕ) × AddsLines n (W.contents out.old) (W.contents out.new)) }
    ensures which { OnOk result (AddsArrow among.now (number, link) (W.contents out.old) (W.contents out.new)) }
{
    let Some(from) = thread_among(among, link.from) else {
        return Ok(());
    };
    let Some(to) = thread_among(among, link.to) else {
        return Ok(());
    };
    let kind = kind_text(link.kind);
    let start = start_event(alloc, kind, number, from, link.from as u64)?;
    let finish = finish_event(alloc, kind, number, to, link.to as u64)?;
    write_line(alloc, out, Front::Next, start.as_str())?;
    write_line(alloc, out, Front::Next, finish.as_str())?;
    Ok(())
}
