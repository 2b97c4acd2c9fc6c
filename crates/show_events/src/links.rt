//! What leads from one entry to another: wake-ups, spawns, races, and sleep.

ghost use Rattle.std.specs.Prelude.{◌≡◌, ◌<◌, ◌++◌, length, replicate, slice_set, All, IfOk, OnOk};
ghost use Rattle.std.specs.List.{slice_get, filter_map, range_with_len};
ghost use Rattle.std.specs.Option.{option_to_list};
ghost use Rattle.show_text.specs.Contexts.{AreContexts};
ghost use Rattle.show_rows.specs.Listing.{IsStoryOf};
ghost use Rattle.types.specs.declared.limits.TheConstants.{MOST_THREADS};
ghost use Rattle.show_events.specs.Forward.{IsForward};
ghost use Rattle.show_events.specs.Links as specified;
ghost use Rattle.show_events.specs.Links.{AreAnswers, AreFirsts, AreLinks, Lasts, is_wait_over};
ghost use Rattle.show_events.specs.Links.{race_link, spawn_link, wake_link};
ghost use Rattle.show_events.specs.Links.{noted_answer, noted_first, is_spawn_at, number_at};

use race_history::Race;
use show_rows::Story;
use show_text::{Context, Wake};
use std::alloc::{AllocError, Global};
use types::{Answer, Entry, Event, MOST_THREADS, Question};

/// Why one entry leads to another.
#[derive(Clone, Copy, PartialEq, Eq)]
pub enum LinkKind {
    /// From a notify to the answer that the woken thread hears.
    Wake,
    /// From a spawn to the first entry of its thread.
    Spawn,
    /// From the first entry of a race to the second.
    Race,
}

/// From one entry to a later one, by their places in the log.
#[derive(Clone, Copy, PartialEq, Eq)]
pub struct Link {
    pub kind: LinkKind,
    pub from: usize,
    pub to: usize,
}

/// The links of a log, and where each question is answered.
#[derive(Drop)]
pub struct Links {
    pub links: Vec<Link>,
    /// Of an entry that asks: the place of the entry that has its answer.
    pub answers: Vec<Option<usize>>,
}

impl Links {
    /// The links of a log, each to a later entry: of the story's wake-ups, then of the spawns, and then of these races.
    ///
    /// # Errors
    /// Where memory is refused.
    pub fn new(
        alloc: Global,
        log: &[Entry],
        story: &Story,
        races: &[Race],
    ) -> Result<Links, AllocError>
        ensures forward { IfOk result (λ l. All (IsForward (length log.now)) l.links.items) }
        ensures answers { IfOk result (λ l. AreAnswers story.now.contexts.items (length log.now) l.answers.items) }
        ensures links { IfOk result (λ l. AreLinks log.now story.now races.now l.links.items) }
    {
        let answers = answers_of(alloc, log.len(), &story.contexts)?;
        let firsts = first_entries(alloc, log)?;
        let mut links = Vec::new(alloc);
        add_wakes(&mut links, log.len(), &answers, &story.wakes.all)?;
        add_spawns(&mut links, log, &story.contexts, &firsts)?;
        add_races(&mut links, log.len(), races)?;
        Ok(Links { links, answers })
    }

    /// How many entries long the one at a place is: a question that waits goes up to its answer.
    pub fn length_of(&self, log: &[Entry], contexts: &[Context], at: usize) -> usize
        requires contexts { AreContexts log.now MOST_THREADS (length log.now) contexts.now }
        requires answers { AreAnswers contexts.now (length log.now) self.now.answers.items }
        requires within { at < length log.now }
        ensures { Lasts contexts.now at result }
    {
        let Some(told) = in_list(&self.answers, at) else {
            return 1;
        };
        if !is_wait_over(contexts, told) {
            return 1;
        }
        told.saturating_sub(at).max(1)
    }
}

/// Whether an entry is the answer to a wait.
fn is_wait_over(contexts: &[Context], told: usize) -> bool
    ensures { result ≡ is_wait_over (slice_get contexts.now told) }
{
    match contexts.get(told) {
        Some(Context::Asked(Question::Wait { .. }, _)) => true,
        _ => false,
    }
}

/// A link within a log that is so long, if it leads forward.
fn link_between(long: usize, kind: LinkKind, from: usize, to: Option<usize>) -> Option<Link>
    ensures { result ≡ specified.link_between long kind from to }
{
    let to = to?;
    if from < to && to < long {
        Some(Link { kind, from, to })
    } else {
        None
    }
}

fn add_link(links: &mut Vec<Link>, link: Option<Link>) -> Result<(), AllocError>
    ensures { OnOk result (links.new.items ≡ links.old.items ++ option_to_list link) }
{
    if let Some(link) = link {
        links.push(link)?;
    }
    Ok(())
}

/// Adds a link for each thread that was woken and heard so.
fn add_wakes(
    links: &mut Vec<Link>,
    long: usize,
    answers: &[Option<usize>],
    wakes: &[Wake],
) -> Result<(), AllocError>
    ensures { OnOk result (links.new.items ≡ links.old.items ++ filter_map (wake_link long answers.now) wakes.now) }
{
    for k in 0..wakes.len() {
        let told = in_list(answers, wakes[k].wait);
        let link = link_between(long, LinkKind::Wake, wakes[k].notify, told);
        add_link(links, link)?;
    }
    Ok(())
}

/// Adds a link for each spawn whose thread has an entry.
fn add_spawns(
    links: &mut Vec<Link>,
    log: &[Entry],
    contexts: &[Context],
    firsts: &[Option<usize>],
) -> Result<(), AllocError>
    ensures { OnOk result (links.new.items ≡ links.old.items
        ++ filter_map (spawn_link log.now contexts.now firsts.now) (range_with_len 0 (length log.now))) }
{
    for at in 0..log.len() {
        let first = spawned_at(log, contexts, firsts, at);
        let link = link_between(log.len(), LinkKind::Spawn, at, first);
        add_link(links, link)?;
    }
    Ok(())
}

fn add_races(links: &mut Vec<Link>, long: usize, races: &[Race]) -> Result<(), AllocError>
    ensures { OnOk result (links.new.items ≡ links.old.items ++ filter_map (race_link long) races.now) }
{
    for k in 0..races.len() {
        let link = link_between(long, LinkKind::Race, races[k].first, Some(races[k].second));
        add_link(links, link)?;
    }
    Ok(())
}

fn in_list(places: &[Option<usize>], at: usize) -> Option<usize>
    ensures { result ≡ specified.in_list places.now at }
{
    *places.get(at)?
}

fn put_at(places: &mut [Option<usize>], n: usize, place: usize)
    ensures { places.new ≡ slice_set places.old n (Some place) }
{
    if n < places.len() {
        places[n] = Some(place);
    }
}

fn note_answer(answers: &mut [Option<usize>], context: Context, at: usize)
    ensures { answers.new ≡ noted_answer context at answers.old }
{
    if let Context::Asked(_, asked) = context {
        put_at(answers, asked, at);
    }
}

fn none_known(alloc: Global, long: usize) -> Result<Vec<Option<usize>>, AllocError>
    ensures { IfOk result (λ places. places.items ≡ replicate long None) }
{
    let places = vec![in alloc; None; long]?;
    Ok(places)
}

/// Where each question is answered, of a log that is so long.
fn answers_of(
    alloc: Global,
    long: usize,
    contexts: &[Context],
) -> Result<Vec<Option<usize>>, AllocError>
    ensures { IfOk result (λ answers. AreAnswers contexts.now long answers.items) }
{
    let mut answers = none_known(alloc, long)?;
    for at in 0..contexts.len() {
        note_answer(&mut answers, contexts[at], at);
    }
    Ok(answers)
}

fn noted_at(places: &[Option<usize>], n: usize) -> Option<Option<usize>>
    ensures { result ≡ slice_get places.now n }
{
    places.get(n).copied()
}

/// Notes that the entry at a place is of a thread, if none is noted of it.
fn note_first(firsts: &mut [Option<usize>], thread: u32, at: usize)
    ensures { firsts.new ≡ noted_first thread at firsts.old }
{
    if let Some(None) = noted_at(firsts, thread as usize) {
        put_at(firsts, thread as usize, at);
    }
}

fn first_entries(alloc: Global, log: &[Entry]) -> Result<Vec<Option<usize>>, AllocError>
    ensures { IfOk result (λ firsts. AreFirsts log.now firsts.items) }
{
    let mut firsts = none_known(alloc, MOST_THREADS)?;
    for at in 0..log.len() {
        note_first(&mut firsts, log[at].thread, at);
    }
    Ok(firsts)
}

fn is_spawn_at(log: &[Entry], at: usize) -> bool
    ensures { result ≡ is_spawn_at log.now at }
{
    match log.get(at) {
        Some(made) => matches!(made.event, Event::Ask(Question::Spawn { .. })),
        None => false,
    }
}

/// The number that the question at a place is answered with.
fn number_at(contexts: &[Context], at: usize) -> Option<u32>
    ensures { result ≡ number_at (slice_get contexts.now at) }
{
    match contexts.get(at) {
        Some(Context::Answered(Answer::Number(number))) => Some(*number),
        _ => None,
    }
}

/// The first entry of the thread that the spawn at a place has started.
fn spawned_at(
    log: &[Entry],
    contexts: &[Context],
    firsts: &[Option<usize>],
    at: usize,
) -> Option<usize>
    ensures { result ≡ specified.spawned_at log.now contexts.now firsts.now at }
{
    if !is_spawn_at(log, at) {
        return None;
    }
    let thread = number_at(contexts, at)?;
    in_list(firsts, thread as usize)
}
