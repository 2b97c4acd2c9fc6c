//! The rows of a record, one below the other.

ghost use Rattle.std.specs.Prelude.{◌≡◌, ◌<◌, [], ◌∷◌, ◌++◌, cond, length, string_bytes, IfOk, OnOk, All};
ghost use Rattle.std.specs.Prelude.{Some, option_and_then, option_map};
ghost use Rattle.show_rows.specs.Listing.{line_at, chosen, row_at, context_at, outcome_of, is_atomic_row};
ghost use Rattle.show_rows.specs.Listing.{made_row, place_of, caller_of, call_of, IsPlaceText, IsCallText, IsPlaceTextOf};
ghost use Rattle.show_rows.specs.Listing.{IsStoryOf, AreWordsOf, AddsEntry, AddsEntries, WritesRows};

use crate::Row;
use crate::code::CodeMap;
use dwarf_frames::Chain;
use interp::CodePlace;
use replay_text::RecordParts;
use selection::{Color, Look};
use show_spots::{CallSpot, InlinedCall, InlinedSpot, Spot};
use show_text::{Context, Sheet, Unwritten, Wakes, Words, contexts};
use std::alloc::{AllocError, Global};
use std::io::Write;
use types::{Entry, Event, MOST_THREADS, Outcome, Question};

/// What is shown: a record, the rows of its log, and the module's code.
#[derive(Clone, Copy)]
pub struct Shown<'r, 'w, 'c, 'm, 'n> {
    pub record: &'r RecordParts,
    pub rows: &'w [Option<Row>],
    pub code: &'c CodeMap<'m, 'n>,
}

/// What the log says of its entries beside them.
#[derive(Drop)]
pub struct Story {
    pub contexts: Vec<Context>,
    /// Whom the notifies woke.
    pub wakes: Wakes,
}

impl Story {
    /// What a log says, whatever it is.
    pub fn new(alloc: Global, log: &[Entry]) -> Result<Story, AllocError>
        ensures { IfOk result (IsStoryOf log.now) }
    {
        let contexts = contexts(alloc, log, MOST_THREADS)?;
        let wakes = Wakes::new(alloc, log, &contexts)?;
        Ok(Story { contexts, wakes })
    }

    /// The context of the entry at a place.
    pub fn context_at(&self, at: usize) -> Context
        ensures { result ≡ context_at self.now at }
    {
        match self.contexts.get(at) {
            Some(context) => *context,
            None => Context::Alone,
        }
    }
}

impl Shown<'_, '_, '_, '_, '_> {
    /// The line of the record that has the entry at a place.
    pub fn line_of(&self, at: usize) -> u64
        ensures { result ≡ line_at self.now at }
    {
        let first = self.record.version.header_lines() + 1;
        (first as u64).saturating_add(at as u64)
    }

    /// How the thread of a leave has ended.
    fn outcome_of(&self, entry: &Entry) -> Option<Outcome>
        ensures { result ≡ outcome_of self.now entry.now }
    {
        match entry.event {
            Event::Ask(Question::Leave) => {
                let report = self.record.ends.as_slice().get(entry.thread as usize)?;
                Some(report.outcome)
            }
            _ => None,
        }
    }

    /// The entry at a place in words.
    pub fn words_at<'s>(&self, story: &'s Story, at: usize, entry: &Entry) -> Words<'s>
        ensures { AreWordsOf self.now story.now at entry.now result }
    {
        let row = self.row_at(at);
        Words {
            entry: *entry,
            context: story.context_at(at),
            is_atomic: self.is_atomic(row),
            is_signed: self.code.is_signed(entry.event),
            before: before_of(row),
            woken: story.wakes.by(at),
            outcome: self.outcome_of(entry),
        }
    }

    /// The row of the entry at a place.
    fn row_at(&self, at: usize) -> Option<Row>
        ensures { result ≡ row_at self.now at }
    {
        match self.rows.get(at) {
            Some(row) => *row,
            None => None,
        }
    }

    /// Where the thread of the entry at a place stood.
    pub fn own_place_at(&self, at: usize) -> Option<CodePlace>
        ensures { result ≡ option_map (λ row. row.place) (row_at self.now at) }
    {
        match self.row_at(at) {
            Some(row) => Some(row.place),
            None => None,
        }
    }

    /// Whether the entry at a place was made by an atomic instruction.
    pub fn is_atomic_at(&self, at: usize) -> bool
        ensures { result ≡ is_atomic_row self.now (row_at self.now at) }
    {
        self.is_atomic(self.row_at(at))
    }

    fn is_atomic(&self, row: Option<Row>) -> bool
        ensures { result ≡ is_atomic_row self.now row }
    {
        match row {
            Some(row) => self.code.is_atomic(row.place),
            None => false,
        }
    }

    /// The row of where the entry at a place was made: of an answer, that of its question.
    fn made_row(&self, story: &Story, at: usize) -> Option<Row>
        ensures { result ≡ made_row self.now story.now at }
    {
        let made = match story.context_at(at) {
            Context::Asked(_, asked) => asked,
            _ => at,
        };
        self.row_at(made)
    }

    /// Where the entry at a place was made: an answer where its question was asked.
    pub fn place_at(&self, story: &Story, at: usize) -> Option<CodePlace>
        ensures { result ≡ place_of self.now story.now at }
    {
        match self.made_row(story, at) {
            Some(row) => Some(row.place),
            None => None,
        }
    }

    /// From where the function was called in which the entry at a place was made.
    pub fn caller_at(&self, story: &Story, at: usize) -> Option<CodePlace>
        ensures { result ≡ caller_of self.now story.now at }
    {
        match self.made_row(story, at) {
            Some(row) => row.caller,
            None => None,
        }
    }

    /// The same, where that is in another file of source.
    pub fn call_at(&self, story: &Story, at: usize) -> Option<CodePlace>
        ensures { result ≡ call_of self.now story.now at }
    {
        let place = self.place_at(story, at);
        self.code.call_apart(place, self.caller_at(story, at))
    }

    /// The text of the place where the entry at a place was made, with that of the call behind it where the call is in
    /// another file of source; empty where the place isn't known.
    pub fn place_text(&self, alloc: Global, story: &Story, at: usize) -> Result<String, AllocError>
        ensures { IfOk result (λ text. IsPlaceTextOf self.now story.now at (string_bytes text)) }
    {
        let mut text = spot_text(alloc, self.code, self.place_at(story, at))?;
        let call = call_text(alloc, self.code, self.call_at(story, at))?;
        text.push_str(call.as_str())?;
        Ok(text)
    }

    /// The threads that have an entry which is chosen, in the order of their numbers.
    pub fn threads(&self, alloc: Global, look: &Look) -> Result<Vec<u32>, AllocError> {
        let mut threads = Vec::new(alloc);
        for (at, entry) in self.record.log.as_slice().iter().enumerate() {
            if look.choice.has(self.line_of(at), entry) && !threads.contains(&entry.thread) {
                threads.push(entry.thread)?;
            }
        }
        threads.sort_unstable();
        Ok(threads)
    }
}

/// The text of a place; empty where it isn't known.
///
/// # Errors
/// Where memory is refused.
pub fn spot_text(
    alloc: Global,
    code: &CodeMap,
    place: Option<CodePlace>,
) -> Result<String, AllocError>
    ensures { IfOk result (λ text. IsPlaceText code.now place (string_bytes text)) }
{
    match place {
        Some(place) => known_text(alloc, code, place),
        None => Ok(String::new(alloc)),
    }
}

/// The same of a place that is known.
fn known_text(alloc: Global, code: &CodeMap, place: CodePlace) -> Result<String, AllocError>
    ensures { IfOk result (λ text. IsPlaceText code.now (Some place) (string_bytes text)) }
{
    let spot = code.spot(place);
    match code.chain_at(place) {
        Some(chain) => in_chain(spot, chain).to_string(alloc),
        None => spot.to_string(alloc),
    }
}

/// A place with the functions that were put in the place of their calls there.
fn in_chain<'a>(spot: Spot<'a>, chain: &'a Chain) -> InlinedSpot<'a>
    ensures spot { result.spot ≡ spot.entry }
    ensures function { result.function.now ≡ string_bytes chain.now.innermost }
    ensures calls { result.calls.now ≡ string_bytes chain.now.calls }
{
    InlinedSpot {
        spot,
        function: chain.innermost.as_str(),
        calls: chain.calls.as_str(),
    }
}

/// The text of a call, as it stands behind the place that it led to; empty where there is none.
///
/// # Errors
/// Where memory is refused.
pub fn call_text(
    alloc: Global,
    code: &CodeMap,
    call: Option<CodePlace>,
) -> Result<String, AllocError>
    ensures { IfOk result (λ text. IsCallText code.now call (string_bytes text)) }
{
    match call {
        Some(call) => known_call_text(alloc, code, call),
        None => Ok(String::new(alloc)),
    }
}

/// The same of a call that is known.
fn known_call_text(alloc: Global, code: &CodeMap, call: CodePlace) -> Result<String, AllocError>
    ensures { IfOk result (λ text. IsCallText code.now (Some call) (string_bytes text)) }
{
    let spot = code.spot(call);
    match code.chain_at(call) {
        Some(chain) => InlinedCall(in_chain(spot, chain)).to_string(alloc),
        None => CallSpot(spot).to_string(alloc),
    }
}

fn before_of(row: Option<Row>) -> Option<u64>
    ensures { result ≡ option_and_then (λ row. row.before) row }
{
    match row {
        Some(row) => row.before,
        None => None,
    }
}

/// Adds a place, if it is chosen.
fn add_place(places: &mut Vec<usize>, is_chosen: bool, at: usize) -> Result<(), AllocError>
    ensures { OnOk result (places.new.items ≡ places.old.items ++ cond is_chosen (at ∷ []) []) }
{
    if is_chosen {
        places.push(at)?;
    }
    Ok(())
}

/// The places in the log of the entries that are chosen, in order.
pub fn chosen_entries(alloc: Global, shown: Shown, look: &Look) -> Result<Vec<usize>, AllocError>
    ensures which { IfOk result (λ places. places.items ≡ chosen shown.entry look.now) }
    ensures within { IfOk result (λ places. All (λ at. at < length shown.entry.record.now.log) places.items) }
{
    let log = shown.record.log.as_slice();
    let mut chosen = Vec::new(alloc);
    for at in 0..log.len() {
        let is_chosen = look.choice.has(shown.line_of(at), &log[at]);
        add_place(&mut chosen, is_chosen, at)?;
    }
    Ok(chosen)
}

/// Writes the rows of the entries that are chosen, in their order: of each the line of the record, its thread, its words
/// and where it was made.
pub fn write_rows<W: Write>(
    alloc: Global,
    shown: Shown,
    look: &Look,
    out: &mut W,
) -> Result<(), Unwritten>
    ensures { OnOk result (WritesRows shown.entry look.now (W.contents out.old) (W.contents out.new)) }
{
    let story = Story::new(alloc, shown.record.log.as_slice())?;
    let chosen = chosen_entries(alloc, shown, look)?;
    let sheet = Sheet::new(
        shown.threads(alloc, look)?,
        look.width,
        look.color == Color::Always,
    );
    write_entries(alloc, shown, &story, &sheet, chosen.as_slice(), out)?;
    out.flush()?;
    Ok(())
}

/// Writes the rows of the entries at these places.
#[tactic(auto, using(crate::proofs::Chosen::keeps_same))]
fn write_entries<W: Write>(
    alloc: Global,
    shown: Shown,
    story: &Story,
    sheet: &Sheet,
    places: &[usize],
    out: &mut W,
) -> Result<(), Unwritten>
    requires { All (λ at. at < length shown.record.now.log) places.now }
    ensures { OnOk result (AddsEntries shown.entry story.now places.now (W.contents out.old) (W.contents out.new)) }
{
    for place in 0..places.len() {
        write_entry(alloc, shown, story, sheet, places[place], out)?;
    }
    Ok(())
}

/// Writes the row of the entry at a place.
fn write_entry<W: Write>(
    alloc: Global,
    shown: Shown,
    story: &Story,
    sheet: &Sheet,
    at: usize,
    out: &mut W,
) -> Result<(), Unwritten>
    requires { at < length shown.record.now.log }
    ensures { OnOk result (AddsEntry shown.entry story.now at (W.contents out.old) (W.contents out.new)) }
{
    let entry = &shown.record.log.as_slice()[at];
    let words = shown.words_at(story, at, entry).to_string(alloc)?;
    let place = shown.place_text(alloc, story, at)?;
    let line = shown.line_of(at);
    sheet.write_row(out, line, entry.thread, words.as_str(), place.as_str())?;
    Ok(())
}
