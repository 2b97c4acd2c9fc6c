//! The rows of a record, one below the other, and entries in words.
ghost use Rattle.std.specs.Prelude.{◌<◌, ◌≤◌, All, IfOk, OnOk, length, string_bytes, take};
ghost use Rattle.show_named.specs.Folds.{AddsFolded, AddsNoted, AddsPart, AreNamedWords, IsAnswered, IsRoundsOf, WritesFolded};
ghost use Rattle.show_named.specs.Rows.{AddsEntries, AddsEntry, IsEntryText, WritesRows};

use crate::data_map::DataMap;
use crate::folds::{FoldedRounds, HowOften, Listing, Piece};
use selection::{Color, Look};
use show_rows::{PlaceBehind, Shown, Story, chosen_entries};
use show_text::{Sheet, Unwritten};
use std::alloc::{AllocError, Global};
use std::io::Write;

/// Writes the rows of the entries that are chosen, in their order: of each the line of the record, its thread, its words
/// with the name of its data, and where it was made.
///
/// # Errors
/// Where memory is refused, and where the output fails.
pub fn write_rows<W: Write>(
    alloc: Global,
    shown: Shown,
    map: &DataMap,
    look: &Look,
    out: &mut W,
) -> Result<(), Unwritten>
    ensures { OnOk result (WritesRows shown.entry map.now look.now (W.contents out.old) (W.contents out.new)) }
{
    let story = Story::new(alloc, shown.record.log.as_slice())?;
    let chosen = chosen_entries(alloc, shown, look)?;
    let sheet = sheet_of(alloc, shown, look)?;
    let listing = Listing {
        alloc,
        shown,
        map,
        story: &story,
    };
    listing.write_entries(&sheet, chosen.as_slice(), out)?;
    out.flush()?;
    Ok(())
}

/// Writes the same, but rounds that a thread makes again and again have the rows of the first one, with how often, and an
/// answer stands on the row of its question, where nothing is between.
///
/// # Errors
/// Where memory is refused, and where the output fails.
pub fn write_folded<W: Write>(
    alloc: Global,
    shown: Shown,
    map: &DataMap,
    look: &Look,
    out: &mut W,
) -> Result<(), Unwritten>
    ensures { OnOk result (WritesFolded shown.entry map.now look.now (W.contents out.old) (W.contents out.new)) }
{
    let story = Story::new(alloc, shown.record.log.as_slice())?;
    let chosen = chosen_entries(alloc, shown, look)?;
    let sheet = sheet_of(alloc, shown, look)?;
    let listing = Listing {
        alloc,
        shown,
        map,
        story: &story,
    };
    listing.write_parts(&sheet, chosen.as_slice(), out)?;
    out.flush()?;
    Ok(())
}

/// The columns of what is chosen.
fn sheet_of(alloc: Global, shown: Shown, look: &Look) -> Result<Sheet, AllocError> {
    let threads = shown.threads(alloc, look)?;
    Ok(Sheet::new(threads, look.width, look.color == Color::Always))
}

impl Listing<'_, '_, '_, '_, '_, '_, '_, '_> {
    /// Writes the rows of the entries at these places.
    #[tactic(auto, using(show_rows::proofs::Chosen::keeps_same))]
    fn write_entries<W: Write>(
        &self,
        sheet: &Sheet,
        places: &[usize],
        out: &mut W,
    ) -> Result<(), Unwritten>
        requires { All (λ at. at < length self.now.shown.record.now.log) places.now }
        ensures { OnOk result (AddsEntries self.now.shown self.now.map.now self.now.story.now places.now
            (W.contents out.old) (W.contents out.new)) }
    {
        for place in 0..places.len() {
            self.write_entry(sheet, places[place], out)?;
        }
        Ok(())
    }

    /// Writes the row of the entry at a place.
    fn write_entry<W: Write>(&self, sheet: &Sheet, at: usize, out: &mut W) -> Result<(), Unwritten>
        requires { at < length self.now.shown.record.now.log }
        ensures { OnOk result (AddsEntry self.now.shown self.now.map.now self.now.story.now at
            (W.contents out.old) (W.contents out.new)) }
    {
        self.write_noted(sheet, at, "", out)?;
        Ok(())
    }

    /// The words of the entry at a place, with the name of its data.
    fn named_words(&self, at: usize) -> Result<String, AllocError>
        requires { at < length self.now.shown.record.now.log }
        ensures { IfOk result (λ text. AreNamedWords self.now.shown self.now.map.now self.now.story.now at (string_bytes text)) }
    {
        let entry = &self.shown.record.log.as_slice()[at];
        let words = self.shown.words_at(self.story, at, entry);
        let name = self.map.text(self.alloc, entry.event)?;
        let text = format!(in self.alloc; "{words}{name}")?;
        Ok(text)
    }

    /// Writes the row of the entry at a place, with this behind its words.
    fn write_noted<W: Write>(
        &self,
        sheet: &Sheet,
        at: usize,
        note: &str,
        out: &mut W,
    ) -> Result<(), Unwritten>
        requires { at < length self.now.shown.record.now.log }
        ensures { OnOk result (AddsNoted self.now.shown self.now.map.now self.now.story.now note.now at
            (W.contents out.old) (W.contents out.new)) }
    {
        let (alloc, shown) = (self.alloc, self.shown);
        let thread = shown.record.log.as_slice()[at].thread;
        let words = self.named_words(at)?;
        let said = format!(in alloc; "{words}{note}")?;
        let place = shown.place_text(alloc, self.story, at)?;
        let line = shown.line_of(at);
        sheet.write_row(out, line, thread, said.as_str(), place.as_str())?;
        Ok(())
    }

    /// Writes the rows of the first of these rounds, with how often they are made.
    fn write_rounds<W: Write>(
        &self,
        sheet: &Sheet,
        places: &[usize],
        rounds: FoldedRounds,
        out: &mut W,
    ) -> Result<(), Unwritten>
        requires known { All (λ at. at < length self.now.shown.record.now.log) places.now }
        requires rounds { IsRoundsOf self.now.shown self.now.map.now self.now.story.now places.now rounds }
        ensures { OnOk result (AddsPart self.now.shown self.now.map.now self.now.story.now (take rounds.count places.now)
            (W.contents out.old) (W.contents out.new)) }
    {
        let last = rounds.length - 1;
        self.write_entries(sheet, &places[..last], out)?;
        let often = HowOften(rounds).to_string(self.alloc)?;
        self.write_noted(sheet, places[last], often.as_str(), out)?;
        Ok(())
    }

    /// Writes the row of a question with its answer behind.
    fn write_answered<W: Write>(
        &self,
        sheet: &Sheet,
        places: &[usize],
        out: &mut W,
    ) -> Result<(), Unwritten>
        requires known { All (λ at. at < length self.now.shown.record.now.log) places.now }
        requires answered { IsAnswered self.now.story.now places.now }
        ensures { OnOk result (AddsPart self.now.shown self.now.map.now self.now.story.now (take 2 places.now)
            (W.contents out.old) (W.contents out.new)) }
    {
        let words = self.named_words(places[1])?;
        let note = format!(in self.alloc; ", {words}")?;
        self.write_noted(sheet, places[0], note.as_str(), out)?;
        Ok(())
    }

    /// Writes what stands for the first of these entries, and answers how many these are.
    fn write_part<W: Write>(
        &self,
        sheet: &Sheet,
        places: &[usize],
        out: &mut W,
    ) -> Result<usize, Unwritten>
        requires known { All (λ at. at < length self.now.shown.record.now.log) places.now }
        requires some { 1 ≤ length places.now }
        ensures some { IfOk result (λ count. 1 ≤ count) }
        ensures within { IfOk result (λ count. count ≤ length places.now) }
        ensures writes { IfOk result (λ count. AddsPart self.now.shown self.now.map.now self.now.story.now
            (take count places.now) (W.contents out.old) (W.contents out.new)) }
    {
        match self.first_piece(places) {
            Piece::Rounds(rounds) => {
                self.write_rounds(sheet, places, rounds, out)?;
                Ok(rounds.count)
            }
            Piece::Answered => {
                self.write_answered(sheet, places, out)?;
                Ok(2)
            }
        }
    }

    /// Writes what stands for the entries at these places.
    fn write_parts<W: Write>(
        &self,
        sheet: &Sheet,
        places: &[usize],
        out: &mut W,
    ) -> Result<(), Unwritten>
        requires { All (λ at. at < length self.now.shown.record.now.log) places.now }
        ensures { OnOk result (AddsFolded self.now.shown self.now.map.now self.now.story.now places.now
            (W.contents out.old) (W.contents out.new)) }
    {
        let mut done = 0usize;
        for _ in 0..places.len() {
            if done == places.len() {
                return Ok(());
            }
            let count = self.write_part(sheet, &places[done..], out)?;
            done = done + count;
        }
        Ok(())
    }
}

/// An entry: its thread, its words with the name of its data, its line of the record and where it was made, as far as
/// that is known.
pub fn named_text(
    alloc: Global,
    shown: Shown,
    map: &DataMap,
    story: &Story,
    at: usize,
) -> Result<String, AllocError>
    requires { at < length shown.record.now.log }
    ensures { IfOk result (λ text. IsEntryText shown.entry map.now story.now at (string_bytes text)) }
{
    let entry = &shown.record.log.as_slice()[at];
    let (thread, line) = (entry.thread, shown.line_of(at));
    let words = shown.words_at(story, at, entry);
    let name = map.text(alloc, entry.event)?;
    let said = format!(in alloc; "{words}{name}")?;
    let place = shown.place_text(alloc, story, at)?;
    let behind = PlaceBehind(place.as_str());
    let text = format!(in alloc; "t{thread} {said}, entry {line}{behind}")?;
    Ok(text)
}
