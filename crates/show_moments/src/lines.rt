//! What is told of a moment, as lines.

ghost use Rattle.std.specs.Prelude.{◌≡◌, All, IfOk, OnOk, false, string_bytes};
ghost use Rattle.std.specs.List.{slice_get};
ghost use Rattle.show_races.specs.Told.{IsWithin};
ghost use Rattle.show_moments.specs.Lines.{SaysAsked, SaysNext, SaysOther, SaysStance, SaysThread, SaysTouched};
ghost use Rattle.show_moments.specs.Lines.{WritesMoment, WritesOthers, WritesThreads};
ghost use Rattle.show_moments.specs.Scenes.{seen};

use crate::moment::Moment;
use crate::scene::{MomentView, Scene};
use crate::texts::{dump_text, queue_text};
use crate::told::{Stance, ToldNext, ToldThread};
use race_history::Race;
use show_named::told_text;
use show_rows::{Story, entry_text};
use show_text::Unwritten;
use show_told::functions_text;
use std::alloc::{AllocError, Global};
use std::io::Write;

/// Writes a moment of a run of the module: of each thread what it comes to next or on what it sleeps, who wrote these
/// bytes last, and its open functions, the one that runs first, with their values; with what the entry of this moment
/// races, of these races; who sleeps, in the order of the queue; and the bytes.
///
/// # Errors
/// Where memory is refused, and where the output fails.
pub fn write_moment<W: Write>(
    alloc: Global,
    view: MomentView,
    moment: &Moment,
    races: &[Race],
    out: &mut W,
) -> Result<(), Unwritten>
    requires { All (IsWithin view.shown.record.now.log) races.now }
    ensures says { OnOk result (WritesMoment view.entry moment.now races.now (W.contents out.old) (W.contents out.new)) }
    ensures whole { OnOk result (moment.now.is_short ≡ false) }
{
    if moment.is_short {
        return Err(Unwritten::NoMemory);
    }
    let story = Story::new(alloc, view.shown.record.log.as_slice())?;
    let scene = Scene {
        alloc,
        view,
        story: &story,
        moment,
    };
    let told = scene.told(races)?;
    scene.write_threads(out, told.threads.as_slice())?;
    scene.write_others(out, told.races.as_slice())?;
    let queue = queue_text(alloc, &moment.queue)?;
    let dump = dump_text(alloc, moment.wanted.addr, &moment.bytes)?;
    write!(out, "{queue}{dump}")?;
    out.flush()?;
    Ok(())
}

impl Scene<'_, '_, '_, '_, '_, '_, '_, '_, '_, '_, '_> {
    /// Writes what these threads come to.
    fn write_threads<W: Write>(&self, out: &mut W, threads: &[ToldThread]) -> Result<(), Unwritten>
        ensures { OnOk result (WritesThreads (seen self.now) threads.now (W.contents out.old) (W.contents out.new)) }
    {
        for k in 0..threads.len() {
            let text = self.thread_text(&threads[k])?;
            write!(out, "{text}")?;
        }
        Ok(())
    }

    /// What a thread comes to, or that it is gone.
    fn thread_text(&self, told: &ToldThread) -> Result<String, AllocError>
        ensures { IfOk result (λ text. SaysThread (seen self.now) told.now (string_bytes text)) }
    {
        let thread = told.thread;
        let Some(next) = &told.next else {
            let text = format!(in self.alloc; "t{thread} is gone\n")?;
            return Ok(text);
        };
        let comes = self.next_text(next)?;
        let last = self.touched_text(next)?;
        let functions = functions_text(self.alloc, next.functions.as_slice())?;
        let text = format!(in self.alloc; "t{thread} {comes}{last}{functions}")?;
        Ok(text)
    }

    /// What a thread comes to next, or on what it sleeps.
    fn next_text(&self, next: &ToldNext) -> Result<String, AllocError>
        ensures { IfOk result (λ text. SaysNext (seen self.now) next.now (string_bytes text)) }
    {
        let at = next.at;
        let Some(entry) = self.view.shown.record.log.as_slice().get(at) else {
            return Ok(String::new(self.alloc));
        };
        let front = self.stance_text(next.stance)?;
        let line = self.view.shown.line_of(at);
        let words = self.view.shown.words_at(self.story, at, entry);
        let text = format!(in self.alloc; "{front}entry {line}: {words}\n")?;
        Ok(text)
    }

    /// How a thread stands to its first entry that isn't left out.
    fn stance_text(&self, stance: Stance) -> Result<String, AllocError>
        ensures { IfOk result (λ text. SaysStance (seen self.now) stance (string_bytes text)) }
    {
        match stance {
            Stance::Wants => String::from_str(self.alloc, "wants, "),
            Stance::Ends => String::from_str(self.alloc, "is at its end; "),
            Stance::Owed => String::from_str(self.alloc, "is owed its answer; "),
            Stance::Asleep(asked) => self.asked_text(asked),
        }
    }

    /// The question on which a thread sleeps.
    fn asked_text(&self, asked: usize) -> Result<String, AllocError>
        ensures { IfOk result (λ text. SaysAsked (seen self.now) asked
            (slice_get self.now.view.shown.record.now.log asked) (string_bytes text)) }
    {
        let Some(entry) = self.view.shown.record.log.as_slice().get(asked) else {
            return String::from_str(self.alloc, "sleeps; ");
        };
        let line = self.view.shown.line_of(asked);
        let words = self.view.shown.words_at(self.story, asked, entry);
        let text = format!(in self.alloc; "{words}, since entry {line}; ")?;
        Ok(text)
    }

    /// Who wrote the bytes last to which a thread comes, if it comes to some.
    fn touched_text(&self, next: &ToldNext) -> Result<String, AllocError>
        ensures { IfOk result (λ text. SaysTouched (seen self.now) next.now (string_bytes text)) }
    {
        let Some(_) = next.touched else {
            return Ok(String::new(self.alloc));
        };
        let last = told_text(
            self.alloc,
            self.view.shown,
            self.view.map,
            self.story,
            next.last,
            "nobody",
        )?;
        let text = format!(in self.alloc; "    last write there: {last}\n")?;
        Ok(text)
    }

    /// Writes with what the entry of this moment races.
    fn write_others<W: Write>(&self, out: &mut W, others: &[usize]) -> Result<(), Unwritten>
        ensures { OnOk result (WritesOthers (seen self.now) others.now (W.contents out.old) (W.contents out.new)) }
    {
        for k in 0..others.len() {
            let text = self.other_text(others[k])?;
            write!(out, "{text}")?;
        }
        Ok(())
    }

    /// That the entry of this moment races with another one of the log.
    fn other_text(&self, other: usize) -> Result<String, AllocError>
        ensures { IfOk result (λ text. SaysOther (seen self.now) other (string_bytes text)) }
    {
        if other >= self.view.shown.record.log.len() {
            return Ok(String::new(self.alloc));
        }
        let line = self.view.shown.line_of(self.moment.at);
        let entry = entry_text(self.alloc, self.view.shown, self.story, other)?;
        let text = format!(in self.alloc; "entry {line} races with {entry}\n")?;
        Ok(text)
    }
}
