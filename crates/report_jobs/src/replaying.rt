//! The replay of a record by the program: what is printed, or why there is nothing to print.
ghost use Rattle.std.specs.Prelude.{◌≡◌, IfOk, IfErr, OnErr};
ghost use Rattle.replay_text.specs.Text.{IsRecord};
ghost use Rattle.report_jobs.specs.Jobs.{PrintsReplay, PrintsReplayOf, IsUnfit, IsUnfitFor, IsUnfitTextOf, unfit_by};
ghost use Rattle.report_jobs.specs.Jobs.{unfit_of_unwritten};
ghost use Rattle.report_jobs.specs.Prints.{changed};
ghost use Rattle.report_jobs.specs.Silence.{LeavesOut, Stays};

use crate::printing::print_said;
use crate::trapped::Whence;
use crate::undone::Done;
use interp::Thread;
use interp_trait::Turn;
use replay::{ReplayFault, replay_watched};
use replay_text::{Record, RecordFault, read_record};
use replay_walk::{Walk, Watch};
use report_command::EndLook;
use report_traps::{Frames, Replayed};
use shared_memory_sequential::OneMemory;
use show_rows::{NextStood, Stood};
use show_text::Unwritten;
use std::alloc::Global;
use std::io::Write;
use types::Entry;
use validate::ValidModule;

/// Why a record wasn't replayed, or what came of it couldn't be written.
#[derive(Clone, Copy, PartialEq, Eq)]
pub enum Unfit {
    /// The bytes are no record's text.
    Unread(RecordFault),
    /// The record is of no run of the module.
    Misfit(ReplayFault),
    /// The system had too little memory left.
    NoMemory,
    /// Standard output failed.
    Output,
}

/// Sees where the threads of a replay trapped, and what the thread of the next entry does.
#[derive(Drop)]
struct TrapsAndNext<'a> {
    traps: Replayed<'a>,
    next: NextStood<'a>,
}

impl<'m> Watch<Thread<'m>> for TrapsAndNext<'_> {
    ghost sees = { λ old moment new. Unit {0} };

    fn came(&mut self, entries: usize, walk: &Walk<Thread<'m>>)
        ensures { self.new.traps ≡ self.old.traps }
    {
        self.traps.came(entries, walk);
        self.next.came(entries, walk);
    }

    fn event(&mut self, _entry: &Entry, _thread: &Thread<'m>, _memory: &OneMemory)
        ensures { self.new ≡ self.old }
    {}

    fn settled(&mut self, thread: u32, turn: Turn)
        ensures { self.new.traps ≡ self.old.traps }
    {
        self.next.settled(thread, turn);
    }
}

/// Why a record wasn't replayed, and what the thread of the entry that doesn't fit does in place of it, where there is
/// such an entry.
#[derive(Clone, Copy)]
pub(crate) struct Unreplayed {
    pub(crate) unfit: Unfit,
    pub(crate) stood: Option<Stood>,
}

impl Unreplayed {
    /// Where no entry is one that doesn't fit.
    fn alone(unfit: Unfit) -> Unreplayed
        ensures { result.unfit ≡ unfit }
    {
        Unreplayed { unfit, stood: None }
    }
}

/// A valid module, and the bytes of which it was read: they name its functions and the lines of its source.
#[derive(Clone, Copy)]
pub(crate) struct LoadedModule<'a> {
    pub valid: &'a ValidModule,
    pub bytes: &'a [u8],
}

/// Replays the record of a run of the module whose text `saved` is, and prints how that run ended. The status is 0 where
/// all threads ended well, 1 for a trap or stop.
pub(crate) fn replay_record<W: Write, E: Write>(
    alloc: Global,
    loaded: LoadedModule,
    saved: &[u8],
    look: EndLook,
    out: &mut W,
    err: &mut E,
) -> Result<Done, Unreplayed>
    ensures prints { IfOk result (λ done. PrintsReplay loaded.entry.valid.now.parts loaded.entry.bytes.now saved.now
        look (changed W.contents out.old out.new) (changed E.contents err.old err.new) done.status) }
    ensures unfit { IfErr result (λ e. IsUnfit loaded.entry.valid.now.parts saved.now e.unfit) }
    ensures silent { IfErr result (λ e. LeavesOut e.unfit (Stays out.old out.new)) }
    ensures unsaid { OnErr result (Stays err.old err.new) }
{
    match read_record(alloc, saved) {
        Ok(record) => {
            let done = print_replay(alloc, loaded, &record, look, out, err);
            drop(record);
            done
        }
        Err(RecordFault::NoMemory) => Err(Unreplayed::alone(Unfit::NoMemory)),
        Err(fault) => Err(Unreplayed::alone(Unfit::Unread(fault))),
    }
}

/// The same of a record that was read.
fn print_replay<W: Write, E: Write>(
    alloc: Global,
    loaded: LoadedModule,
    recorded: &Record,
    look: EndLook,
    out: &mut W,
    err: &mut E,
) -> Result<Done, Unreplayed>
    requires { IsRecord recorded.now }
    ensures prints { IfOk result
        (λ done. PrintsReplayOf loaded.entry.valid.now.parts loaded.entry.bytes.now recorded.now look
        (changed W.contents out.old out.new) (changed E.contents err.old err.new) done.status) }
    ensures unfit { IfErr result (λ e. IsUnfitTextOf loaded.entry.valid.now.parts recorded.now e.unfit) }
    ensures silent { IfErr result (λ e. LeavesOut e.unfit (Stays out.old out.new)) }
    ensures unsaid { OnErr result (Stays err.old err.new) }
{
    let frames = Frames::new(alloc);
    let LoadedModule { valid, bytes } = loaded;
    let whence = Whence {
        parts: valid.parts(),
        bytes,
        frames: &frames,
        recorded: Some(recorded),
    };
    let log = recorded.parts().log.as_slice();
    let traps = Replayed {
        frames: &frames,
        entries: log.len(),
    };
    let next = NextStood::new(log);
    let mut seen = TrapsAndNext { traps, next };
    match replay_watched(alloc, valid, recorded, &mut seen) {
        Ok(end) => match print_said(alloc, out, err, recorded, &end, look, whence) {
            Ok(done) => Ok(done),
            Err(unwritten) => Err(Unreplayed::alone(unprinted(unwritten))),
        },
        Err(fault) => Err(Unreplayed {
            unfit: misfit(fault),
            stood: seen.next.stood,
        }),
    }
}

/// What comes of an end that couldn't be written.
fn unprinted(unwritten: Unwritten) -> Unfit
    ensures { result ≡ unfit_of_unwritten unwritten }
{
    match unwritten {
        Unwritten::NoMemory => Unfit::NoMemory,
        Unwritten::Output => Unfit::Output,
    }
}

/// What the fault of a replay says of the record's bytes.
pub fn misfit(fault: ReplayFault) -> Unfit
    ensures is { result ≡ unfit_by fault }
    ensures unfit { IsUnfitFor fault result }
{
    match fault {
        ReplayFault::Line(_) => Unfit::Misfit(fault),
        ReplayFault::EndLine(_) => Unfit::Misfit(fault),
        ReplayFault::NoMemory => Unfit::NoMemory,
    }
}
