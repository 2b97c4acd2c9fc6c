//! The lines of what was found of all runs, and whether all of it is well.
ghost use Rattle.std.specs.Prelude.{◌≡◌, ◌↔◌, true, All, length};
ghost use Rattle.replay_forms.specs.Texts.{Wrote};
ghost use Rattle.search_finds.specs.Finds.{IsLookedFor};
ghost use Rattle.report_lines.specs.Complete.{counted, cycle_line};
ghost use Rattle.report_telling.specs.Complete.{all_line, liveness_lines, unknown_text, verdict_line, complete_lines};
ghost use Rattle.report_telling.specs.Complete.{entries_line, fair_runs_line, gone_through_text, sought_line};
ghost use Rattle.report_telling.specs.Complete.{all_end_well, threads_end_well, EndsForSure, IsSure, AreAllWell};

use crate::racing::Racing;
use report_command::Sought;
use report_lines::{
    write_cannot_end, write_cannot_tell, write_cycle, write_endings, write_fair_runs_end,
    write_told, write_too_many, write_unknown,
};
use search_endings::{Ending, is_done};
use search_reach::{Ended, FairCycle, FairRuns, Liveness, Verdict};
use std::io::{self, Write};

/// The endings of a call, each with a path to it, whether they are all, and what never ends.
pub type Complete = Ended<Ending>;

/// The lines that say what never ends, where that is said, and whether every fair run ends.
fn write_liveness<W: Write>(out: &mut W, liveness: &Option<Liveness>) -> io::Result<()>
    ensures { Wrote W.contents out.old out.new result (liveness_lines liveness.now) }
{
    let Some(liveness) = liveness else {
        return Ok(());
    };
    write_cannot_end(out, liveness.endless.len())?;
    write_fair_runs(out, &liveness.fair_runs)
}

/// The line that says whether every fair run ends.
fn write_fair_runs<W: Write>(out: &mut W, fair_runs: &FairRuns) -> io::Result<()>
    ensures { Wrote W.contents out.old out.new result (fair_runs_line fair_runs.now) }
{
    match fair_runs {
        FairRuns::AllEnd => write_fair_runs_end(out),
        FairRuns::GoOn(cycle) => write_cycle_of(out, cycle),
        FairRuns::Unknown => write_unknown(out),
    }
}

/// The line that says that this fair run goes on for ever.
fn write_cycle_of<W: Write>(out: &mut W, cycle: &FairCycle) -> io::Result<()>
    ensures { Wrote W.contents out.old out.new result (cycle_line cycle.now.threads.items cycle.now.states) }
{
    write_cycle(out, cycle.threads.as_slice(), cycle.states)
}

/// So many of a thing.
fn write_counted<W: Write>(
    out: &mut W,
    count: usize,
    one: &'static str,
    more: &'static str,
) -> io::Result<()>
    ensures { Wrote W.contents out.old out.new result (counted count one.now more.now) }
{
    let form = if count == 1 { one } else { more };
    write!(out, "{count} {form}")
}

/// The line that says that so many endings are all, how many states there are, and what is known of races.
fn write_all<W: Write>(out: &mut W, endings: usize, states: usize, racing: Racing) -> io::Result<()>
    ensures { Wrote W.contents out.old out.new result (all_line endings states racing) }
{
    write!(out, "all: ")?;
    write_counted(out, endings, "ending", "endings")?;
    write!(out, ", ")?;
    write_counted(out, states, "state", "states")?;
    let words = racing.words();
    write!(out, "{words}\n")
}

/// The line that says that the search ended at an ending that is looked for.
fn write_sought<W: Write>(out: &mut W, endings: usize, states: usize) -> io::Result<()>
    ensures { Wrote W.contents out.old out.new result (sought_line endings states) }
{
    write!(out, "not all: found what is looked for; ")?;
    write_counted(out, endings, "ending", "endings")?;
    write!(out, ", ")?;
    write_counted(out, states, "state", "states")?;
    write!(out, " so far\n")
}

/// The line that says whether the endings are all.
fn write_verdict<W: Write>(out: &mut W, all: &Complete, most: u32, racing: Racing) -> io::Result<()>
    ensures { Wrote W.contents out.old out.new result
        (verdict_line racing all.now.verdict most (length all.now.endings.keys) all.now.states) }
{
    let endings = all.endings.len();
    match all.verdict {
        Verdict::All => write_all(out, endings, all.states, racing),
        Verdict::TooMany => write_too_many(out, most, endings),
        Verdict::CannotTell => write_cannot_tell(out, endings),
        Verdict::Told => write_told(out, endings, all.states),
        Verdict::Sought => write_sought(out, endings, all.states),
    }
}

/// The line that says that runs with up to so many entries were all gone through.
fn write_entries<W: Write>(out: &mut W, entries: u32) -> io::Result<()>
    ensures { Wrote W.contents out.old out.new result (entries_line entries) }
{
    write!(out, "every run of up to ")?;
    write_counted(out, entries as usize, "entry", "entries")?;
    write!(out, " was gone through\n")
}

/// The same, if any run has so few, where that is said and not all were.
fn write_gone_through<W: Write>(out: &mut W, all: &Complete) -> io::Result<()>
    ensures { Wrote W.contents out.old out.new result (gone_through_text all.now.verdict all.now.levels) }
{
    match all.verdict {
        Verdict::All => Ok(()),
        Verdict::TooMany | Verdict::CannotTell | Verdict::Told | Verdict::Sought => {
            match all.levels {
                None | Some(0) => Ok(()),
                Some(entries) => write_entries(out, entries),
            }
        }
    }
}

/// The line that says that whether threads race isn't known, where that is so, unless the search ended at what is
/// looked for.
fn write_unknown_races<W: Write>(out: &mut W, verdict: Verdict, racing: Racing) -> io::Result<()>
    ensures { Wrote W.contents out.old out.new result (unknown_text verdict racing) }
{
    match verdict {
        Verdict::Sought => Ok(()),
        Verdict::All | Verdict::TooMany | Verdict::CannotTell | Verdict::Told => match racing {
            Racing::Unknown => write!(out, "whether it races is not known\n"),
            Racing::Unasked | Racing::Never | Racing::OnlyBehindTimeouts | Racing::Found(_) => Ok(
                (),
            ),
        },
    }
}

/// A line for each ending, whether these are all, how far it came, what is known of races, and what never ends.
pub(crate) fn write_complete<W: Write>(
    out: &mut W,
    all: &Complete,
    most: u32,
    racing: Racing,
) -> io::Result<()>
    ensures { Wrote W.contents out.old out.new result (complete_lines most racing all.now) }
{
    write_endings(out, all.endings.as_slice())?;
    write_verdict(out, all, most, racing)?;
    write_gone_through(out, all)?;
    write_unknown_races(out, all.verdict, racing)?;
    write_liveness(out, &all.liveness)?;
    out.flush()
}

/// Whether all threads ended well.
pub(crate) fn has_ended_well(ending: &Ending) -> bool
    ensures { result ≡ threads_end_well ending.now }
{
    ending.outcomes().iter().all(|outcome| is_done(*outcome))
}

/// Whether it is said that every state can end, and that every fair run does.
fn ends_for_sure(liveness: &Liveness) -> bool
    ensures { (result ≡ true) ↔ EndsForSure liveness.now }
{
    liveness.endless.is_empty() && matches!(liveness.fair_runs, FairRuns::AllEnd)
}

/// Whether the endings are all, every state can end, and every fair run does.
fn is_sure(all: &Complete) -> bool
    ensures { (result ≡ true) ↔ IsSure all.now }
{
    let Verdict::All = all.verdict else {
        return false;
    };
    match &all.liveness {
        Some(liveness) => ends_for_sure(liveness),
        None => false,
    }
}

/// Whether in each of these endings all threads ended well.
fn all_ended_well(endings: &[Ending]) -> bool
    ensures { result ≡ all_end_well endings.now }
{
    endings.iter().all(|ending| has_ended_well(ending))
}

/// Whether the endings are all, there is one, in each all threads ended well, every state can end, and every fair run
/// does. Where no run ends there is no ending.
pub fn are_well(all: &Complete, sought: &Sought) -> bool
    requires { All (λ e. IsLookedFor sought.now e → ⊥) all.now.endings.keys }
    ensures { (result ≡ true) ↔ AreAllWell sought.now all.now }
{
    let endings = all.endings.as_slice();
    if !is_sure(all) || endings.is_empty() {
        return false;
    }
    all_ended_well(endings)
}
