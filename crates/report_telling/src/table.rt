//! The table of a search of drawn runs: its lines, its status where nothing was found, and what it says of runs that
//! weren't made.
ghost use Rattle.std.specs.Prelude.{◌≡◌, ◌↔◌, ◌≤◌, true, IfOk};
ghost use Rattle.replay_forms.specs.Texts.{Wrote};
ghost use Rattle.report_telling.specs.Drawn as specified;
ghost use Rattle.report_telling.specs.Drawn.{cut_in, table_line, table_lines, unseen_text};
ghost use Rattle.report_telling.specs.NoneFound.{no_race_text, stopped_text, text_of_none, IsAllWell, IsStatusOfTable};

use crate::complete::has_ended_well;
use report_command::Sought;
use report_json::{Coverage, RunRaces};
use report_lines::{Often, write_met, write_stopped, write_unseen};
use search_endings::Ending;
use search_finds::{EndingTable, Met, is_looked_for};
use std::alloc::{AllocError, Global};
use std::io::{self, Write};
use types::{Outcome, Stop};

/// Drawn runs: as they were asked for, and the table of their endings.
#[derive(Clone, Copy)]
pub struct DrawnTable<'a> {
    pub sought: &'a Sought<'a>,
    pub table: &'a EndingTable,
}

/// Why none of drawn runs was found, and the status.
#[derive(Clone, Copy)]
pub struct NoneFound<'a> {
    /// What is known of races then, where one was looked for.
    pub races: Option<RunRaces<'a>>,
    /// The search was told to end; else all runs were made.
    pub is_told: bool,
    pub status: u8,
}

/// The line of an ending: how often it was met, when first and by which strategy, and what it is.
fn write_row<W: Write>(out: &mut W, drawn: DrawnTable, met: &Met) -> io::Result<()>
    ensures { Wrote W.contents out.old out.new result
        (table_line drawn.entry.sought.now drawn.entry.table.now.runs met.now) }
{
    let often = Often {
        times: met.times,
        runs: drawn.table.runs,
        first: met.first,
    };
    let way = drawn.sought.way.of_run(met.first);
    write_met(out, often, way, &met.ending)
}

/// The table of the endings, in the order of their first runs.
pub(crate) fn write_table<W: Write>(out: &mut W, drawn: DrawnTable) -> io::Result<()>
    ensures { Wrote W.contents out.old out.new result
        (table_lines drawn.entry.sought.now drawn.entry.table.now) }
{
    let rows = drawn.table.met.as_slice();
    for met in rows {
        write_row(out, drawn, met)?;
    }
    out.flush()
}

/// Whether a run was made, in each ending of the table all threads ended well, and none is looked for.
fn is_all_well(alloc: Global, drawn: DrawnTable) -> Result<bool, AllocError>
    ensures { IfOk result (λ is. (is ≡ true) ↔ IsAllWell drawn.entry.sought.now drawn.entry.table.now) }
{
    let DrawnTable { sought, table } = drawn;
    if table.runs == 0 {
        return Ok(false);
    }
    for met in table.met.iter() {
        if !has_ended_well(&met.ending) || is_looked_for(alloc, sought, &met.ending)? {
            return Ok(false);
        }
    }
    Ok(true)
}

/// The status of a search that found nothing: 0 where all is well, and else 1.
///
/// # Errors
/// Where memory is refused.
pub fn status_of_none(alloc: Global, drawn: DrawnTable) -> Result<u8, AllocError>
    ensures { IfOk result (IsStatusOfTable drawn.entry.sought.now drawn.entry.table.now) }
{
    if is_all_well(alloc, drawn)? {
        return Ok(0);
    }
    Ok(1)
}

/// Whether a thread found the log full.
fn found_it_full(outcome: Outcome) -> bool
    ensures { result ≡ specified.found_it_full outcome }
{
    matches!(outcome, Outcome::Stop(Stop::RecordFull))
}

/// Whether a run that ended so was cut.
fn is_cut(ending: &Ending) -> bool
    ensures { result ≡ specified.is_cut ending.now }
{
    ending
        .outcomes()
        .iter()
        .any(|outcome| found_it_full(*outcome))
}

/// How many runs of a table were cut, of those that were made.
pub(crate) fn cut_of(table: &EndingTable) -> u64
    requires { cut_in table.now ≤ table.now.runs }
    ensures { result ≡ cut_in table.now }
{
    let _runs = table.runs;
    let mut cut = 0u64;
    for met in table.met.iter() {
        if is_cut(&met.ending) {
            cut += met.times;
        }
    }
    cut
}

/// How many endings of a table were met first in the last half of its runs, and how many in one run alone.
pub(crate) fn coverage_of(drawn: DrawnTable) -> Coverage
    ensures { result ≡ specified.coverage_of drawn.entry.sought.now drawn.entry.table.now }
{
    let DrawnTable { sought, table } = drawn;
    let half = table.runs / 2;
    let from = sought.from;
    Coverage {
        late: table
            .met
            .iter()
            .filter(|met| half <= met.first.saturating_sub(from))
            .count(),
        singles: table.met.iter().filter(|met| met.times == 1).count(),
    }
}

/// The line of what is unseen, where runs were made: how many endings there are, how many were new in the last half of
/// the runs, and with which chance a further run ends as none did (the share of the runs whose ending no other run has;
/// Good-Turing).
fn write_unseen_of<W: Write>(out: &mut W, drawn: DrawnTable) -> io::Result<()>
    ensures { Wrote W.contents out.old out.new result
        (unseen_text drawn.entry.sought.now drawn.entry.table.now) }
{
    let runs = drawn.table.runs;
    if runs == 0 {
        return Ok(());
    }
    let Coverage { late, singles } = coverage_of(drawn);
    write_unseen(out, drawn.table.met.len(), late, singles, runs)
}

/// That none of so many runs has a race, where some were made.
fn write_no_race<W: Write>(out: &mut W, runs: u64) -> io::Result<()>
    ensures { Wrote W.contents out.old out.new result (no_race_text runs) }
{
    if runs == 0 {
        return Ok(());
    }
    if runs == 1 {
        return write!(out, "no race in 1 run; others may have one\n");
    }
    write!(out, "no race in {runs} runs; others may have one\n")
}

/// That the search was told to end, where it was.
fn write_stopped_if<W: Write>(out: &mut W, drawn: DrawnTable, is_told: bool) -> io::Result<()>
    ensures { Wrote W.contents out.old out.new result
        (stopped_text is_told drawn.entry.sought.now drawn.entry.table.now) }
{
    if !is_told {
        return Ok(());
    }
    write_stopped(out, drawn.table.runs, drawn.sought.runs)
}

/// What is said behind the table where nothing was found: that the search was told to end, where it was, that no run
/// has a race, where one was looked for, and what is unseen.
pub(crate) fn write_none<W: Write>(
    out: &mut W,
    drawn: DrawnTable,
    none: NoneFound,
) -> io::Result<()>
    ensures { Wrote W.contents out.old out.new result
        (text_of_none none.entry.races none.entry.is_told drawn.entry.sought.now drawn.entry.table.now) }
{
    write_stopped_if(out, drawn, none.is_told)?;
    if none.races.is_none() {
        return write_unseen_of(out, drawn);
    }
    write_no_race(out, drawn.table.runs)?;
    write_unseen_of(out, drawn)
}
