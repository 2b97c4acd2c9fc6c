//! The lines of a search of drawn runs.
ghost use Rattle.std.specs.Prelude.{◌≡◌, codes};
ghost use Rattle.replay_forms.specs.Texts.{Wrote};
ghost use Rattle.report_lines.specs.Complete.{form_of};
ghost use Rattle.report_lines.specs.Drawn.{way_text, often_text, met_line, cut_line, stopped_line};
ghost use Rattle.report_lines.specs.Drawn.{late_text, chance_text, unseen_line};

use crate::complete::write_endings_count;
use crate::endings::write_ending;
use search_endings::Ending;
use selection::Way;
use std::io::{self, Write};

/// How often an ending was met, in how many runs, and in the run of which number first.
#[derive(Clone, Copy)]
pub struct Often {
    pub times: u64,
    pub runs: u64,
    pub first: u64,
}

/// A strategy, as on the command line.
fn write_way<W: Write>(out: &mut W, way: Way) -> io::Result<()>
    ensures { Wrote W.contents out.old out.new result (way_text way) }
{
    match way {
        Way::Mix => write!(out, "mix"),
        Way::Random => write!(out, "random"),
        Way::Priorities(depth) => write!(out, "pct:{depth}"),
        Way::Spin => write!(out, "spin"),
    }
}

/// How often an ending was met, and when first.
fn write_often<W: Write>(out: &mut W, often: Often) -> io::Result<()>
    ensures { Wrote W.contents out.old out.new result (often_text often) }
{
    let Often { times, runs, first } = often;
    write!(out, "{times} of {runs}, first in run {first} by ")
}

/// Writes the line of an ending: how often it was met, when first and by which strategy, and what it is.
///
/// # Errors
/// That of the writer, and then what was written isn't said. So of each function here.
pub fn write_met<W: Write>(out: &mut W, often: Often, way: Way, ending: &Ending) -> io::Result<()>
    ensures { Wrote W.contents out.old out.new result (met_line often way ending.now) }
{
    write_often(out, often)?;
    write_way(out, way)?;
    write!(out, ": ")?;
    write_ending(out, ending)
}

/// The words for so many runs.
fn runs_form(count: u64) -> &'static str
    ensures { result.now ≡ form_of count (codes "run was") (codes "runs were") }
{
    if count == 1 { "run was" } else { "runs were" }
}

/// Writes the line of runs that were cut at the end of their log, which takes so many entries, where there are some.
pub fn write_cut<W: Write>(out: &mut W, cut: u64, limit: u32) -> io::Result<()>
    ensures { Wrote W.contents out.old out.new result (cut_line cut limit) }
{
    if cut == 0 {
        return Ok(());
    }
    let form = runs_form(cut);
    write!(out, "{cut} {form} cut at {limit} entries\n")
}

/// Writes the line of a search that was told to end: how many of its runs were made.
pub fn write_stopped<W: Write>(out: &mut W, made: u64, runs: u64) -> io::Result<()>
    ensures { Wrote W.contents out.old out.new result (stopped_line made runs) }
{
    write!(out, "told to end: {made} of {runs} runs\n")
}

/// How many endings were new in the last half of the runs.
fn write_late<W: Write>(out: &mut W, late: usize) -> io::Result<()>
    ensures { Wrote W.contents out.old out.new result (late_text late) }
{
    write!(
        out,
        ", {late} new in the last half of the runs; chance of another one in a further run: "
    )
}

/// With which chance a further run ends as none of so many did.
fn write_chance<W: Write>(out: &mut W, singles: usize, runs: u64) -> io::Result<()>
    ensures { Wrote W.contents out.old out.new result (chance_text singles runs) }
{
    if singles == 0 {
        return write!(out, "below 1 in {runs}\n");
    }
    write!(out, "about {singles} in {runs}\n")
}

/// Writes the line of what is unseen after so many runs: how many endings there are, how many were new in the last half
/// of the runs, and with which chance a further run ends as none did, where so many endings were met in one run alone.
pub fn write_unseen<W: Write>(
    out: &mut W,
    endings: usize,
    late: usize,
    singles: usize,
    runs: u64,
) -> io::Result<()>
    ensures { Wrote W.contents out.old out.new result (unseen_line endings late singles runs) }
{
    write_endings_count(out, endings)?;
    write_late(out, late)?;
    write_chance(out, singles, runs)
}
