//! The lines of a search through every order of entries.
ghost use Rattle.std.specs.Prelude.{◌≡◌};
ghost use Rattle.std.specs.List.{flat_map};
ghost use Rattle.replay_forms.specs.Texts.{Wrote};
ghost use Rattle.report_lines.specs.Complete as specified;
ghost use Rattle.report_lines.specs.Complete.{endings_text, states_text, all_line, too_many_line, cannot_tell_line};
ghost use Rattle.report_lines.specs.Complete.{told_line, cannot_end_line, fair_runs_end_line, unknown_line};
ghost use Rattle.report_lines.specs.Complete.{number_text, threads_text, cycle_line};

use std::io::{self, Write};

/// The form of a word for so many.
pub(crate) fn form_of(count: usize, one: &'static str, more: &'static str) -> &'static str
    ensures { result.now ≡ specified.form_of count one.now more.now }
{
    if count == 1 { one } else { more }
}

/// So many endings.
pub(crate) fn write_endings_count<W: Write>(out: &mut W, count: usize) -> io::Result<()>
    ensures { Wrote W.contents out.old out.new result (endings_text count) }
{
    let form = form_of(count, "ending", "endings");
    write!(out, "{count} {form}")
}

/// So many states.
fn write_states_count<W: Write>(out: &mut W, count: usize) -> io::Result<()>
    ensures { Wrote W.contents out.old out.new result (states_text count) }
{
    let form = form_of(count, "state", "states");
    write!(out, "{count} {form}")
}

/// The line that says that so many endings are all, and how many states there are.
///
/// # Errors
/// That of the writer, and then what was written isn't said. So of each function here.
pub fn write_all_met<W: Write>(out: &mut W, endings: usize, states: usize) -> io::Result<()>
    ensures { Wrote W.contents out.old out.new result (all_line endings states) }
{
    write!(out, "all: ")?;
    write_endings_count(out, endings)?;
    write!(out, ", ")?;
    write_states_count(out, states)?;
    write!(out, "\n")
}

/// The line that says that there are more states than so many.
pub fn write_too_many<W: Write>(out: &mut W, most: u32, endings: usize) -> io::Result<()>
    ensures { Wrote W.contents out.old out.new result (too_many_line most endings) }
{
    write!(out, "not all: more than ")?;
    write_states_count(out, most as usize)?;
    write!(out, "; ")?;
    write_endings_count(out, endings)?;
    write!(out, " so far\n")
}

/// The line that says that a thread makes turns of its own without end, as far as was looked.
pub fn write_cannot_tell<W: Write>(out: &mut W, endings: usize) -> io::Result<()>
    ensures { Wrote W.contents out.old out.new result (cannot_tell_line endings) }
{
    write!(out, "not all: a thread spends its units without an entry; ")?;
    write_endings_count(out, endings)?;
    write!(out, " so far\n")
}

/// The line that says that the search was told to end.
pub fn write_told<W: Write>(out: &mut W, endings: usize, states: usize) -> io::Result<()>
    ensures { Wrote W.contents out.old out.new result (told_line endings states) }
{
    write!(out, "not all: told to end; ")?;
    write_endings_count(out, endings)?;
    write!(out, ", ")?;
    write_states_count(out, states)?;
    write!(out, " so far\n")
}

/// The line that says from how many states no run ends.
pub fn write_cannot_end<W: Write>(out: &mut W, count: usize) -> io::Result<()>
    ensures { Wrote W.contents out.old out.new result (cannot_end_line count) }
{
    if count == 0 {
        return write!(out, "every state can end\n");
    }
    write_states_count(out, count)?;
    write!(out, " from which no run ends\n")
}

/// The line that says that every fair run ends.
pub fn write_fair_runs_end<W: Write>(out: &mut W) -> io::Result<()>
    ensures { Wrote W.contents out.old out.new result fair_runs_end_line }
{
    write!(out, "every fair run ends\n")
}

/// The line that says that this isn't known.
pub fn write_unknown<W: Write>(out: &mut W) -> io::Result<()>
    ensures { Wrote W.contents out.old out.new result unknown_line }
{
    write!(out, "whether every fair run ends is not known\n")
}

/// Numbers in a row.
fn write_numbers<W: Write>(out: &mut W, numbers: &[u32]) -> io::Result<()>
    ensures { Wrote W.contents out.old out.new result (flat_map number_text numbers.now) }
{
    for n in numbers {
        write!(out, " {n}")?;
    }
    Ok(())
}

/// The threads of these numbers.
fn write_named<W: Write>(out: &mut W, threads: &[u32]) -> io::Result<()>
    ensures { Wrote W.contents out.old out.new result (threads_text threads.now) }
{
    let form = form_of(threads.len(), "thread", "threads");
    write!(out, "{form}")?;
    write_numbers(out, threads)
}

/// The line that says that a fair run goes on for ever, in which these threads go through so many states.
pub fn write_cycle<W: Write>(out: &mut W, threads: &[u32], states: usize) -> io::Result<()>
    ensures { Wrote W.contents out.old out.new result (cycle_line threads.now states) }
{
    write!(out, "a fair run can go on for ever: ")?;
    write_named(out, threads)?;
    write!(out, " in ")?;
    write_states_count(out, states)?;
    write!(out, "\n")
}
