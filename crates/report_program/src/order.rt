//! The command line of a program.

ghost use Rattle.std.specs.Prelude.{◌≡◌, IfOk};
ghost use Rattle.report_command.specs.Jobs.{IsInRange};
ghost use Rattle.report_command.specs.Options.{texts_in};
ghost use Rattle.report_program.specs.Coloring.{IsColored, IsPlanOf};
ghost use Rattle.report_program.specs.Details.{detail_of, explains};

use crate::Detail;
use report_command::{Color, EndLook, Job, JobOrder, ShowLook, Usage, asked, not_text};
use std::env;
use std::io::{ErrorKind, IsTerminal};

/// The words of the command line, of which the first is the program's name.
///
/// # Errors
/// `Wrong` where one isn't UTF-8, and `NoMemory`.
pub fn words_of(rt: &HostRuntime) -> Result<Vec<String>, Usage> {
    match env::args(rt) {
        Ok(words) => Ok(words.collect(rt.alloc())?),
        Err(error) if error.kind() == ErrorKind::OutOfMemory => Err(Usage::NoMemory),
        Err(_) => Err(not_text(rt.alloc())),
    }
}

/// Whether threads have colors: where that is left open, as on a terminal.
fn color_on(color: Color, is_terminal: bool) -> Color {
    match color {
        Color::Auto if is_terminal => Color::Always,
        Color::Auto => Color::Never,
        chosen => chosen,
    }
}

/// What is done, and how much is said of what goes wrong.
#[derive(Drop)]
pub struct JobPlan<'a> {
    pub job: Job<'a>,
    pub detail: Detail,
}

/// The end of a run, where it is told which threads trapped or it isn't.
fn end_told(look: EndLook, traps: bool) -> EndLook
    ensures { result ≡ record look { traps = traps } }
{
    EndLook { traps, ..look }
}

/// The job, with colors as standard output takes them, and with where threads trapped where it is explained.
fn colored<'a>(job: Job<'a>, is_terminal: bool, explain: bool) -> Job<'a>
    requires { IsInRange job }
    ensures range { IsInRange result }
    ensures same { IsColored explain job.entry result }
{
    match job {
        Job::Run(mut run) => {
            run.look = end_told(run.look, explain);
            Job::Run(run)
        }
        Job::Replay { file, saved, look } => Job::Replay {
            file,
            saved,
            look: end_told(look, explain),
        },
        Job::Show {
            file,
            saved,
            names,
            how,
        } => Job::Show {
            file,
            saved,
            names,
            how: ShowLook {
                color: color_on(how.color, is_terminal),
                ..how
            },
        },
        other => other,
    }
}

/// An order, with colors and explained as these streams are terminals.
fn plan_of<'a>(order: JobOrder<'a>, out: bool, err: bool) -> JobPlan<'a>
    requires { IsInRange order.job }
    ensures range { IsInRange result.job }
    ensures detail { result.detail ≡ detail_of order.entry.explain err }
    ensures same { IsColored (explains result.detail) order.entry.job result.job }
{
    let JobOrder { job, explain } = order;
    let detail = Detail::of(explain, err);
    JobPlan {
        job: colored(job, out, detail.explains()),
        detail,
    }
}

/// What the words ask for, with colors as standard output takes them, and explained as standard error does.
///
/// # Errors
/// As those of `report_command::asked`.
pub fn order_of<'a>(rt: &HostRuntime, words: &'a [&'a str]) -> Result<JobPlan<'a>, Usage>
    ensures range { IfOk result (λ plan. IsInRange plan.job) }
    ensures asks { IfOk result (IsPlanOf (texts_in words.now)) }
{
    match asked(rt.alloc(), words) {
        Ok(order) => Ok(plan_of(order, rt.stdout().is_terminal(), rt.stderr().is_terminal())),
        Err(usage) => Err(usage),
    }
}
