//! Whether more is said of what went wrong.

ghost use Rattle.std.specs.Prelude.{◌≡◌};
ghost use Rattle.clap.specs.Words.{found_of};
ghost use Rattle.report_command.specs.Options.{AsksExplain, is_explained};

use crate::options::{EXPLAIN, NO_EXPLAIN};
use clap::ArgMatches;

/// When more is said of a refusal, a trap or a stop.
#[derive(Clone, Copy, PartialEq, Eq, Debug)]
pub enum Explain {
    Always,
    Never,
    /// Where standard error is a terminal.
    Auto,
}

impl Explain {
    /// Whether more is said, where standard error is a terminal or isn't.
    pub fn is_on(self, is_terminal: bool) -> bool
        ensures { result ≡ is_explained self is_terminal }
    {
        match self {
            Explain::Always => true,
            Explain::Never => false,
            Explain::Auto => is_terminal,
        }
    }
}

/// When more is said.
pub(crate) fn explain_of(matches: &ArgMatches) -> Explain
    ensures { AsksExplain (found_of matches.now) result }
{
    if EXPLAIN.is_set(matches) {
        return Explain::Always;
    }
    if NO_EXPLAIN.is_set(matches) {
        return Explain::Never;
    }
    Explain::Auto
}
