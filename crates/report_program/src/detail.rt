//! How much is said of what goes wrong.

ghost use Rattle.std.specs.Prelude.{◌≡◌};
ghost use Rattle.report_program.specs.Details as specified;

use report_command::Explain;

/// How much is said of what goes wrong.
#[derive(Clone, Copy, PartialEq, Eq, Debug)]
pub enum Detail {
    /// A line.
    Line,
    /// Behind it why a file failed.
    Reason,
    /// All that explains it.
    All,
}

impl Detail {
    /// How much the words ask for, where standard error is a terminal or isn't.
    pub(crate) fn of(explain: Explain, is_terminal: bool) -> Detail
        ensures { result ≡ specified.detail_of explain is_terminal }
    {
        match explain {
            Explain::Always => Detail::All,
            Explain::Never => Detail::Line,
            Explain::Auto if is_terminal => Detail::All,
            Explain::Auto => Detail::Reason,
        }
    }

    /// Whether all that explains it is said.
    pub fn explains(self) -> bool
        ensures { result ≡ specified.explains self }
    {
        match self {
            Detail::Line | Detail::Reason => false,
            Detail::All => true,
        }
    }
}
