//! How a search is told: in lines, each as soon as it is known (`lines`), or in one object at the end (`objects`). What
//! is told is decided before.
ghost use Rattle.std.specs.Prelude.{IfOk, IfErr};
ghost use Rattle.types.specs.declared.parts.Parts.{Parts};
ghost use Rattle.report_jobs.specs.Prints.{changed};
ghost use Rattle.report_telling.specs.Telling.{CanConclude, CanSay, Concludes, InLines, IsSo, IsSoAtEnd, Says};
ghost use Rattle.report_telling.specs.Troubles.{IsOfSystem};

use crate::found::{FoundRun, KeptRun, WholeSearch};
use crate::racing::{KeptRace, Raced};
use crate::table::{DrawnTable, NoneFound};
use report_jobs::Trouble;
use std::alloc::Global;
use std::io::Write;

/// What is told of every order.
#[derive(Clone, Copy)]
pub struct ToldSearch<'t, 'm> {
    pub whole: &'t WholeSearch,
    pub raced: &'t Raced<'m, 'm>,
    pub kept: &'t Option<KeptRun>,
    pub most: u32,
    pub status: u8,
    pub dump: u32,
}

/// What is known of a search before its end.
#[derive(Clone, Copy)]
pub enum News<'t, 'm> {
    /// Of every order: a race.
    Race(&'t Raced<'m, 'm>),
    /// Of every order: the endings, where so many states may be met.
    Orders(&'t WholeSearch, u32),
    /// Of every order: as what something was found.
    Behind(&'t Option<FoundRun>),
    /// Of drawn runs: the table of their endings.
    Table(DrawnTable<'t>),
    /// Of drawn runs: the number of the one that was found.
    Run(u64),
}

/// How a search ends.
#[derive(Clone, Copy)]
pub enum Conclusion<'t, 'm> {
    /// Every order was gone through.
    Orders(ToldSearch<'t, 'm>),
    /// The last of drawn runs was found, of which this is kept.
    Last(DrawnTable<'t>, &'t KeptRun),
    /// The last of drawn runs has a race.
    Racy(DrawnTable<'t>, &'t KeptRace<'m, 'm>),
    /// None of drawn runs was found.
    None(DrawnTable<'t>, NoneFound<'t>),
}

/// Tells a search.
pub trait Teller {
    ghost use Rattle.report_command.specs.declared.form.Form.{Form};

    /// In which form.
    ghost form: { Form };

    /// Tells what is known before the end, while more is looked for.
    fn tell<W: Write>(&self, alloc: Global, news: News, out: &mut W) -> Result<(), Trouble>
        requires { CanSay news }
        ensures tells { (m : Parts) → IsSo m news.entry
            → IfOk result (λ _. InLines form (changed W.contents out.old out.new) (Says m news.entry)) }
        ensures trouble { IfErr result IsOfSystem };

    /// Tells the rest, and so ends.
    fn conclude<W: Write>(
        &self,
        alloc: Global,
        conclusion: Conclusion,
        out: &mut W,
    ) -> Result<(), Trouble>
        requires { CanConclude conclusion }
        ensures tells { (m : Parts) → IsSoAtEnd m conclusion.entry
            → IfOk result (λ _. Concludes form m conclusion.entry (changed W.contents out.old out.new)) }
        ensures trouble { IfErr result IsOfSystem };
}
