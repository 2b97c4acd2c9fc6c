//! What is known of the races of all runs, and a race that is told: of a run that has one, or of threads alone.
ghost use Rattle.std.specs.Prelude.{◌≡◌};
ghost use Rattle.report_telling.specs.Complete.{race_words};
ghost use Rattle.report_telling.specs.Racing as specified;
ghost use Rattle.report_telling.specs.Troubles.{IsOfSystem};

use report_jobs::Trouble;
use report_json::Shrunk;
use report_looks::RacesOfRun;
use search_race_free::ThreadRace;
use search_scheduled::MadeRun;
use show_text::Unwritten;

/// What is known of the races of all runs.
#[derive(Clone, Copy)]
pub enum Racing {
    /// It isn't asked.
    Unasked,
    /// None has one, and no thread waits with a timeout in any.
    Never,
    /// None has one, but for what comes behind waits with a timeout, and there are such waits.
    OnlyBehindTimeouts,
    /// These threads race in some run.
    Found(ThreadRace),
    /// Whether they race isn't known.
    Unknown,
}

impl Racing {
    /// What is said of it behind how many endings and states there are.
    pub(crate) fn words(self) -> &'static str
        ensures { result.now ≡ race_words self }
    {
        match self {
            Racing::Never => ", no race",
            Racing::OnlyBehindTimeouts =>
                ", no race, but for what comes behind waits with a timeout",
            Racing::Found(_) => ", with races: status 1 without --allow-races",
            Racing::Unasked | Racing::Unknown => "",
        }
    }

    /// Whether all may be well with it, where races are allowed or not.
    pub fn is_allowed(self, allow_races: bool) -> bool
        ensures { result ≡ specified.allows allow_races self }
    {
        if allow_races {
            return true;
        }
        match self {
            Racing::Unasked | Racing::Never | Racing::OnlyBehindTimeouts => true,
            Racing::Found(_) | Racing::Unknown => false,
        }
    }
}

/// A run that was made, and its first race.
#[derive(Drop)]
pub struct RacyRun<'m, 'n> {
    pub made: MadeRun,
    pub race: RacesOfRun<'m, 'n>,
}

/// What is told of a race of all runs.
#[derive(Drop)]
pub enum Raced<'m, 'n> {
    /// None is known.
    Untold,
    /// These threads race in some run; none was made in which they do.
    Threads(ThreadRace),
    /// A run that has one, and whether its record is kept.
    Run(RacyRun<'m, 'n>, bool),
}

/// A run with a race that was found: its number, the sizes of one that was shrunk, and the run.
#[derive(Drop)]
pub struct KeptRace<'m, 'n> {
    pub run: u64,
    pub shrunk: Option<Shrunk>,
    pub racy: RacyRun<'m, 'n>,
}

/// What comes of what wasn't written.
pub fn trouble_of(unwritten: Unwritten) -> Trouble
    ensures { IsOfSystem result }
{
    match unwritten {
        Unwritten::NoMemory => Trouble::NoMemory,
        Unwritten::Output => Trouble::Output,
    }
}
