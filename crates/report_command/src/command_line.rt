//! The command line.
ghost use Rattle.std.specs.Prelude.{◌≡◌, IfOk, IsNone, codes};
ghost use Rattle.clap.specs.Words.{found_of};
ghost use Rattle.report_command.specs.Jobs.{IsInRange, KeepsItsModule, KeepsRecordApart, KeepsMemoryApart};
ghost use Rattle.report_command.specs.Jobs.{SaysByItsLog, form_in};
ghost use Rattle.report_command.specs.Options.{AsksNamed, IsOrderOf, IsAskedBy, IsJobOf, texts_in};
ghost use Rattle.report_command.specs.FaultNumbers.{usage_number, IsWrong};

use crate::call::{CallWords, call_of};
use crate::commands::{CommandName, commands, usage_of};
use crate::explain::{Explain, explain_of};
use crate::form::{EndLook, Form, end_look_of, form_of};
use crate::kinds::UNREAD;
use crate::memory::{MemoryFile, MemoryFileReader};
use crate::options::{FILE, LIMIT, MEMORY, MEMORY_IN, MEMORY_OUT, RECORD, RUN_RECORD};
use crate::races::{RacesJob, races_job};
use crate::refusal::{CommandRefusal, WrongValue};
use crate::search::{Search, search_job};
use crate::show::{ShowLook, show_job};
use clap::error::ErrorKind;
use clap::{ArgMatches, Error};
use std::alloc::{AllocError, Global};

/// A run of a function of a module.
#[derive(Drop)]
pub struct RunJob<'a> {
    /// The path of the module.
    pub file: &'a str,
    pub call: CallWords<'a>,
    /// Whether the memory is the row of words, and not the one that records.
    pub on_words: bool,
    /// How many entries the log takes, 1 to 1,000,000.
    pub limit: u32,
    /// Whether the words say so: else the module may ask for more.
    pub is_limit_said: bool,
    /// The path of the record to be written, if one is wanted.
    pub save: Option<&'a str>,
    /// The file whose bytes are laid over its memory before the first turn, if one is.
    pub memory_in: Option<MemoryFile<'a>>,
    /// The path of the file that gets the bytes of its memory in the end, if one is wanted.
    pub memory_out: Option<&'a str>,
    /// How its end is printed.
    pub look: EndLook,
}

/// What the command line asks for.
#[derive(Drop)]
pub enum Job<'a> {
    /// Read and validate a module, and say how many functions of its own it has.
    Check {
        /// The path of the module.
        file: &'a str,
        form: Form,
    },
    /// Run a function of a module, and print how its threads ended.
    Run(RunJob<'a>),
    /// Run a record again by one thread, and print what the run printed.
    Replay {
        /// The path of the module.
        file: &'a str,
        /// The path of the record.
        saved: &'a str,
        /// How the end of its run is printed.
        look: EndLook,
    },
    /// Show the entries of a record in words.
    Show {
        /// The path of the module.
        file: &'a str,
        /// The path of the record.
        saved: &'a str,
        /// The path of another build of the module's code, for names and lines, if one is given.
        names: Option<&'a str>,
        /// What is shown, and how.
        how: ShowLook<'a>,
    },
    /// Tell the races of a record's run.
    Races(RacesJob<'a>),
    /// Run a function of a module again and again along schedules that are drawn, and print how the runs end.
    Search(Search<'a>),
}

impl Job<'_> {
    /// In which form it prints.
    pub fn form(&self) -> Form
        ensures { result ≡ form_in self.now }
    {
        match self {
            Job::Check { form, .. } => *form,
            Job::Run(job) => job.look.form,
            Job::Replay { look, .. } => look.form,
            Job::Show { how, .. } => how.view.form(),
            Job::Races(job) => job.form,
            Job::Search(search) => search.form,
        }
    }
}

/// Why the command line is no job.
#[derive(Drop)]
pub enum Usage {
    /// 1: the words are wrong; the error's text says how, and shows the usage.
    Wrong(Error),
    /// 2: help or the version was asked for, which is the error's text.
    Help(Error),
    /// 3: the system had too little memory left.
    NoMemory,
}

impl Usage {
    /// The fault's number, 1 to 3.
    pub fn number(&self) -> u8
        ensures { result ≡ usage_number self.now }
    {
        match self {
            Usage::Wrong(_) => 1,
            Usage::Help(_) => 2,
            Usage::NoMemory => 3,
        }
    }
}

impl From<Error> for Usage {
    fn from(error: Error) -> Usage {
        match error.kind() {
            ErrorKind::DisplayHelp | ErrorKind::DisplayVersion => Usage::Help(error),
            ErrorKind::OutOfMemory => Usage::NoMemory,
            _ => Usage::Wrong(error),
        }
    }
}

impl From<AllocError> for Usage {
    fn from(_: AllocError) -> Usage {
        Usage::NoMemory
    }
}

/// What is said of a record of a run with bytes laid over its memory.
const RECORDS_LAID: &str =
    "the argument '--record <OUT>' cannot be used with '--memory-in <FILE2[@ADDR]>': a record is of a run of its \
    module alone, so that a replay wants nothing else";

/// Options that don't go together, though each of them could stand there.
#[derive(Clone, Copy)]
pub enum Misuse {
    /// A record of a memory of words is wanted, which keeps none.
    RecordsWords,
    /// A record is wanted of a run with bytes laid over its memory.
    RecordsLaid,
    /// What threads say is wanted of a memory of words, which keeps no log.
    SaysOfWords,
    /// The record would take the place of the module.
    ReplacesModule,
    /// The file of the memory would take the place of one that is read, or of the record.
    MemoryReplaces,
    /// What `show` makes would take the place of a file that it reads.
    ReplacesRead,
    /// The record of what is found would take the place of the module.
    FindReplacesModule,
    /// The words are those of budgets, which a search through every order doesn't spend.
    FindsNoBudget,
    /// Of every order the run with a race isn't shrunk.
    ShrinksRace,
}

impl Misuse {
    fn command(self) -> CommandName {
        match self {
            Misuse::RecordsWords
            | Misuse::RecordsLaid
            | Misuse::SaysOfWords
            | Misuse::ReplacesModule
            | Misuse::MemoryReplaces => CommandName::Run,
            Misuse::ReplacesRead => CommandName::Show,
            Misuse::FindReplacesModule | Misuse::FindsNoBudget | Misuse::ShrinksRace => {
                CommandName::Search
            }
        }
    }

    fn text(self) -> &'static str {
        match self {
            Misuse::RecordsWords => {
                "the argument '--record <OUT>' cannot be used with '--memory words'"
            }
            Misuse::RecordsLaid => RECORDS_LAID,
            Misuse::SaysOfWords => "the argument '--text' cannot be used with '--memory words'",
            Misuse::MemoryReplaces => {
                "the argument '--memory-out <OUT2>' cannot be used with the path of a file that is read, or of the record"
            }
            Misuse::ReplacesModule | Misuse::FindReplacesModule => {
                "the argument '--record <OUT>' cannot be used with the path of <FILE>"
            }
            Misuse::ReplacesRead => {
                "'--html <OUT>' and '--trace <OUT>' cannot be used with the path of <FILE> or <RECORD>"
            }
            Misuse::FindsNoBudget => {
                "the argument '--all' cannot be used with '--find' of 'out of fuel' or 'record full': no budget is spent"
            }
            Misuse::ShrinksRace => {
                "the argument '--shrink' cannot be used with '--races' and '--all': the run to a race is told as it is"
            }
        }
    }
}

/// An error with this text, and the usage of the command, or of the whole command line: `Wrong`, or `NoMemory`.
fn usage_error(alloc: Global, command: Option<CommandName>, kind: ErrorKind, text: &str) -> Usage
    ensures { IsWrong result }
{
    let Ok(mut command) = usage_of(alloc, command) else {
        return Usage::NoMemory;
    };
    match command.error(kind, text) {
        Ok(error) => Usage::Wrong(error),
        Err(_) => Usage::NoMemory,
    }
}

/// What is said of options that don't go together: `Wrong`, or `NoMemory`.
pub fn misused(alloc: Global, misuse: Misuse) -> Usage
    ensures { IsWrong result }
{
    let command = Some(misuse.command());
    usage_error(alloc, command, ErrorKind::ArgumentConflict, misuse.text())
}

/// What is said of words of which one isn't UTF-8: `Wrong`, or `NoMemory`.
pub fn not_text(alloc: Global) -> Usage
    ensures { IsWrong result }
{
    let text = "invalid UTF-8 was detected in one or more arguments";
    usage_error(alloc, None, ErrorKind::InvalidValue, text)
}

/// What is said of a value of a command that is none of its option's kind: `Wrong`, or `NoMemory`.
fn misspelled(
    alloc: Global,
    command: Option<CommandName>,
    wrong_value: WrongValue<'static>,
) -> Usage
    ensures { IsWrong result }
{
    let WrongValue {
        name,
        value_name,
        complaint,
    } = wrong_value;
    match format!(in alloc; "invalid value for '--{name} <{value_name}>': {complaint}") {
        Ok(text) => usage_error(alloc, command, ErrorKind::InvalidValue, &text),
        Err(_) => Usage::NoMemory,
    }
}

/// What is said of the words of a command that are refused: `Wrong`, or `NoMemory`.
fn refused(alloc: Global, command: Option<CommandName>, refusal: CommandRefusal<'static>) -> Usage
    ensures { IsWrong result }
{
    match refusal {
        CommandRefusal::Value(wrong_value) => misspelled(alloc, command, wrong_value),
        CommandRefusal::Conflict(misuse) => misused(alloc, misuse),
        CommandRefusal::NoMemory => Usage::NoMemory,
    }
}

fn check_job<'a>(matches: &ArgMatches<'a>) -> Result<Job<'a>, CommandRefusal<'static>>
    ensures range { IfOk result IsInRange }
    ensures asks { IfOk result (AsksNamed (codes "check") (found_of matches.now)) }
{
    let file = FILE.text(matches)?;
    Ok(Job::Check {
        file,
        form: form_of(matches),
    })
}

fn run_job<'a>(alloc: Global, matches: &ArgMatches<'a>) -> Result<Job<'a>, CommandRefusal<'static>>
    ensures range { IfOk result IsInRange }
    ensures asks { IfOk result (AsksNamed (codes "run") (found_of matches.now)) }
{
    let memory_in = MEMORY_IN.value::<MemoryFileReader>(matches)?;
    let file = FILE.text(matches)?;
    let limit = LIMIT.number(matches)?;
    let look = end_look_of(matches)?;
    let call = call_of(alloc, matches)?;
    Ok(Job::Run(RunJob {
        file,
        call,
        on_words: MEMORY.is_word(matches, "words"),
        limit,
        is_limit_said: LIMIT.is_said(matches),
        save: RUN_RECORD.text_if_any(matches),
        memory_in,
        memory_out: MEMORY_OUT.text_if_any(matches),
        look,
    }))
}

fn replay_job<'a>(matches: &ArgMatches<'a>) -> Result<Job<'a>, CommandRefusal<'static>>
    ensures range { IfOk result IsInRange }
    ensures asks { IfOk result (AsksNamed (codes "replay") (found_of matches.now)) }
{
    let file = FILE.text(matches)?;
    let saved = RECORD.text(matches)?;
    let look = end_look_of(matches)?;
    Ok(Job::Replay { file, saved, look })
}

/// Why a run can't keep a record as it is to, if it can't.
fn record_misuse(job: &RunJob) -> Option<Misuse>
    ensures { IsNone result → KeepsRecordApart job.now }
{
    let Some(path) = job.save else {
        return None;
    };
    if job.on_words {
        return Some(Misuse::RecordsWords);
    }
    if job.memory_in.is_some() {
        return Some(Misuse::RecordsLaid);
    }
    if path == job.file {
        return Some(Misuse::ReplacesModule);
    }
    None
}

/// Why the memory of a run can't go where it is to, if it can't.
fn memory_misuse(job: &RunJob) -> Option<Misuse>
    ensures { IsNone result → KeepsMemoryApart job.now }
{
    let Some(path) = job.memory_out else {
        return None;
    };
    if path == job.file {
        return Some(Misuse::MemoryReplaces);
    }
    if let Some(saved) = job.save
        && path == saved
    {
        return Some(Misuse::MemoryReplaces);
    }
    if let Some(laid) = job.memory_in
        && path == laid.path
    {
        return Some(Misuse::MemoryReplaces);
    }
    None
}

/// Why what the threads of a run say can't be printed, if it can't.
fn text_misuse(job: &RunJob) -> Option<Misuse>
    ensures { IsNone result → SaysByItsLog job.now }
{
    if job.look.text && job.on_words {
        return Some(Misuse::SaysOfWords);
    }
    None
}

/// Why the paths of a run don't go together, or its options, if they don't.
fn run_misuse(job: &RunJob) -> Option<Misuse>
    ensures { IsNone result → KeepsRecordApart job.now × KeepsMemoryApart job.now × SaysByItsLog job.now }
{
    let misuse = record_misuse(job);
    if misuse.is_some() {
        return misuse;
    }
    let misuse = memory_misuse(job);
    if misuse.is_some() {
        return misuse;
    }
    text_misuse(job)
}

/// Why the numbers and paths of a job don't go together, if they don't.
fn misuse_of(job: &Job) -> Option<Misuse>
    ensures { IsNone result → KeepsItsModule job.now }
{
    match job {
        Job::Run(job) => run_misuse(job),
        Job::Show {
            file,
            saved,
            how,
            ..
        } => match how.view.path() {
            Some(path) if path == *file || path == *saved => Some(Misuse::ReplacesRead),
            _ => None,
        },
        Job::Search(search) => {
            if search.save == Some(search.file) {
                Some(Misuse::FindReplacesModule)
            } else {
                None
            }
        }
        _ => None,
    }
}

/// What the words ask for: a job, and when more is said where something is refused.
#[derive(Drop)]
pub struct JobOrder<'a> {
    pub job: Job<'a>,
    pub explain: Explain,
}

/// What the words of the command with this name ask for.
fn job_of<'a>(
    alloc: Global,
    name: &str,
    matches: &ArgMatches<'a>,
) -> Result<Job<'a>, CommandRefusal<'static>>
    ensures range { IfOk result IsInRange }
    ensures asks { IfOk result (AsksNamed name.now (found_of matches.now)) }
{
    match name {
        "check" => check_job(matches),
        "run" => run_job(alloc, matches),
        "replay" => replay_job(matches),
        "show" => show_job(alloc, matches),
        "races" => races_job(alloc, matches),
        "search" => search_job(alloc, matches),
        _ => Err(FILE.refusal("")),
    }
}

/// What words ask for that the parser takes.
fn order_of<'a>(alloc: Global, matches: &ArgMatches<'a>) -> Result<JobOrder<'a>, Usage>
    ensures range { IfOk result (λ asked. IsInRange asked.job) }
    ensures kept { IfOk result (λ asked. KeepsItsModule asked.job) }
    ensures asks { IfOk result (IsOrderOf matches.now) }
{
    let Some((name, matches)) = matches.subcommand() else {
        return Err(usage_error(alloc, None, ErrorKind::InvalidValue, UNREAD));
    };
    let job = match job_of(alloc, name, matches) {
        Ok(job) => job,
        Err(refusal) => return Err(refused(alloc, CommandName::of(name), refusal)),
    };
    match misuse_of(&job) {
        None => Ok(JobOrder {
            explain: explain_of(matches),
            job,
        }),
        Some(misuse) => Err(misused(alloc, misuse)),
    }
}

/// Reads the command line, of which the first word is the program's name.
///
/// # Errors
/// As those of `asked`.
pub fn command<'a>(alloc: Global, words: &'a [&'a str]) -> Result<Job<'a>, Usage>
    ensures range { IfOk result IsInRange }
    ensures kept { IfOk result KeepsItsModule }
    ensures asks { IfOk result (IsJobOf (texts_in words.now)) }
{
    match asked(alloc, words) {
        Ok(asked) => Ok(asked.job),
        Err(usage) => Err(usage),
    }
}

/// Reads the command line, of which the first word is the program's name.
///
/// # Errors
/// `Wrong` where the words are no job, also where a record of a memory of words is wanted, which keeps none, or one at
/// the path of the module; `Help` where they ask for help or the version; `NoMemory`.
pub fn asked<'a>(alloc: Global, words: &'a [&'a str]) -> Result<JobOrder<'a>, Usage>
    ensures range { IfOk result (λ asked. IsInRange asked.job) }
    ensures kept { IfOk result (λ asked. KeepsItsModule asked.job) }
    ensures asks { IfOk result (IsAskedBy (texts_in words.now)) }
{
    let matches = commands(alloc)?.try_get_matches_from(words)?;
    order_of(alloc, &matches)
}
