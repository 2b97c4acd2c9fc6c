//! What comes of a job, as a value: its status, the line about it, its object and what explains it are made of this.
ghost use Rattle.std.specs.Prelude.{◌≡◌};
ghost use Rattle.report_jobs.specs.Undone.{ended_status, undone_status, refused_status, absent_words};
ghost use Rattle.report_jobs.specs.Undone.{absent_behind, absent_front, absent_name};
ghost use Rattle.report_jobs.specs.Undone.{of_refusal, of_trouble, of_unfit, of_unready};

use crate::loading::{ModuleRefusal, Unready};
use crate::replaying::Unfit;
use crate::running::Trouble;
use binary_wire::{Fault, ReadFault};
use replay::ReplayFault;
use replay_text::RecordFault;
use report_command::{ADVICE, MemoryFile};
use report_memory::Unlaid;
use show_rows::Stood;
use spawn_host::CallFault;
use std::alloc::{AllocError, Global};
use types::{Outcome, ThreadReport};
use validate::ValidModule;
use validate_typing::ValidFault;

/// What a record of a run has not that is asked for.
#[derive(Clone, Copy, PartialEq, Eq, Debug)]
pub enum Absent<'a> {
    /// No static data has this name, or the module has no debug section.
    NoData(&'a str),
    /// Data at different places has it.
    SeveralData(&'a str),
    /// No thread trapped.
    NoTrap,
}

impl<'a> Absent<'a> {
    /// What an object says of it.
    pub fn words(self) -> &'static str
        ensures { result.now ≡ absent_words self.entry }
    {
        match self {
            Absent::NoData(_) => "no static data of this name; a debug section has names",
            Absent::SeveralData(_) => "data at several addresses has this name",
            Absent::NoTrap => "no thread trapped",
        }
    }

    /// What its line says before the name, the name, and what it says behind it.
    pub(crate) fn line(self) -> (&'static str, &'a str, &'static str)
        ensures front { result.0.now ≡ absent_front self.entry }
        ensures name { result.1.now ≡ absent_name self.entry }
        ensures behind { result.2.now ≡ absent_behind self.entry }
    {
        match self {
            Absent::NoData(name) => {
                (
                    "no static data is called ",
                    name,
                    "; a debug section has names\n",
                )
            }
            Absent::SeveralData(name) => ("data at several addresses is called ", name, "\n"),
            Absent::NoTrap => ("no thread trapped\n", "", ""),
        }
    }
}

/// Why a record is of no run of its module, beside the line that doesn't fit.
#[derive(Drop)]
pub struct Misfit {
    pub module: ValidModule,
    /// What the thread of that line does in place of it, where the line is one of the log.
    pub stood: Option<Stood>,
}

/// What is refused, with its numbers and with what explains it.
#[derive(Drop)]
pub enum Refused<'a> {
    /// Bytes that are no module's text: what is wrong, and at which offset.
    Read {
        kind: Fault,
        offset: usize,
    },
    /// A module that breaks a rule outside its bodies.
    Rule(validate_typing::Fault),
    /// A module that breaks a rule in a body: of the function with this index, at this instruction of its flat code.
    RuleInBody {
        kind: validate_typing::Fault,
        function: usize,
        instruction: usize,
    },
    /// So many bytes of a file can't be laid over the opening memory of the module, from this address on.
    Unlaid {
        why: Unlaid,
        addr: u32,
        count: usize,
    },
    /// A call that the module hasn't.
    Call {
        fault: CallFault,
        module: ValidModule,
    },
    /// A record has not what is asked for.
    Absent(Absent<'a>),
    /// Races are allowed at data that the module hasn't.
    Allowance(Absent<'a>),
    /// Bytes that are no record's text: this line of the header is wrong or missing.
    Header(usize),
    /// This line behind the header is wrong where it stands.
    Unreadable(usize),
    /// The text ends before its last line.
    EndMissing,
    /// A record of no run of the module: this line of the header or of the log is the first that doesn't fit.
    Line(u32, Misfit),
    /// The log fits, and this line behind it is the first that doesn't.
    EndLine(u32, Misfit),
}

/// What failed.
#[derive(Clone, Copy, PartialEq, Eq)]
pub enum Failed<'a> {
    /// The system had too little memory left.
    Memory,
    /// The system refused a thread.
    Thread,
    /// Standard output.
    Output,
    /// The file at this path, or the one of the record.
    File(Option<&'a str>),
}

/// Why a job isn't done.
#[derive(Drop)]
pub enum Undone<'a> {
    Refused(Refused<'a>),
    Failed(Failed<'a>),
}

/// Which advice there is to give about threads that were stopped: for each row of `ADVICE` whether it fits an end.
#[derive(Clone, Copy)]
pub struct Advised {
    fits: [bool; 4],
}

impl Advised {
    /// None yet.
    pub fn none() -> Advised {
        Advised { fits: [false; 4] }
    }

    /// Notes that a thread ended so.
    pub fn note(&mut self, outcome: Outcome) {
        for (fits, advice) in self.fits.iter_mut().zip(ADVICE.iter()) {
            if advice.outcome == outcome {
                *fits = true;
            }
        }
    }

    /// What fits these ends.
    pub fn of_reports(reports: &[ThreadReport]) -> Advised {
        let mut advised = Advised::none();
        for report in reports {
            advised.note(report.outcome);
        }
        advised
    }

    /// The lines, each without its line feed, in the order in which they are said.
    pub fn lines(self, alloc: Global) -> Result<Vec<&'static str>, AllocError> {
        let mut lines = Vec::new(alloc);
        for (fits, advice) in self.fits.iter().zip(ADVICE.iter()) {
            if *fits {
                lines.push(advice.words)?;
            }
        }
        Ok(lines)
    }
}

/// Which races aren't told, since they are allowed.
#[derive(Clone, Copy, PartialEq, Eq, Debug)]
pub enum LeftOut {
    /// None is allowed.
    Nothing,
    /// Some may be, of runs that weren't all made.
    Some,
    /// So many of a run.
    Races(usize),
}

/// A job that is done.
#[derive(Clone, Copy)]
pub struct Done {
    /// 0; or 1 where a thread trapped or was stopped, accesses race, or a search found what it looks for, has not all
    /// endings, or none.
    pub status: u8,
    pub advised: Advised,
    /// Whether a search compared only how threads ended: the function returns nothing, and no bytes belong to an ending.
    pub is_bare: bool,
    pub left_out: LeftOut,
    /// Whether runs were drawn since going through every order first settled not all.
    pub is_unsettled: bool,
}

impl Done {
    /// With this status, and no advice.
    pub fn with(status: u8) -> Done
        ensures { result.status ≡ status }
    {
        Done {
            status,
            advised: Advised::none(),
            is_bare: false,
            left_out: LeftOut::Nothing,
            is_unsettled: false,
        }
    }
}

/// What comes of a job.
pub type JobResult<'a> = Result<Done, Undone<'a>>;

impl Refused<'_> {
    /// The status: 2 of a module, 3 of a call, of bytes that can't be laid, of what a record has not and of data that a
    /// module hasn't, 4 of a record.
    pub fn status(&self) -> u8
        ensures { result ≡ refused_status self.now }
    {
        match self {
            Refused::Read { .. } | Refused::Rule(_) | Refused::RuleInBody { .. } => 2,
            Refused::Unlaid { .. }
            | Refused::Call { .. }
            | Refused::Absent(_)
            | Refused::Allowance(_) => 3,
            Refused::Header(_)
            | Refused::Unreadable(_)
            | Refused::EndMissing
            | Refused::Line(_, _)
            | Refused::EndLine(_, _) => 4,
        }
    }
}

impl Undone<'_> {
    /// The status: that of what is refused, or 5.
    pub fn status(&self) -> u8
        ensures { result ≡ undone_status self.now }
    {
        match self {
            Undone::Refused(refused) => refused.status(),
            Undone::Failed(_) => 5,
        }
    }
}

/// The status with which the program ends.
pub fn status_of(ended: &JobResult) -> u8
    ensures { result ≡ ended_status ended.now }
{
    match ended {
        Ok(done) => done.status,
        Err(undone) => undone.status(),
    }
}

/// What bytes come to that give no valid module.
pub fn of_refusal(refusal: ModuleRefusal) -> Undone<'static>
    ensures { result ≡ of_refusal refusal }
{
    match refusal {
        ModuleRefusal::Read(ReadFault::OutOfMemory)
        | ModuleRefusal::Validity(ValidFault::OutOfMemory) => { Undone::Failed(Failed::Memory) }
        ModuleRefusal::Read(ReadFault::Malformed { kind, offset }) => {
            Undone::Refused(Refused::Read { kind, offset })
        }
        ModuleRefusal::Validity(ValidFault::Outside(kind)) => Undone::Refused(Refused::Rule(kind)),
        ModuleRefusal::Validity(
            ValidFault::InBody {
                kind,
                function,
                instruction,
            },
        ) => Undone::Refused(Refused::RuleInBody {
            kind,
            function,
            instruction,
        }),
    }
}

/// What a module comes to of which no run can be made, where so many bytes of a file were to be laid over its memory.
pub(crate) fn of_unready(
    unready: Unready,
    file: Option<MemoryFile>,
    count: usize,
) -> Undone<'static>
    ensures { result ≡ of_unready unready file.entry count }
{
    match unready {
        Unready::Refused(refusal) => of_refusal(refusal),
        Unready::Unlaid(why) => {
            let addr = file.map_or(0, |file| file.addr);
            Undone::Refused(Refused::Unlaid { why, addr, count })
        }
        Unready::NoMemory => Undone::Failed(Failed::Memory),
    }
}

/// What a run or a search comes to that wasn't made, or of which something couldn't be written: the file that failed is
/// the one of the record or of the memory.
pub fn of_trouble<'a>(
    trouble: Trouble,
    module: ValidModule,
    save: Option<&'a str>,
    memory: Option<&'a str>,
) -> Undone<'a>
    ensures { result ≡ of_trouble trouble «module» save.entry memory.entry }
{
    match trouble {
        Trouble::Call(fault) => Undone::Refused(Refused::Call { fault, module }),
        Trouble::NoThread => Undone::Failed(Failed::Thread),
        Trouble::NoMemory => Undone::Failed(Failed::Memory),
        Trouble::Output => Undone::Failed(Failed::Output),
        Trouble::Save => Undone::Failed(Failed::File(save)),
        Trouble::SaveMemory => Undone::Failed(Failed::File(memory)),
    }
}

/// What a record comes to that isn't replayed.
pub fn of_unfit(unfit: Unfit, module: ValidModule, stood: Option<Stood>) -> Undone<'static>
    ensures { result ≡ of_unfit unfit «module» stood }
{
    match unfit {
        Unfit::Unread(RecordFault::Header(line)) => Undone::Refused(Refused::Header(line)),
        Unfit::Unread(RecordFault::Unreadable(line)) => Undone::Refused(Refused::Unreadable(line)),
        Unfit::Unread(RecordFault::EndMissing) => Undone::Refused(Refused::EndMissing),
        Unfit::Misfit(ReplayFault::Line(line)) => {
            Undone::Refused(Refused::Line(line, Misfit { module, stood }))
        }
        Unfit::Misfit(ReplayFault::EndLine(line)) => {
            Undone::Refused(Refused::EndLine(line, Misfit { module, stood }))
        }
        Unfit::Unread(RecordFault::NoMemory)
        | Unfit::Misfit(ReplayFault::NoMemory)
        | Unfit::NoMemory => Undone::Failed(Failed::Memory),
        Unfit::Output => Undone::Failed(Failed::Output),
    }
}
