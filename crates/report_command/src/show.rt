//! The job of `show`.

ghost use Rattle.std.specs.Prelude.{◌≡◌, ◌≤◌, IfOk, codes};
ghost use Rattle.clap.specs.Words.{found_of};
ghost use Rattle.report_command.specs.declared.limits.TheConstants.{MOST_DUMP};
ghost use Rattle.report_command.specs.Found.{HasFlag};
ghost use Rattle.report_command.specs.Jobs.{IsInRange, IsLookInRange};
ghost use Rattle.report_command.specs.Views as views;
ghost use Rattle.report_command.specs.Views.{IsViewInRange, path_of};
ghost use Rattle.report_command.specs.Options.{AsksBytes, AsksColor, AsksEntries, AsksForm, AsksLook};
ghost use Rattle.report_command.specs.Options.{AsksNamed, AsksShown, AsksView};

use crate::command_line::Job;
use crate::form::{Form, form_of};
use crate::options::{
    ADDRESSES, AT, BYTES, COLOR, FILE, HTML, LAST_WRITE, LINES, NAMES, RAW, RECORD, SOURCE, TEXT,
    THREADS, TRACE, UNFOLD, WIDTH,
};
use crate::places::{
    BytesReader, Data, DataReader, MomentReader, SpanReader, ThreadReader, When, WrittenReader,
};
use crate::refusal::CommandRefusal;
use clap::ArgMatches;
use selection::{Color, NumberSpan};
use std::alloc::Global;

/// A moment of a record's run, at which threads and memory are shown.
#[derive(Clone, Copy)]
pub struct At {
    pub when: When,
    /// The bytes of the memory that are shown: the first one's address, and how many, 0 to 4096.
    pub addr: u64,
    pub count: u32,
    /// Whether the locals and operands of all functions are shown as they are.
    pub is_raw: bool,
    /// Whether it has what a library does in memory that it keeps for itself.
    pub is_unfolded: bool,
    /// Whether it has what the threads said before it.
    pub text: bool,
    pub form: Form,
}

/// The last write of some bytes before a moment.
#[derive(Clone, Copy)]
pub struct LastWrite<'a> {
    pub bytes: Data<'a>,
    pub before: When,
    pub form: Form,
}

/// What is made of a record.
#[derive(Clone, Copy)]
pub enum RecordView<'a> {
    /// Rows on standard output: one for rounds that are made again and again, and one for a question with its answer.
    Rows,
    /// A row on standard output for each entry.
    Unfolded,
    /// A row on standard output for each line that a thread says, in the place of entries.
    Said,
    /// What threads and memory are like at a moment, on standard output.
    Moment(At),
    /// Who wrote some bytes last, on standard output.
    Write(LastWrite<'a>),
    /// A page of HTML in the file at this path.
    Page(&'a str),
    /// A text in the Trace Event Format in the file at this path.
    Trace(&'a str),
    /// One JSON object with the entries, on standard output.
    Object,
}

impl<'a> RecordView<'a> {
    /// The path of the file that is made, if one is.
    pub fn path(&self) -> Option<&'a str>
        ensures { result ≡ path_of self.now }
    {
        match self {
            RecordView::Rows
            | RecordView::Unfolded
            | RecordView::Said
            | RecordView::Moment(_)
            | RecordView::Write(_)
            | RecordView::Object => None,
            RecordView::Page(path) | RecordView::Trace(path) => Some(*path),
        }
    }

    /// In which form it is printed.
    pub fn form(&self) -> Form
        ensures { result ≡ views.view_form self.now }
    {
        match self {
            RecordView::Object => Form::Json,
            RecordView::Moment(at) => at.form,
            RecordView::Write(write) => write.form,
            RecordView::Rows
            | RecordView::Unfolded
            | RecordView::Said
            | RecordView::Page(_)
            | RecordView::Trace(_) => Form::Lines,
        }
    }
}

/// Which entries of a record are shown, how, and what is made of it. Where no lines, threads or bytes are given, those of
/// all are shown.
#[derive(Drop)]
pub struct ShowLook<'a> {
    /// The lines of the record.
    pub lines: Vec<NumberSpan>,
    pub threads: Vec<u32>,
    /// The bytes at which entries are shown.
    pub bytes: Vec<Data<'a>>,
    /// How many characters a row has room for, 40 to 1000.
    pub width: usize,
    pub color: Color,
    /// The path of the folder that has the files of source, if one is given.
    pub source: Option<&'a str>,
    pub view: RecordView<'a>,
}

fn color_of(matches: &ArgMatches) -> Color
    ensures { AsksColor (found_of matches.now) result }
{
    match COLOR.text_if_any(matches) {
        Some("always") => Color::Always,
        Some("never") => Color::Never,
        _ => Color::Auto,
    }
}

/// The entries, in the form that is asked for, or what threads say.
fn entries_of<'a>(matches: &ArgMatches<'a>) -> RecordView<'a>
    ensures range { IsViewInRange result }
    ensures asks { AsksEntries (found_of matches.now) result }
{
    match form_of(matches) {
        Form::Lines if TEXT.is_set(matches) => RecordView::Said,
        Form::Lines if UNFOLD.is_set(matches) => RecordView::Unfolded,
        Form::Lines => RecordView::Rows,
        Form::Json => RecordView::Object,
    }
}

/// This moment, and the bytes that are shown of it: none where nobody asks.
fn shown_at(matches: &ArgMatches, when: When) -> Result<At, CommandRefusal<'static>>
    ensures range { IfOk result (λ at. at.count ≤ MOST_DUMP) }
    ensures when { IfOk result (λ at. at.when ≡ when) }
    ensures bytes { IfOk result (λ at. AsksBytes (found_of matches.now) at.addr at.count) }
    ensures raw { IfOk result (λ at. HasFlag (found_of matches.now) (codes "raw") at.is_raw) }
    ensures unfolded { IfOk result (λ at. HasFlag (found_of matches.now) (codes "unfold") at.is_unfolded) }
    ensures text { IfOk result (λ at. HasFlag (found_of matches.now) (codes "text") at.text) }
    ensures form { IfOk result (λ at. AsksForm (found_of matches.now) at.form) }
{
    let (addr, count) = match BYTES.value::<BytesReader>(matches)? {
        Some(bytes) => bytes,
        None => (0, 0),
    };
    Ok(At {
        when,
        addr,
        count,
        is_raw: RAW.is_set(matches),
        is_unfolded: UNFOLD.is_set(matches),
        text: TEXT.is_set(matches),
        form: form_of(matches),
    })
}

/// What is to be made of the record, where it makes no file.
fn shown_of<'a>(matches: &ArgMatches<'a>) -> Result<RecordView<'a>, CommandRefusal<'static>>
    ensures range { IfOk result IsViewInRange }
    ensures asks { IfOk result (AsksShown (found_of matches.now)) }
{
    let at = AT.value::<MomentReader>(matches)?;
    let form = form_of(matches);
    match (LAST_WRITE.value::<WrittenReader>(matches)?, at) {
        (Some(bytes), Some(before)) => Ok(RecordView::Write(LastWrite {
            bytes,
            before,
            form,
        })),
        (Some(bytes), None) => Ok(RecordView::Write(LastWrite {
            bytes,
            before: When::End,
            form,
        })),
        (None, Some(when)) => Ok(RecordView::Moment(shown_at(matches, when)?)),
        (None, None) => Ok(entries_of(matches)),
    }
}

fn view_of<'a>(matches: &ArgMatches<'a>) -> Result<RecordView<'a>, CommandRefusal<'static>>
    ensures range { IfOk result IsViewInRange }
    ensures asks { IfOk result (AsksView (found_of matches.now)) }
{
    match (HTML.text_if_any(matches), TRACE.text_if_any(matches)) {
        (Some(path), _) => Ok(RecordView::Page(path)),
        (None, Some(path)) => Ok(RecordView::Trace(path)),
        (None, None) => shown_of(matches),
    }
}

fn look_of<'a>(
    alloc: Global,
    matches: &ArgMatches<'a>,
) -> Result<ShowLook<'a>, CommandRefusal<'static>>
    ensures range { IfOk result IsLookInRange }
    ensures asks { IfOk result (AsksLook (found_of matches.now)) }
{
    let width = WIDTH.number(matches)?;
    let view = view_of(matches)?;
    let lines = LINES.values::<SpanReader>(alloc, matches)?;
    let threads = THREADS.values::<ThreadReader>(alloc, matches)?;
    let bytes = ADDRESSES.values::<DataReader>(alloc, matches)?;
    Ok(ShowLook {
        lines,
        threads,
        bytes,
        width: width as usize,
        color: color_of(matches),
        source: SOURCE.text_if_any(matches),
        view,
    })
}

/// The job of `show`.
///
/// # Errors
/// `Value` where an argument can't be read, and `NoMemory`.
pub(crate) fn show_job<'a>(
    alloc: Global,
    matches: &ArgMatches<'a>,
) -> Result<Job<'a>, CommandRefusal<'static>>
    ensures range { IfOk result IsInRange }
    ensures asks { IfOk result (AsksNamed (codes "show") (found_of matches.now)) }
{
    let file = FILE.text(matches)?;
    let saved = RECORD.text(matches)?;
    let how = look_of(alloc, matches)?;
    Ok(Job::Show {
        file,
        saved,
        names: NAMES.text_if_any(matches),
        how,
    })
}
