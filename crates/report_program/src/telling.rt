//! What is said, each text in one piece where there is memory for that, and the statuses that go with it.
ghost use Rattle.std.specs.Prelude.{◌≡◌, ◌++◌, ◌⊎◌, true, false};
ghost use Rattle.show_text.specs.Plain.{plain_text};
ghost use Rattle.report_jobs.specs.Trapped.{Tells};
ghost use Rattle.report_jobs.specs.Told.{memory_line, output_line};
ghost use Rattle.report_program.specs.Messages.{file_text, reason_text, unkept_text};
ghost use Rattle.report_program.specs.Messages.{why_if, why_text, IsUsageStatus};

use crate::{Detail, Noted};
use report_command::Usage;
use report_jobs::{say, say_named};
use show_text::Plain;
use std::alloc::Global;
use std::fmt::Display;
use std::io::{ErrorKind, Write};

/// The status of a wrong command line.
const USAGE: u8 = 3;

/// The status of a file or stream that failed, and of no memory.
pub(crate) const FILE_FAULT: u8 = 5;

/// Says a path between two texts, and one more behind them, in one piece; or without the last one, where there is too
/// little memory for that.
fn say_around<E: Write>(
    alloc: Global,
    err: &mut E,
    front: &str,
    path: &str,
    behind: &str,
    more: &str,
)
    ensures { Tells (E.contents err.old) (E.contents err.new) (front.now ++ plain_text path.now ++ behind.now ++ more.now) }
{
    let plain = Plain(path);
    match format!(in alloc; "{front}{plain}{behind}{more}") {
        Ok(text) => {
            say(err, text.as_bytes());
        }
        Err(_) => say_named(err, front, "", path, behind),
    }
}

/// Says that there was too little memory, and answers the status.
pub(crate) fn tell_no_memory<E: Write>(err: &mut E) -> u8
    ensures told { Tells (E.contents err.old) (E.contents err.new) memory_line }
    ensures status { result ≡ 5 }
{
    say(err, b"no memory\n");
    FILE_FAULT
}

/// Why the system refused a file, as a line.
fn reason_of(kind: ErrorKind) -> &'static str
    ensures { result.now ≡ reason_text kind }
{
    match kind {
        ErrorKind::NotFound => "there is nothing with this path\n",
        ErrorKind::PermissionDenied => "the system doesn't allow it\n",
        ErrorKind::IsADirectory => "it is a folder\n",
        ErrorKind::NotADirectory => "a part of the path is no folder\n",
        ErrorKind::InvalidFilename => "the path, or a part of it, is too long\n",
        ErrorKind::FilesystemLoop => "its links lead round in a circle\n",
        ErrorKind::ReadOnlyFilesystem => "the disk that it is on can't be written\n",
        ErrorKind::StorageFull | ErrorKind::QuotaExceeded => "there is no room left for it\n",
        _ => "the system couldn't read or write it\n",
    }
}

fn reason_if(why: Option<ErrorKind>) -> &'static str
    ensures { result.now ≡ why_text why }
{
    match why {
        Some(kind) => reason_of(kind),
        None => "",
    }
}

/// Why a file failed, if more than a line is said.
pub(crate) fn why_if(detail: Detail, kind: ErrorKind) -> Option<ErrorKind>
    ensures { result ≡ why_if detail kind }
{
    match detail {
        Detail::Line => None,
        Detail::Reason | Detail::All => Some(kind),
    }
}

/// Says which file failed, with the line of its reason or nothing behind that, and answers the status.
pub(crate) fn tell_file_fault<E: Write>(
    alloc: Global,
    err: &mut E,
    path: &str,
    why: Option<ErrorKind>,
) -> u8
    ensures told { Tells (E.contents err.old) (E.contents err.new) (file_text path.now why) }
    ensures status { result ≡ 5 }
{
    say_around(alloc, err, "file fault: ", path, "\n", reason_if(why));
    FILE_FAULT
}

/// Says that no run was found whose record this file was to get.
pub(crate) fn tell_unkept<E: Write>(alloc: Global, err: &mut E, path: &str)
    ensures { Tells (E.contents err.old) (E.contents err.new) (unkept_text path.now) }
{
    say_around(
        alloc,
        err,
        "note: no run was found to keep: ",
        path,
        " is as it was\n",
        "",
    );
}

/// Says that standard output failed, unless nobody is left to read it, and answers the status.
pub(crate) fn tell_output_fault<E: Write>(err: &mut E, is_closed: bool) -> u8
    ensures told { is_closed ≡ false → Tells (E.contents err.old) (E.contents err.new) output_line }
    ensures silent { is_closed ≡ true → err.new ≡ err.old }
    ensures status { result ≡ 5 }
{
    if !is_closed {
        say(err, b"file fault: standard output\n");
    }
    FILE_FAULT
}

/// Writes help to standard output, and answers the status.
fn help<W: Write, E: Write, D: Display>(
    alloc: Global,
    out: &mut Noted<W>,
    err: &mut E,
    text: &D,
) -> u8
    ensures { (result ≡ 0) ⊎ (result ≡ 5) }
{
    let Ok(text) = format!(in alloc; "{text}") else {
        return tell_no_memory(err);
    };
    if out.write_all(text.as_bytes()).is_ok() && out.flush().is_ok() && !out.has_failed() {
        return 0;
    }
    tell_output_fault(err, out.is_closed())
}

/// Says how the words of the command line are wrong, and answers the status.
fn complain<E: Write, D: Display>(alloc: Global, err: &mut E, text: &D) -> u8
    ensures { (result ≡ 3) ⊎ (result ≡ 5) }
{
    let Ok(text) = format!(in alloc; "{text}") else {
        return tell_no_memory(err);
    };
    say(err, text.as_bytes());
    USAGE
}

/// Says on these streams why the words of the command line are no job, and answers the status.
pub(crate) fn say_usage<W: Write, E: Write>(
    alloc: Global,
    out: &mut Noted<W>,
    err: &mut E,
    usage: &Usage,
) -> u8
    ensures { IsUsageStatus usage.now result }
{
    match usage {
        Usage::Help(text) => help(alloc, out, err, text),
        Usage::Wrong(text) => complain(alloc, err, text),
        Usage::NoMemory => tell_no_memory(err),
    }
}

/// Says why the words of the command line are no job, and answers the status.
pub fn tell_usage(rt: &HostRuntime, usage: &Usage) -> u8
    ensures { IsUsageStatus usage.now result }
{
    say_usage(
        rt.alloc(),
        &mut Noted::new(rt.stdout()),
        &mut rt.stderr(),
        usage,
    )
}
