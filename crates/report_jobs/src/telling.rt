//! What is said on standard error of a module, a call or a record that is refused, and of what failed.
ghost use Rattle.std.specs.Prelude.{◌≡◌, ◌++◌, encode_utf8, true, OnOk};
ghost use Rattle.std.specs.Io.KnownBytes.{Appends};
ghost use Rattle.show_text.specs.Plain.{plain_text};
ghost use Rattle.report_jobs.specs.Told.{call_line, unlaid_line};
ghost use Rattle.report_jobs.specs.Trapped.{Tells};
ghost use Rattle.report_jobs.specs.Undone.{absent_line, failed_line, refused_line, undone_line, TellsEnded};
ghost use Rattle.report_jobs.specs.declared.undone.Refused.TheVariants as refused;

use crate::undone::{Absent, Failed, JobResult, Refused, Undone};
use arrayvec::ArrayVec;
use report_memory::Unlaid;
use show_text::plain_char;
use spawn_host::CallFault;
use std::io::{self, ErrorKind, Write};
use types::MOST_ITEMS;
use validate_typing::Fault;

/// Says a text, as much of it as the writer takes, and answers whether that is all. Where it isn't there is nobody left
/// to tell.
pub fn say<E: Write>(err: &mut E, text: &[u8]) -> bool
    ensures told { Tells (E.contents err.old) (E.contents err.new) text.now }
    ensures all { result ≡ true → Appends (E.contents err.old) (E.contents err.new) text.now }
{
    let mut rest = text;
    for _ in 0..u64::MAX {
        if rest.is_empty() {
            return true;
        }
        match err.write(rest) {
            Ok(0) => return false,
            Ok(count) => rest = &rest[count..],
            Err(fault) => {
                if fault.kind() != ErrorKind::Interrupted {
                    return false;
                }
            }
        }
    }
    false
}

/// Says a character.
fn say_char<E: Write>(err: &mut E, c: char) -> bool
    ensures told { Tells (E.contents err.old) (E.contents err.new) (encode_utf8 c) }
    ensures all { result ≡ true → Appends (E.contents err.old) (E.contents err.new) (encode_utf8 c) }
{
    let mut room = [0u8; 4];
    let text = c.encode_utf8(&mut room);
    say(err, text.as_bytes())
}

/// Says a text without what a terminal obeys in place of showing it, character by character, and answers whether that is
/// all of it.
pub fn say_plain<E: Write>(err: &mut E, text: &str) -> bool
    ensures told { Tells (E.contents err.old) (E.contents err.new) (plain_text text.now) }
    ensures all { result ≡ true → Appends (E.contents err.old) (E.contents err.new) (plain_text text.now) }
{
    for c in text.chars() {
        if !say_char(err, plain_char(c)) {
            return false;
        }
    }
    true
}

/// Says a name between texts: two in front of it, and one behind.
pub fn say_named<E: Write>(err: &mut E, front: &str, words: &str, name: &str, behind: &str)
    ensures { Tells (E.contents err.old) (E.contents err.new)
        (front.now ++ words.now ++ plain_text name.now ++ behind.now) }
{
    if !say(err, front.as_bytes()) {
        return;
    }
    if !say(err, words.as_bytes()) {
        return;
    }
    if !say_plain(err, name) {
        return;
    }
    say(err, behind.as_bytes());
}

/// Writes the line of why so many bytes can't be laid over the memory of a module, from an address on.
fn write_unlaid<W: Write>(to: &mut W, why: Unlaid, addr: u32, count: usize) -> io::Result<()>
    ensures { OnOk result (Appends (W.contents to.old) (W.contents to.new) (unlaid_line why addr count)) }
{
    match why {
        Unlaid::Nowhere => to.write_all(
            b"memory refused: the module has none over which --memory-in could lay bytes\n",
        ),
        Unlaid::Outside(room) => write!(
            to,
            "memory refused: --memory-in lays {count} bytes from {addr} on, and the memory has {room} at first\n"
        ),
        Unlaid::Segments => write!(
            to,
            "memory refused: the module has {MOST_ITEMS} data segments, and --memory-in wants one more\n"
        ),
    }
}

/// Writes the line of a rule that a module breaks in a body.
fn write_in_body<W: Write>(
    to: &mut W,
    kind: Fault,
    function: usize,
    instruction: usize,
) -> io::Result<()>
    ensures { OnOk result (Appends (W.contents to.old) (W.contents to.new)
        (refused_line (refused.RuleInBody kind function instruction))) }
{
    let number = kind.number();
    write!(
        to,
        "module refused: validity {number} in function {function} at {instruction}\n"
    )
}

/// Writes the line of why a function can't be called so.
fn write_call<W: Write>(to: &mut W, fault: CallFault) -> io::Result<()>
    ensures { OnOk result (Appends (W.contents to.old) (W.contents to.new) (call_line fault)) }
{
    match fault {
        CallFault::UnknownExport => to.write_all(b"run refused: unknown export\n"),
        CallFault::WrongArguments => to.write_all(b"run refused: wrong arguments\n"),
    }
}

/// Writes the line of what is refused.
///
/// # Errors
/// That of the writer; and `InvalidInput` of a line with a name, which `tell_absent` says, however long it is.
fn write_refused<W: Write>(to: &mut W, refused: &Refused) -> io::Result<()>
    ensures { OnOk result (Appends (W.contents to.old) (W.contents to.new) (refused_line refused.now)) }
{
    match refused {
        Refused::Read { kind, offset } => {
            let number = kind.number();
            write!(to, "module refused: read {number} at {offset}\n")
        }
        Refused::Rule(kind) => {
            let number = kind.number();
            write!(to, "module refused: validity {number}\n")
        }
        Refused::RuleInBody {
            kind,
            function,
            instruction,
        } => write_in_body(to, *kind, *function, *instruction),
        Refused::Unlaid { why, addr, count } => write_unlaid(to, *why, *addr, *count),
        Refused::Call { fault, module: _ } => write_call(to, *fault),
        Refused::Absent(_) | Refused::Allowance(_) => Err(io::Error::from(ErrorKind::InvalidInput)),
        Refused::Header(line) => write!(to, "record refused: header line {line}\n"),
        Refused::Unreadable(line) => write!(to, "record refused: line {line} unreadable\n"),
        Refused::EndMissing => to.write_all(b"record refused: end missing\n"),
        Refused::Line(line, _) => write!(to, "record refused: line {line} does not fit\n"),
        Refused::EndLine(line, _) => write!(to, "record refused: end line {line} does not fit\n"),
    }
}

/// Says which data isn't there, or that no thread trapped, behind this.
fn tell_absent<E: Write>(err: &mut E, front: &str, absent: Absent)
    ensures { Tells (E.contents err.old) (E.contents err.new) (absent_line front.now absent.entry) }
{
    let (words, name, behind) = absent.line();
    say_named(err, front, words, name, behind);
}

/// Says what is refused. It takes no memory.
fn tell_refused<E: Write>(err: &mut E, refused: &Refused)
    ensures { Tells (E.contents err.old) (E.contents err.new) (refused_line refused.now) }
{
    match refused {
        Refused::Absent(absent) => tell_absent(err, "show refused: ", *absent),
        Refused::Allowance(absent) => tell_absent(err, "allowance refused: ", *absent),
        _ => tell_numbers(err, refused),
    }
}

/// Says what is refused, as far as its line has no name.
fn tell_numbers<E: Write>(err: &mut E, refused: &Refused)
    ensures { Tells (E.contents err.old) (E.contents err.new) (refused_line refused.now) }
{
    let mut line: ArrayVec<u8, 192> = ArrayVec::new();
    if write_refused(&mut line, refused).is_ok() {
        say(err, line.as_slice());
    }
}

/// Says what failed.
fn tell_failed<E: Write>(err: &mut E, failed: Failed)
    ensures { Tells (E.contents err.old) (E.contents err.new) (failed_line failed.entry) }
{
    match failed {
        Failed::Memory => {
            say(err, b"no memory\n");
        }
        Failed::Thread => {
            say(err, b"no thread\n");
        }
        Failed::Output => {
            say(err, b"file fault: standard output\n");
        }
        Failed::File(path) => {
            say_named(err, "file fault: ", "", path.unwrap_or("the record"), "\n");
        }
    }
}

/// Says why a job isn't done. It takes no memory.
pub fn tell<E: Write>(err: &mut E, undone: &Undone)
    ensures { Tells (E.contents err.old) (E.contents err.new) (undone_line undone.now) }
{
    match undone {
        Undone::Refused(refused) => tell_refused(err, refused),
        Undone::Failed(failed) => tell_failed(err, *failed),
    }
}

/// Says what came of a job: nothing of one that is done.
pub fn tell_ended<E: Write>(err: &mut E, ended: &JobResult)
    ensures { TellsEnded ended.now (E.contents err.old) (E.contents err.new) }
{
    if let Err(undone) = ended {
        tell(err, undone);
    }
}
