//! What was refused, and what failed; and an accepted module.
ghost use Rattle.std.specs.Prelude.{◌≡◌, [], ◌∷◌, codes, OnOk, IfErr};
ghost use Rattle.replay_forms.specs.Texts.{Wrote};
ghost use Rattle.show_json.specs.Unwritten.{LeavesAs};
ghost use Rattle.report_json.specs.Refusals as specified;
ghost use Rattle.report_json.specs.Refusals.{refused_json, refusal_json, failure_json, failed_json};
ghost use Rattle.report_json.specs.Refusals.{accepted_json};
ghost use Rattle.show_json.specs.Json.{json_line, object_of, is, number};
ghost use Rattle.show_json.specs.Sent.{Sends};

use binary_wire::Fault;
use serde::Serializer;
use show_json::{ToJson, put, put_some, send_one, send_two, some, write_line};
use show_text::Unwritten;
use std::alloc::Global;
use std::io::Write;

/// What is refused, and why.
#[derive(Clone, Copy)]
pub enum RefusedObject<'a> {
    /// Bytes that can't be read as a module, and where.
    Read {
        kind: Fault,
        offset: usize,
    },
    /// A module that breaks a rule outside its bodies.
    Rule(validate_typing::Fault),
    /// A module that breaks a rule in a body.
    RuleInBody {
        kind: validate_typing::Fault,
        function: usize,
        instruction: usize,
    },
    /// A call, in the words that say why.
    Call(&'a str),
    /// Bytes that are no record's text: this line of the header is wrong or missing.
    Header(usize),
    /// This line behind the header is wrong where it stands.
    Unreadable(usize),
    /// The text ends before its last line.
    EndMissing,
    /// A record of no run of the module: this line of the header or of the log is the first that doesn't fit.
    Line(u32),
    /// The log fits, and this line behind it is the first that doesn't.
    EndLine(u32),
}

fn send_words<S: Serializer>(
    alloc: Global,
    out: &mut S,
    stage: &str,
    fault: &str,
) -> Result<(), S::Error>
    ensures { OnOk result (Sends (object_of (specified.stage stage.now ∷ specified.fault fault.now ∷ []))
        (S.written out.old) (S.written out.new)) }
{
    send_two(alloc, out, ("stage", &stage), ("fault", &fault))
}

fn send_line_of<S: Serializer>(
    alloc: Global,
    out: &mut S,
    stage: &str,
    fault: &str,
    line: usize,
) -> Result<(), S::Error>
    ensures { OnOk result (Sends (object_of (specified.stage stage.now ∷ specified.fault fault.now
        ∷ is (codes "line") (number line) ∷ [])) (S.written out.old) (S.written out.new)) }
{
    out.begin_map(Some(3))?;
    put(alloc, out, "stage", &stage)?;
    put(alloc, out, "fault", &fault)?;
    put(alloc, out, "line", &line)?;
    out.end_map()
}

fn send_read<S: Serializer>(
    alloc: Global,
    out: &mut S,
    kind: Fault,
    offset: usize,
) -> Result<(), S::Error>
    ensures { OnOk result
        (Sends (refused_json (RefusedObject.Read kind offset)) (S.written out.old) (S.written out.new)) }
{
    out.begin_map(Some(3))?;
    put(alloc, out, "stage", &"read")?;
    put(alloc, out, "number", &kind.number())?;
    put(alloc, out, "offset", &offset)?;
    out.end_map()
}

fn send_rule_in_body<S: Serializer>(
    alloc: Global,
    out: &mut S,
    kind: validate_typing::Fault,
    function: usize,
    instruction: usize,
) -> Result<(), S::Error>
    ensures { OnOk result
        (Sends (refused_json (RefusedObject.RuleInBody kind function instruction)) (S.written out.old)
        (S.written out.new)) }
{
    out.begin_map(Some(4))?;
    put(alloc, out, "stage", &"validity")?;
    put(alloc, out, "number", &kind.number())?;
    put(alloc, out, "function", &function)?;
    put(alloc, out, "instruction", &instruction)?;
    out.end_map()
}

impl ToJson for RefusedObject<'_> {
    ghost json = { refused_json };

    fn send<S: Serializer>(&self, alloc: Global, out: &mut S) -> Result<(), S::Error> {
        match *self {
            RefusedObject::Read { kind, offset } => send_read(alloc, out, kind, offset),
            RefusedObject::Rule(kind) => {
                send_two(
                    alloc,
                    out,
                    ("stage", &"validity"),
                    ("number", &kind.number()),
                )
            }
            RefusedObject::RuleInBody {
                kind,
                function,
                instruction,
            } => send_rule_in_body(alloc, out, kind, function, instruction),
            RefusedObject::Call(words) => send_words(alloc, out, "call", words),
            RefusedObject::Header(line) => send_line_of(alloc, out, "record", "header line", line),
            RefusedObject::Unreadable(line) => {
                send_line_of(alloc, out, "record", "line unreadable", line)
            }
            RefusedObject::EndMissing => send_words(alloc, out, "record", "end missing"),
            RefusedObject::Line(line) => {
                send_line_of(alloc, out, "replay", "line does not fit", line as usize)
            }
            RefusedObject::EndLine(line) => {
                send_line_of(alloc, out, "replay", "end line does not fit", line as usize)
            }
        }
    }
}

impl RefusedObject<'_> {
    /// The status of a job that is refused so: 2 of a module, 3 of a call, 4 of a record.
    pub fn status(&self) -> u8
        ensures { result ≡ specified.status_of_refused self.now }
    {
        match self {
            RefusedObject::Read { .. }
            | RefusedObject::Rule(_)
            | RefusedObject::RuleInBody { .. } => 2,
            RefusedObject::Call(_) => 3,
            _ => 4,
        }
    }
}

/// What is refused, and what to do about it.
#[derive(Clone, Copy)]
pub struct RefusalObject<'a> {
    pub refused: RefusedObject<'a>,
    pub hints: &'a [&'a str],
}

impl ToJson for RefusalObject<'_> {
    ghost json = { refusal_json };

    fn send<S: Serializer>(&self, alloc: Global, out: &mut S) -> Result<(), S::Error> {
        let RefusalObject { refused, hints } = *self;
        out.begin_map(Some(2 + some(hints)))?;
        put(alloc, out, "status", &refused.status())?;
        put(alloc, out, "refused", &refused)?;
        put_some(alloc, out, "hints", hints)?;
        out.end_map()
    }
}

/// What failed.
#[derive(Clone, Copy)]
pub enum Failure<'a> {
    Memory,
    /// A thread couldn't be started.
    Thread,
    /// The file at this path.
    File(&'a str),
}

impl ToJson for Failure<'_> {
    ghost json = { failure_json };

    fn send<S: Serializer>(&self, alloc: Global, out: &mut S) -> Result<(), S::Error> {
        match *self {
            Failure::Memory => send_one(alloc, out, "what", &"memory"),
            Failure::Thread => send_one(alloc, out, "what", &"thread"),
            Failure::File(path) => send_two(alloc, out, ("what", &"file"), ("path", &path)),
        }
    }
}

#[derive(Clone, Copy)]
struct FailedObject<'a>(Failure<'a>);

impl ToJson for FailedObject<'_> {
    ghost json = { λ f. failed_json f.0 };

    fn send<S: Serializer>(&self, alloc: Global, out: &mut S) -> Result<(), S::Error> {
        send_two(alloc, out, ("status", &5u8), ("failed", &self.0))
    }
}

/// A module that is accepted, with so many functions of its own.
#[derive(Clone, Copy)]
struct Accepted(usize);

impl ToJson for Accepted {
    ghost json = { λ a. accepted_json a.0 };

    fn send<S: Serializer>(&self, alloc: Global, out: &mut S) -> Result<(), S::Error> {
        send_two(alloc, out, ("status", &0u8), ("functions", &self.0))
    }
}

/// Writes the object of a job that is refused.
///
/// # Errors
/// Where memory is refused, and then nothing was written; that of the writer, and then what was written isn't said. So
/// of each function here.
pub fn write_refusal<W: Write>(
    alloc: Global,
    out: &mut W,
    refusal: &RefusalObject,
) -> Result<(), Unwritten>
    ensures object { Wrote W.contents out.old out.new result (json_line (refusal_json refusal.now)) }
    ensures left { IfErr result (LeavesAs out.old out.new) }
{
    write_line(alloc, out, refusal)
}

/// Writes the object of a job that failed.
pub fn write_failed<W: Write>(alloc: Global, out: &mut W, failure: Failure) -> Result<(), Unwritten>
    ensures object { Wrote W.contents out.old out.new result (json_line (failed_json failure.entry)) }
    ensures left { IfErr result (LeavesAs out.old out.new) }
{
    write_line(alloc, out, &FailedObject(failure))
}

/// Writes the object of a module that is accepted, with so many functions of its own.
pub fn write_accepted<W: Write>(
    alloc: Global,
    out: &mut W,
    functions: usize,
) -> Result<(), Unwritten>
    ensures object { Wrote W.contents out.old out.new result (json_line (accepted_json functions)) }
    ensures left { IfErr result (LeavesAs out.old out.new) }
{
    write_line(alloc, out, &Accepted(functions))
}

/// A job that is done, of which nothing else is said.
#[derive(Clone, Copy)]
struct DoneObject;

impl ToJson for DoneObject {
    ghost use Rattle.report_json.specs.Refusals.{done_json};

    ghost json = { λ _. done_json };

    fn send<S: Serializer>(&self, alloc: Global, out: &mut S) -> Result<(), S::Error> {
        send_one(alloc, out, "status", &0u8)
    }
}

/// Writes the object of a job that is done, of which nothing else is said: what it made is in a file.
pub fn write_done<W: Write>(alloc: Global, out: &mut W) -> Result<(), Unwritten>
    ensures object { Wrote W.contents out.old out.new result (json_line specified.done_json) }
    ensures left { IfErr result (LeavesAs out.old out.new) }
{
    write_line(alloc, out, &DoneObject)
}
