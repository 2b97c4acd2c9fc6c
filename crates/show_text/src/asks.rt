//! Questions to the desk and answers of it, in words.

ghost use Rattle.std.specs.Prelude.{flat_map};
ghost use Rattle.std.specs.Fmt.{WritesOnOk};
ghost use Rattle.show_text.specs.Words.{question_text, wait_text, woken_text, wake_text, spawn_text};
ghost use Rattle.show_text.specs.Words.{asleep_text, answer_text, count_text, limit_text, told_text, waited_text};

use crate::context::Context;
use crate::number::NumberForm;
use crate::woken::Wake;
use crate::words::Words;
use std::fmt::{self, Formatter, Write};
use types::{Answer, Question, Reply};

/// What a spawn answers where all threads are taken.
const NO_THREAD: u32 = 4_294_967_295;

pub(crate) fn write_question<W: Write>(
    f: &mut Formatter<W>,
    question: Question,
    words: &Words,
) -> fmt::Result
    ensures { WritesOnOk W.write_str_gives f.old result (question_text words.now question) f.new }
{
    let reply = words.entry.reply;
    match question {
        Question::Wait {
            addr,
            width,
            expected,
            timeout,
        } => write_wait(f, words.form(width), addr, expected, timeout, reply),
        Question::Notify { addr, count } => {
            write!(f, "notify {addr}")?;
            write_most(f, count)?;
            write_woken(f, reply, words.woken)
        }
        Question::Spawn { arg } => write_spawn(f, arg, words.context),
        Question::Leave => match words.outcome {
            Some(outcome) => write!(f, "ends: {outcome}"),
            None => f.write_str("ends"),
        },
    }
}

fn write_wait<W: Write>(
    f: &mut Formatter<W>,
    form: NumberForm,
    addr: u64,
    expected: u64,
    timeout: i64,
    reply: Reply,
) -> fmt::Result
    ensures { WritesOnOk W.write_str_gives f.old result (wait_text form addr expected timeout reply) f.new }
{
    let sought = Sought {
        addr,
        form,
        expected,
    };
    match reply {
        Reply::Value(loaded) if loaded == expected => write_asleep(f, sought, timeout),
        Reply::Value(loaded) => {
            let loaded = form.of(loaded);
            write!(f, "wait {sought}: has {loaded}")
        }
        _ => write!(f, "wait {sought}: out of bounds"),
    }
}

/// Where one waits, and while which number is there.
#[derive(Clone, Copy)]
struct Sought {
    addr: u64,
    form: NumberForm,
    expected: u64,
}

impl fmt::Display for Sought {
    ghost use Rattle.std.specs.Prelude.{Some};
    ghost use Rattle.show_text.specs.Words.{while_text};

    ghost output = { λ s. Some (while_text s.form s.addr s.expected) };

    fn fmt<W: Write>(&self, f: &mut Formatter<W>) -> fmt::Result {
        let (addr, expected) = (self.addr, self.form.of(self.expected));
        write!(f, "{addr} while {expected}")
    }
}

/// What a wait does that finds the number that it expects.
fn write_asleep<W: Write>(f: &mut Formatter<W>, sought: Sought, timeout: i64) -> fmt::Result
    ensures { WritesOnOk W.write_str_gives f.old result
        (asleep_text sought.form sought.addr sought.expected timeout) f.new }
{
    if timeout == 0 {
        return write!(f, "wait {sought}: no time to sleep");
    }
    write!(f, "sleeps on {sought}")?;
    write_limit(f, timeout)
}

/// How long one sleeps at most.
fn write_limit<W: Write>(f: &mut Formatter<W>, timeout: i64) -> fmt::Result
    ensures { WritesOnOk W.write_str_gives f.old result (limit_text timeout) f.new }
{
    if timeout > 0 {
        return write!(f, ", at most {timeout} ns");
    }
    Ok(())
}

/// How many a notify wakes at most.
fn write_most<W: Write>(f: &mut Formatter<W>, count: u32) -> fmt::Result
    ensures { WritesOnOk W.write_str_gives f.old result (count_text count) f.new }
{
    if count == u32::MAX {
        return Ok(());
    }
    write!(f, ", at most {count}")
}

fn write_woken<W: Write>(f: &mut Formatter<W>, reply: Reply, woken: &[Wake]) -> fmt::Result
    ensures { WritesOnOk W.write_str_gives f.old result (woken_text reply woken.now) f.new }
{
    if reply == Reply::OutOfBounds {
        return f.write_str(": out of bounds");
    }
    if woken.is_empty() {
        return f.write_str(": wakes nobody");
    }
    f.write_str(": wakes")?;
    write_threads(f, woken)
}

fn write_threads<W: Write>(f: &mut Formatter<W>, woken: &[Wake]) -> fmt::Result
    ensures { WritesOnOk W.write_str_gives f.old result (flat_map wake_text woken.now) f.new }
{
    for wake in woken {
        let thread = wake.thread;
        write!(f, " t{thread}")?;
    }
    Ok(())
}

fn write_spawn<W: Write>(f: &mut Formatter<W>, arg: u32, context: Context) -> fmt::Result
    ensures { WritesOnOk W.write_str_gives f.old result (spawn_text context arg) f.new }
{
    match context {
        Context::Answered(Answer::Number(NO_THREAD)) => {
            write!(f, "spawns nobody: all threads are taken (arg {arg})")
        }
        Context::Answered(Answer::Number(thread)) => write!(f, "spawns t{thread} (arg {arg})"),
        _ => write!(f, "spawns (arg {arg})"),
    }
}

pub(crate) fn write_answer<W: Write>(
    f: &mut Formatter<W>,
    answer: Answer,
    context: Context,
) -> fmt::Result
    ensures { WritesOnOk W.write_str_gives f.old result (answer_text context answer) f.new }
{
    match (answer, context) {
        (Answer::ForGood, _) => f.write_str("asleep for good"),
        (Answer::Number(number), Context::Asked(question, _)) => write_told(f, question, number),
        (Answer::Number(number), _) => write!(f, "told {number}"),
    }
}

/// A number that is answered to a question.
fn write_told<W: Write>(f: &mut Formatter<W>, question: Question, number: u32) -> fmt::Result
    ensures { WritesOnOk W.write_str_gives f.old result (told_text question number) f.new }
{
    match question {
        Question::Wait { .. } => write_waited(f, number),
        Question::Notify { .. } => write!(f, "woke {number}"),
        Question::Spawn { .. } if number == NO_THREAD => f.write_str("spawned nobody"),
        Question::Spawn { .. } => write!(f, "spawned t{number}"),
        Question::Leave => f.write_str("gone"),
    }
}

fn write_waited<W: Write>(f: &mut Formatter<W>, number: u32) -> fmt::Result
    ensures { WritesOnOk W.write_str_gives f.old result (waited_text number) f.new }
{
    match number {
        0 => f.write_str("woken"),
        1 => f.write_str("goes on: another value"),
        2 => f.write_str("times out"),
        _ => write!(f, "told {number}"),
    }
}
