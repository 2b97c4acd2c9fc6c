//! Events in the words of a record.

ghost use Rattle.std.specs.Prelude.{◌≡◌};
ghost use Rattle.replay_text.specs.Words.{op_word};

use std::fmt::{self, Formatter, Write};
use types::{Answer, Event, Question, RmwOp};

/// An event as a record's line has it, between the thread and the reply: its words, and a space between each two.
#[derive(Clone, Copy)]
pub struct EventWords(pub Event);

impl fmt::Display for EventWords {
    ghost use Rattle.std.specs.Prelude.{Some};
    ghost use Rattle.std.specs.List.{join_with_byte};
    ghost use Rattle.replay_text.specs.Words.{event_words};

    ghost output = { λ e. Some (join_with_byte 32 (event_words e.0)) };

    fn fmt<W: Write>(&self, f: &mut Formatter<W>) -> fmt::Result {
        match self.0 {
            Event::Size => f.write_str("size"),
            Event::Grow(more) => write!(f, "grow {more}"),
            Event::Load { addr, width, reach } => write!(f, "load {addr} {width} {reach}"),
            Event::Store {
                addr,
                width,
                reach,
                value,
            } => write!(f, "store {addr} {width} {reach} {value}"),
            Event::Rmw {
                op,
                addr,
                width,
                value,
            } => {
                let op = op_word(op);
                write!(f, "rmw {op} {addr} {width} {value}")
            }
            Event::Cmpxchg {
                addr,
                width,
                expected,
                replacement,
            } => write!(f, "cmpxchg {addr} {width} {expected} {replacement}"),
            Event::Ask(question) => QuestionWords(question).fmt(f),
            Event::Told(Answer::Number(number)) => write!(f, "told {number}"),
            Event::Told(Answer::ForGood) => f.write_str("told stop"),
        }
    }
}

fn op_word(op: RmwOp) -> &'static str
    ensures { result.now ≡ op_word op }
{
    match op {
        RmwOp::Add => "add",
        RmwOp::Sub => "sub",
        RmwOp::And => "and",
        RmwOp::Or => "or",
        RmwOp::Xor => "xor",
        RmwOp::Xchg => "xchg",
    }
}

/// A question, as an event.
#[derive(Clone, Copy)]
struct QuestionWords(Question);

impl fmt::Display for QuestionWords {
    ghost use Rattle.std.specs.Prelude.{Some};
    ghost use Rattle.std.specs.List.{join_with_byte};
    ghost use Rattle.replay_text.specs.Words.{question_words};

    ghost output = { λ q. Some (join_with_byte 32 (question_words q.0)) };

    fn fmt<W: Write>(&self, f: &mut Formatter<W>) -> fmt::Result {
        match self.0 {
            Question::Wait {
                addr,
                width,
                expected,
                timeout,
            } => write!(f, "wait {addr} {width} {expected} {timeout}"),
            Question::Notify { addr, count } => write!(f, "notify {addr} {count}"),
            Question::Spawn { arg } => write!(f, "spawn {arg}"),
            Question::Leave => f.write_str("leave"),
        }
    }
}
