//! Reading events.

ghost use Rattle.replay_forms.specs.Reading.{ReadsNext, ReadsNextAs, behind, word_for};
ghost use Rattle.replay_text.specs.Views.{three_of, four_of};
ghost use Rattle.replay_text.specs.Reading.{access_numbers_at, four_numbers_at, op_at, load_at, rmw_at, wait_at};
ghost use Rattle.replay_text.specs.Reading.{notify_at, access_at, plain_at, event_at};

use crate::number::{number_behind, u32_behind, u32_then};
use replay_forms::{after, number_then, signed_then};
use types::{Answer, Event, Question, RmwOp};

/// An address, a width, and a number of 64 bits.
fn access_numbers(bytes: &[u8]) -> Option<((u64, u8, u64), &[u8])>
    ensures { ReadsNextAs three_of access_numbers_at bytes.now result }
{
    let Some((addr, rest)) = number_then(u64::MAX, b" ", bytes) else {
        return None;
    };
    let Some((width, rest)) = number_then(255, b" ", rest) else {
        return None;
    };
    let Some((number, rest)) = number_then(u64::MAX, b" ", rest) else {
        return None;
    };
    Some(((addr, width as u8, number), rest))
}

/// A word, and behind it an address, a width, and two numbers of 64 bits.
fn four_behind<'a>(word: &[u8], bytes: &'a [u8]) -> Option<((u64, u8, u64, u64), &'a [u8])>
    ensures { ReadsNextAs four_of (behind word.now four_numbers_at) bytes.now result }
{
    let Some(rest) = after(word, bytes) else {
        return None;
    };
    let Some(((addr, width, first), rest)) = access_numbers(rest) else {
        return None;
    };
    let Some((second, rest)) = number_then(u64::MAX, b" ", rest) else {
        return None;
    };
    Some(((addr, width, first, second), rest))
}

/// An operator, where its word stands there.
fn op_for<'a>(op: RmwOp, word: &[u8], bytes: &'a [u8]) -> Option<(RmwOp, &'a [u8])>
    ensures { ReadsNext (word_for op word.now) bytes.now result }
{
    let Some(rest) = after(word, bytes) else {
        return None;
    };
    Some((op, rest))
}

fn op_at(bytes: &[u8]) -> Option<(RmwOp, &[u8])>
    ensures { ReadsNext op_at bytes.now result }
{
    if let Some(found) = op_for(RmwOp::Add, b"add ", bytes) {
        return Some(found);
    }
    if let Some(found) = op_for(RmwOp::Sub, b"sub ", bytes) {
        return Some(found);
    }
    if let Some(found) = op_for(RmwOp::And, b"and ", bytes) {
        return Some(found);
    }
    if let Some(found) = op_for(RmwOp::Or, b"or ", bytes) {
        return Some(found);
    }
    if let Some(found) = op_for(RmwOp::Xor, b"xor ", bytes) {
        return Some(found);
    }
    op_for(RmwOp::Xchg, b"xchg ", bytes)
}

fn load_at(bytes: &[u8]) -> Option<(Event, &[u8])>
    ensures { ReadsNext load_at bytes.now result }
{
    let Some(rest) = after(b"load ", bytes) else {
        return None;
    };
    let Some(((addr, width, reach), rest)) = access_numbers(rest) else {
        return None;
    };
    Some((Event::Load { addr, width, reach }, rest))
}

fn rmw_at(bytes: &[u8]) -> Option<(Event, &[u8])>
    ensures { ReadsNext rmw_at bytes.now result }
{
    let Some(rest) = after(b"rmw ", bytes) else {
        return None;
    };
    let Some((op, rest)) = op_at(rest) else {
        return None;
    };
    let Some(((addr, width, value), rest)) = access_numbers(rest) else {
        return None;
    };
    let event = Event::Rmw {
        op,
        addr,
        width,
        value,
    };
    Some((event, rest))
}

fn wait_at(bytes: &[u8]) -> Option<(Event, &[u8])>
    ensures { ReadsNext wait_at bytes.now result }
{
    let Some(rest) = after(b"wait ", bytes) else {
        return None;
    };
    let Some(((addr, width, expected), rest)) = access_numbers(rest) else {
        return None;
    };
    let Some((timeout, rest)) = signed_then(b" ", rest) else {
        return None;
    };
    let question = Question::Wait {
        addr,
        width,
        expected,
        timeout,
    };
    Some((Event::Ask(question), rest))
}

fn notify_at(bytes: &[u8]) -> Option<(Event, &[u8])>
    ensures { ReadsNext notify_at bytes.now result }
{
    let Some((addr, rest)) = number_behind(b"notify ", u64::MAX, b" ", bytes) else {
        return None;
    };
    let Some((count, rest)) = u32_then(u32::MAX, b" ", rest) else {
        return None;
    };
    Some((Event::Ask(Question::Notify { addr, count }), rest))
}

/// The events that have an address.
fn access_at(bytes: &[u8]) -> Option<(Event, &[u8])>
    ensures { ReadsNext access_at bytes.now result }
{
    if let Some(found) = load_at(bytes) {
        return Some(found);
    }
    if let Some(((addr, width, reach, value), rest)) = four_behind(b"store ", bytes) {
        let event = Event::Store {
            addr,
            width,
            reach,
            value,
        };
        return Some((event, rest));
    }
    if let Some(found) = rmw_at(bytes) {
        return Some(found);
    }
    if let Some(((addr, width, expected, replacement), rest)) = four_behind(b"cmpxchg ", bytes) {
        let event = Event::Cmpxchg {
            addr,
            width,
            expected,
            replacement,
        };
        return Some((event, rest));
    }
    if let Some(found) = wait_at(bytes) {
        return Some(found);
    }
    notify_at(bytes)
}

/// The other events.
fn plain_at(bytes: &[u8]) -> Option<(Event, &[u8])>
    ensures { ReadsNext plain_at bytes.now result }
{
    if let Some((arg, rest)) = u32_behind(b"spawn ", u32::MAX, b" ", bytes) {
        return Some((Event::Ask(Question::Spawn { arg }), rest));
    }
    if let Some((more, rest)) = u32_behind(b"grow ", u32::MAX, b" ", bytes) {
        return Some((Event::Grow(more), rest));
    }
    if let Some((n, rest)) = u32_behind(b"told ", u32::MAX, b" ", bytes) {
        return Some((Event::Told(Answer::Number(n)), rest));
    }
    if let Some(rest) = after(b"told stop ", bytes) {
        return Some((Event::Told(Answer::ForGood), rest));
    }
    if let Some(rest) = after(b"leave ", bytes) {
        return Some((Event::Ask(Question::Leave), rest));
    }
    if let Some(rest) = after(b"size ", bytes) {
        return Some((Event::Size, rest));
    }
    None
}

/// An event's words, and the space behind them.
pub fn event_at(bytes: &[u8]) -> Option<(Event, &[u8])>
    ensures { ReadsNext event_at bytes.now result }
{
    if let Some(found) = access_at(bytes) {
        return Some(found);
    }
    plain_at(bytes)
}
