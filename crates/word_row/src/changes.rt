//! What the page count and the word of an access settle of an event.
ghost use Rattle.std.specs.Prelude.{◌≡◌, ◌+◌, ◌*◌, ◌%◌, ◌^◌, ◌<◌, ◌≤◌, ◌⊎◌, ◌↔◌, ℕ, true, IsTrue, IsSome, IfSome};
ghost use Rattle.types.specs.declared.event.Event.TheVariants.{Rmw};
ghost use Rattle.types.specs.declared.limits.TheConstants.{PAGE_SIZE, MOST_PAGES};
ghost use Rattle.shared_memory.specs.Events.{IsEvent};
ghost use Rattle.word_row.specs.Answers.{refusal, size_answer, is_access, end_of, place_of, after_single, IsMadeBy};
ghost use Rattle.word_row.specs.Answers.{is_single_rmw};
ghost use Rattle.word_row.specs.Changes.{IsNext, ReplacesLane};

use crate::Single;
use shared_memory_sequential::{combine, lane, with_lane};
use types::{Event, PAGE_SIZE, Question, Reply, RmwOp};

/// The bytes of a page.
const PAGE: u64 = PAGE_SIZE as u64;

/// What an exchange makes of a word, and the reply that the event gets where it was made.
#[derive(Clone, Copy)]
pub struct Change {
    pub new: u64,
    pub reply: Reply,
}

/// What the word of an access settles.
#[derive(Clone, Copy)]
pub enum Next {
    /// The reply, without a change of the word.
    Answer(Reply),
    /// The word is to be exchanged.
    Exchange(Change),
}

/// Whether `width` bytes at an address end within so many pages, at most 256. The end may pass the last address.
#[inline(always)]
fn ends_within(addr: u64, width: u8, pages: u64) -> bool
    requires { pages ≤ MOST_PAGES }
    ensures { IsTrue result ↔ (addr + width ≤ PAGE_SIZE * pages) }
{
    let length = PAGE * pages;
    addr <= length && u64::from(width) <= length - addr
}

/// The refusal of an access of `width` bytes at an address, where it ends past so many pages, at most 256.
#[inline(always)]
fn refuse(addr: u64, width: u8, pages: u64) -> Option<Reply>
    requires { pages ≤ MOST_PAGES }
    ensures { result ≡ refusal (addr + width) pages }
{
    if ends_within(addr, width, pages) {
        None
    } else {
        Some(Reply::OutOfBounds)
    }
}

/// Whether an event is an access that lies within so many pages, at most 256.
#[inline(always)]
pub fn is_within(event: Event, pages: u64) -> bool
    requires { pages ≤ MOST_PAGES }
    ensures { IsTrue result ↔ ((is_access event ≡ true) × (end_of event ≤ PAGE_SIZE * pages)) }
{
    match event {
        Event::Load { reach, .. } | Event::Store { reach, .. } => ends_within(reach, 0, pages),
        Event::Rmw { addr, width, .. }
        | Event::Cmpxchg { addr, width, .. }
        | Event::Ask(Question::Wait { addr, width, .. }) => ends_within(addr, width, pages),
        _ => false,
    }
}

/// The reply that the page count settles: a page count, a refusal, or that of an event that reads no byte. `None` for
/// an access within bounds and a growth that can succeed. The count is at most 256.
#[inline(always)]
pub fn by_size(pages_max: u32, event: Event, pages: u64) -> Option<Reply>
    requires { pages ≤ MOST_PAGES }
    ensures { result ≡ size_answer pages_max event pages }
{
    match event {
        Event::Size => Some(Reply::Value(pages)),
        Event::Grow(more) if pages + u64::from(more) <= u64::from(pages_max) => None,
        Event::Grow(_) => Some(Reply::Value(u64::from(u32::MAX))),
        Event::Load { reach, .. } | Event::Store { reach, .. } => refuse(reach, 0, pages),
        Event::Rmw { addr, width, .. }
        | Event::Cmpxchg { addr, width, .. }
        | Event::Ask(Question::Wait { addr, width, .. }) => refuse(addr, width, pages),
        Event::Ask(Question::Notify { addr, .. }) => {
            refuse(addr, 4, pages).or(Some(Reply::Done))
        }
        Event::Ask(Question::Spawn { .. } | Question::Leave) | Event::Told(_) => Some(Reply::Done),
    }
}

/// The place of the word that an event reads or changes.
#[inline(always)]
pub fn word_place(event: Event) -> usize
    ensures { result ≡ place_of event }
{
    match event {
        Event::Load { addr, .. }
        | Event::Store { addr, .. }
        | Event::Rmw { addr, .. }
        | Event::Cmpxchg { addr, .. }
        | Event::Ask(Question::Wait { addr, .. }) => (addr / 8) as usize + 1,
        _ => 0,
    }
}

/// A lane replaced in a word, with the reply to that.
#[inline(always)]
fn replace(word: u64, addr: u64, width: u8, value: u64, reply: Reply) -> Next
    requires some { 1 ≤ width }
    requires one_word { addr % 8 + width ≤ 8 }
    requires fits { value < 2 ^ (8 * width) }
    ensures { ReplacesLane word addr width value reply result }
{
    Next::Exchange(Change {
        new: with_lane(word, addr, width, value),
        reply,
    })
}

/// The single exchange that makes a read-modify-write, whatever the word is: of a whole word, or a bitwise one, whose
/// operand leaves the bits outside the lane as they are.
#[inline(always)]
pub fn single_of(op: RmwOp, addr: u64, width: u8, value: u64) -> Option<Single>
    requires event { IsEvent (Rmw op addr width value) }
    ensures made { IfSome result (λ single. IsMadeBy (Rmw op addr width value) (after_single single)) }
    ensures exactly { IsSome result ↔ (is_single_rmw op width ≡ true) }
{
    match op {
        RmwOp::And => Some(Single::And(with_lane(u64::MAX, addr, width, value))),
        RmwOp::Or => Some(Single::Or(with_lane(0, addr, width, value))),
        RmwOp::Xor => Some(Single::Xor(with_lane(0, addr, width, value))),
        RmwOp::Xchg if width == 8 => Some(Single::Swap(value)),
        RmwOp::Add if width == 8 => Some(Single::Add(value)),
        RmwOp::Sub if width == 8 => Some(Single::Add(value.wrapping_neg())),
        RmwOp::Xchg | RmwOp::Add | RmwOp::Sub => None,
    }
}

/// What the word of an access settles.
#[inline(always)]
pub fn by_word(event: Event, word: u64) -> Next
    requires event { IsEvent event }
    requires access { is_access event ≡ true }
    ensures { (max : ℕ) → IsNext max event word result }
{
    match event {
        Event::Load { addr, width, .. } | Event::Ask(Question::Wait { addr, width, .. }) => {
            Next::Answer(Reply::Value(lane(word, addr, width)))
        }
        Event::Store {
            addr,
            width,
            value,
            ..
        } => replace(word, addr, width, value, Reply::Done),
        Event::Rmw {
            op,
            addr,
            width,
            value,
        } => {
            let loaded = lane(word, addr, width);
            let value = combine(op, width, loaded, value);
            replace(word, addr, width, value, Reply::Value(loaded))
        }
        Event::Cmpxchg {
            addr,
            width,
            expected,
            replacement,
        } => {
            let loaded = lane(word, addr, width);
            if loaded == expected {
                replace(word, addr, width, replacement, Reply::Value(loaded))
            } else {
                Next::Answer(Reply::Value(loaded))
            }
        }
        Event::Size | Event::Grow(_) | Event::Ask(_) | Event::Told(_) => unreachable!(),
    }
}
