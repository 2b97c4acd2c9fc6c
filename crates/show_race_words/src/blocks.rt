//! The blocks of the heap in which the bytes of races lie.

ghost use Rattle.std.specs.Prelude.{◌≡◌, ◌<◌, IfOk, length, max, option_copied, string_bytes};
ghost use Rattle.show_race_words.specs.Blocks as specified;
ghost use Rattle.show_race_words.specs.Blocks.{IsBlockLine, IsBlockOf, IsBlockText, IsLastGiven};

use interp::CodePlace;
use race_history::Race;
use selection::touched;
use show_places::FunctionName;
use show_rows::{CodeMap, Shown};
use show_stacks::StacksView;
use std::alloc::{AllocError, Global};
use types::{Entry, Event};

/// How many bytes the heap of `wathread-cc` keeps in front of a block.
const FRONT: u64 = 16;

/// What stands in them where the block is given out, beside its size.
const MARK: u64 = 0x5A00_0000;

/// The bits in which the mark stands.
const MARK_BITS: u64 = 0x7F00_0000;

/// The bits in which the size stands.
const SIZE_BITS: u64 = 0x00FF_FFFF;

/// A block that is given out: where its front begins, and how many bytes it has with its front.
#[derive(Clone, Copy)]
struct Given {
    addr: u64,
    size: u64,
}

/// A block of the heap in which a byte lies.
#[derive(Clone, Copy)]
pub(crate) struct Block {
    /// The byte's address.
    pub byte: u64,
    /// How far into the block it lies.
    pub into: u64,
    /// The place of the entry that gave the block out.
    pub at: usize,
}

/// The block that an event gives out: it stores the mark in front of it.
fn given_by(event: Event) -> Option<Given>
    ensures { result ≡ specified.given_by event }
{
    match event {
        Event::Store {
            addr,
            width,
            reach: _,
            value,
        } => given_of(addr, width, value),
        _ => None,
    }
}

/// The same of a store of these bytes.
fn given_of(addr: u64, width: u8, value: u64) -> Option<Given>
    ensures { result ≡ specified.given_of addr width value }
{
    if width == 4 && value & MARK_BITS == MARK {
        Some(Given {
            addr,
            size: value & SIZE_BITS,
        })
    } else {
        None
    }
}

/// How far into a block a byte lies, if it lies in it.
fn bytes_into(given: Given, byte: u64) -> Option<u64>
    ensures { result ≡ specified.bytes_into given byte }
{
    let past = byte.checked_sub(given.addr)?;
    let into = past.checked_sub(FRONT)?;
    if past < given.size { Some(into) } else { None }
}

/// How far into the block that an entry gives out a byte lies, whoever makes the entry.
fn into_written(made: Option<&Entry>, byte: u64) -> Option<u64>
    ensures { result ≡ specified.into_written (option_copied made.entry) byte }
{
    let entry = made?;
    let given = given_by(entry.event)?;
    bytes_into(given, byte)
}

/// Whether a function gives blocks out, by what it is called.
fn is_giver(name: FunctionName) -> bool
    ensures { result ≡ specified.is_giver (specified.text_of name.entry) }
{
    match name {
        FunctionName::Named(name) => name == "malloc" || name == "aligned_alloc",
        FunctionName::Exported(name) => name == "malloc" || name == "aligned_alloc",
        FunctionName::Numbered(_) => false,
    }
}

/// Whether a place is in such a function.
fn is_in_giver(code: &CodeMap, place: Option<CodePlace>) -> bool
    ensures { result ≡ specified.is_in_giver code.now place }
{
    match place {
        Some(place) => is_giver(code.spot(place).name),
        None => false,
    }
}

/// Whether a plain instruction of such a function made the entry at a place.
fn is_by_giver(shown: Shown, at: usize) -> bool
    ensures { result ≡ specified.is_by_giver shown.entry at }
{
    !shown.is_atomic_at(at) && is_in_giver(shown.code, shown.own_place_at(at))
}

/// How far a byte lies into the block that the entry at a place gives out.
fn into_given(shown: Shown, byte: u64, at: usize) -> Option<u64>
    ensures { result ≡ specified.into_given shown.entry byte at }
{
    let into = into_written(shown.record.log.as_slice().get(at), byte)?;
    if is_by_giver(shown, at) {
        Some(into)
    } else {
        None
    }
}

/// The last block in which a byte lies that an entry before a place gives out.
fn last_given(shown: Shown, byte: u64, first: usize) -> Option<Block>
    ensures { IsLastGiven shown.entry byte first result }
{
    let mut last = None;
    for at in 0..first {
        let Some(into) = into_given(shown, byte, at) else {
            continue;
        };
        last = Some(Block { byte, into, at });
    }
    last
}

/// The first address that the entry at a place touches.
fn first_touched(log: &[Entry], at: usize) -> Option<u64>
    ensures { result ≡ specified.first_touched log.now at }
{
    let entry = log.get(at)?;
    let span = touched(entry.event)?;
    Some(span.first)
}

fn greater(a: u64, b: u64) -> u64
    ensures { result ≡ max a b }
{
    if a < b { b } else { a }
}

/// The first address that both entries of a race touch.
fn shared_byte(log: &[Entry], race: Race) -> Option<u64>
    ensures { result ≡ specified.shared_byte log.now race }
{
    let first = first_touched(log, race.first)?;
    let second = first_touched(log, race.second)?;
    Some(greater(first, second))
}

/// The block of the heap in which the first byte lies that both entries of a race touch, if one was given out before.
pub(crate) fn block_of(shown: Shown, race: Race) -> Option<Block>
    ensures { IsBlockOf shown.entry race result }
{
    match shared_byte(shown.record.log.as_slice(), race) {
        Some(byte) => last_given(shown, byte, race.first),
        None => None,
    }
}

/// How far into a block a byte lies, and by which entry the block was got, with the calls that led there.
fn block_line(
    alloc: Global,
    shown: Shown,
    stacks: StacksView,
    block: Block,
) -> Result<String, AllocError>
    requires { block.at < length shown.record.now.log }
    ensures { IfOk result (λ text. IsBlockLine shown.entry stacks.entry block (string_bytes text)) }
{
    let Block { byte, into, at } = block;
    let (thread, line) = (shown.record.log.as_slice()[at].thread, shown.line_of(at));
    let stack = stacks.text(alloc, shown.own_place_at(at), at)?;
    let text = format!(in alloc;
        "  {byte} is {into} bytes into a block of the heap, which t{thread} got by entry {line}, {stack}\n"
    )?;
    Ok(text)
}

/// In which block of the heap the byte lies that both entries of a race touch; empty where it lies in none.
pub(crate) fn block_text(
    alloc: Global,
    shown: Shown,
    stacks: StacksView,
    race: Race,
) -> Result<String, AllocError>
    requires { race.first < length shown.record.now.log }
    ensures { IfOk result (λ text. IsBlockText shown.entry stacks.entry race (string_bytes text)) }
{
    match block_of(shown, race) {
        Some(block) => block_line(alloc, shown, stacks, block),
        None => Ok(String::new(alloc)),
    }
}
