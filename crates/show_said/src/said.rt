//! What is said in a log.

ghost use Rattle.std.specs.Prelude.{◌≡◌, ◌++◌, ℕ, List, [], length, map, replicate, IfOk, OnOk};
ghost use Rattle.types.specs.declared.event.Entry.{Entry};
ghost use Rattle.show_said.specs.Lines.{line_text};
ghost use Rattle.show_said.specs.Said as specified;
ghost use Rattle.show_said.specs.Said.{put_by, said_by, lines_behind, said_last};
ghost use Rattle.show_said.specs.Said.{letters_of_thread, texts_of, all_lines};

use crate::letters::{Voice, hear, tell_some};
use std::alloc::{AllocError, Global};
use std::mem::replace;
use types::{Entry, Event, Name, Reply, Sequence};

/// A line that a thread said.
#[derive(Drop)]
pub struct Said {
    pub thread: usize,
    /// The number in the record of the line that has the entry with which it ended; of the one behind all entries where
    /// nothing ended it.
    pub line: u64,
    /// It without its control characters.
    pub text: Name,
}

/// The line of the record that has the entry at a place.
fn line_of(first: u64, at: usize) -> u64
    ensures { result ≡ specified.line_of first at }
{
    first.saturating_add(at as u64)
}

/// The number that an entry puts at the port of its thread, if it does.
pub(crate) fn put_by(ports: &[u32], entry: &Entry) -> Option<u64>
    ensures { result ≡ put_by ports.now entry.now }
{
    let port = *ports.get(entry.thread as usize)?;
    match *entry {
        Entry {
            event: Event::Store {
                addr,
                width: 8,
                value,
                ..
            },
            reply: Reply::Done,
            ..
        } if addr == u64::from(port) => Some(value),
        _ => None,
    }
}

/// Hears an entry: adds its letters to the line of its thread, and what ends with it to what was said.
fn hear_entry(
    alloc: Global,
    ports: &[u32],
    line: u64,
    entry: &Entry,
    lines: &mut Vec<Sequence<u8>>,
    said: &mut Vec<Said>,
) -> Result<(), AllocError>
    requires { length lines.old.items ≡ length ports.now }
    ensures lines { OnOk result (lines.new.items ≡ lines_behind ports.now lines.old.items entry.now) }
    ensures said { OnOk result (said.new.items ≡ said.old.items ++ said_by ports.now lines.old.items line entry.now) }
{
    let Some(value) = put_by(ports, entry) else {
        return Ok(());
    };
    let thread = entry.thread as usize;
    let none = Sequence::from_vec(Vec::new(alloc));
    let mut text = replace(&mut lines[thread], none).into_vec();
    let voice = Voice { thread, line };
    hear(alloc, voice, value, &mut text, said)?;
    lines[thread] = Sequence::from_vec(text);
    Ok(())
}

/// Tells the lines that nothing ended, where the log ends.
fn tell_last(
    alloc: Global,
    line: u64,
    lines: &[Sequence<u8>],
    said: &mut Vec<Said>,
) -> Result<(), AllocError>
    ensures { OnOk result (said.new.items ≡ said.old.items ++ said_last 0 line lines.now) }
{
    for (thread, text) in lines.iter().enumerate() {
        tell_some(alloc, Voice { thread, line }, text.as_slice(), said)?;
    }
    Ok(())
}

/// No line so far of any of so many threads.
fn no_lines(alloc: Global, threads: usize) -> Result<Vec<Sequence<u8>>, AllocError>
    ensures { IfOk result (λ lines. lines.items ≡ replicate threads []) }
{
    let mut lines = Vec::with_capacity(alloc, threads)?;
    for _thread in 0..threads {
        lines.push(Sequence::from_vec(Vec::new(alloc)))?;
    }
    Ok(lines)
}

/// What threads say in a log, by the ports of threads, from thread 0 on: a line each, in the order of the entries with
/// which they ended, and behind these what nothing ended, thread by thread. The log's first entry is on this line of
/// the record.
pub fn heard(
    alloc: Global,
    ports: &[u32],
    first: u64,
    log: &[Entry],
) -> Result<Vec<Said>, AllocError>
    ensures { IfOk result (λ said. said.items ≡ specified.said ports.now first log.now) }
{
    let mut lines = no_lines(alloc, ports.len())?;
    let mut said = Vec::new(alloc);
    for (at, entry) in log.iter().enumerate() {
        hear_entry(
            alloc,
            ports,
            line_of(first, at),
            entry,
            &mut lines,
            &mut said,
        )?;
    }
    tell_last(alloc, line_of(first, log.len()), &lines, &mut said)?;
    Ok(said)
}

/// Of each thread exactly the lines of its own letters are said, in their order, with no letter left out.
pub fn each_says_its_letters()
    ensures { (ports : List ℕ) (first : ℕ) (log : List Entry) (thread : ℕ)
        → texts_of thread (specified.said ports first log)
        ≡ map line_text (all_lines (letters_of_thread ports thread log)) }
{}
