//! Runs whose lines or whose record can't be written to their end.

ghost use Rattle.std.specs.Prelude.{◌≤◌};
ghost use Rattle.types.specs.declared.limits.TheConstants.{MOST_FUEL};

use report_command::{CallWords, EndLook, RunJob};
use report_jobs::{Streams, run, status_of, tell_ended};
use std::alloc::Global;
use std::io::{self, Write};
use std::sync::Wait;
use std::thread::Threads;
use test_modules::ATOMIC_ADD;

const OUT: &[u8] = b"thread 0: ok i32:0\npages 1\nbytes 05 00 00 00 00 00 00 00\n";

/// The record of the atomic add.
pub(crate) const RECORD: &[u8] = b"\
wathread-record 2\nmodule 46\nthreads 64\nmax-pages 256\ninvoke 66\nargs\nfuel 1000000000\nlimit 100000\n\
0 rmw add 0 4 5 = 0\n0 leave = done\n0 told 0 = done\n\
end 0 ok i32:0 4\npages 1\nfinish\n";

/// Makes the atomic add.
fn adding(alloc: Global) -> RunJob<'static>
    ensures { result.call.fuel ≤ MOST_FUEL }
{
    RunJob {
        file: "a.wasm",
        call: CallWords {
            invoke: "f",
            args: Vec::new(alloc),
            fuel: 1_000_000_000,
        },
        on_words: false,
        limit: 100_000,
        is_limit_said: true,
        save: Some("a.record"),
        memory_in: None,
        memory_out: None,
        look: EndLook::lines(8),
    }
}

/// A writer that takes so many bytes, at most so many of them at once, and then answers an error.
#[derive(Drop)]
pub(crate) struct Narrow {
    room: usize,
    at_once: usize,
    taken: Vec<u8>,
}

impl Narrow {
    pub(crate) fn new(alloc: Global, room: usize, at_once: usize) -> Narrow {
        Narrow {
            room,
            at_once,
            taken: Vec::new(alloc),
        }
    }

    /// Whether it took the front of the text for which it has room.
    pub(crate) fn has_front(&self, text: &[u8]) -> bool {
        Some(self.taken.as_slice()) == text.get(..self.room.min(text.len()))
    }

    /// Whether it took this text.
    pub(crate) fn has(&self, text: &[u8]) -> bool {
        self.taken.as_slice() == text
    }
}

impl Write for Narrow {
    fn write(&mut self, bytes: &[u8]) -> io::Result<usize> {
        let left = self.room.saturating_sub(self.taken.len());
        let count = bytes.len().min(left).min(self.at_once);
        if count == 0 && !bytes.is_empty() {
            return Err(io::Error::from(io::ErrorKind::StorageFull));
        }
        self.taken.extend_from_slice(&bytes[..count])?;
        Ok(count)
    }

    fn flush(&mut self) -> io::Result<()> {
        Ok(())
    }
}

/// Runs the atomic add with so much room on standard output and in the record's file, which take so many bytes at once.
/// Answers whether this is said of it, with this status, and each of the two took what it has room for: the record
/// nothing where standard output failed.
fn is_said<R: Threads + Wait + Sync>(
    rt: &R,
    alloc: Global,
    rooms: (usize, usize),
    at_once: usize,
    said: &[u8],
    status: u8,
) -> bool {
    let mut streams: Streams<Narrow, Vec<u8>, Narrow> = Streams {
        out: Narrow::new(alloc, rooms.0, at_once),
        err: Vec::new(alloc),
        save: Narrow::new(alloc, rooms.1, at_once),
        memory: Narrow::new(alloc, 0, at_once),
    };
    let job = adding(alloc);
    let ended = run(rt, alloc, &job, ATOMIC_ADD, b"", &mut streams);
    let Streams {
        out,
        mut err,
        save,
        ..
    } = streams;
    tell_ended(&mut err, &ended);
    let record = if rooms.0 < OUT.len() {
        b"".as_slice()
    } else {
        RECORD
    };
    out.has_front(OUT)
        && save.has_front(record)
        && status_of(&ended) == status
        && err.as_slice() == said
}

/// The whole record, and the lines on standard output, also where a write takes less than there is.
#[test]
fn writes_lines_and_record(rt: HostRuntime) {
    let rooms = (OUT.len(), RECORD.len());
    for at_once in [usize::MAX, 1, 7] {
        assert!(rt;
            is_said(&rt, rt.alloc(), rooms, at_once, b"", 0),
            "{at_once}"
        );
    }
}

/// Where the record fails, the lines stand, and then it is said which file failed.
#[test]
fn says_which_writer_failed(rt: HostRuntime) {
    let output = b"file fault: standard output\n";
    for room in 0..OUT.len() {
        let rooms = (room, RECORD.len());
        assert!(rt; is_said(&rt, rt.alloc(), rooms, 7, output, 5), "{room}");
    }
    let record = b"file fault: a.record\n";
    for room in 0..RECORD.len() {
        let rooms = (OUT.len(), room);
        assert!(rt; is_said(&rt, rt.alloc(), rooms, 7, record, 5), "{room}");
    }
}
