//! What a job's streams get when it ends, which files it leaves, and which it reads.

use crate::room::{count_in, make_room, path_in};
use crate::writers::Narrow;
use report_command::{CallWords, EndLook, Job, RunJob, command};
use report_jobs::{Done, JobResult, Refused, Undone};
use report_program::{Detail, hand_on_if, open_task};
use std::alloc::Global;
use std::fs;
use std::io::{self, BufWriter, ErrorKind, Write};
use std::os::unix::fs::symlink;
use std::path::PathBuf;
use std::test::Fail;
use test_cases::hold;
use test_modules::ATOMIC_ADD;

/// A buffer in which a text is held back, before a writer with so much room.
fn held(alloc: Global, text: &[u8], room: usize) -> io::Result<BufWriter<Narrow>> {
    let mut buffer = BufWriter::with_capacity(alloc, 64, Narrow::new(alloc, room, 7))?;
    buffer.write_all(text)?;
    Ok(buffer)
}

/// Whether a stream with so much room gets so many bytes of a text that comes or doesn't, and fails so.
fn gets(
    alloc: Global,
    comes: bool,
    room: usize,
    fault: Option<ErrorKind>,
    count: usize,
) -> io::Result<bool> {
    let text = b"what it keeps";
    let (stream, failed) = hand_on_if(comes, held(alloc, text, room)?);
    Ok(failed == fault && stream.has(text.get(..count).unwrap_or(b"")))
}

#[test]
fn what_is_held_back_gets_out_or_fails(rt: HostRuntime) -> Result<(), Fail> {
    let alloc = rt.alloc();
    hold(&[
        ("all gets out", gets(alloc, true, 64, None, 13)?),
        (
            "there is no room",
            gets(alloc, true, 12, Some(ErrorKind::StorageFull), 12)?,
        ),
        ("it isn't to come", gets(alloc, false, 64, None, 0)?),
    ])
}

/// A run of the module at a path, with its record at another one.
fn running<'a>(alloc: Global, file: &'a str, save: &'a str) -> Job<'a> {
    Job::Run(RunJob {
        file,
        call: CallWords {
            invoke: "f",
            args: Vec::new(alloc),
            fuel: 1000,
        },
        on_words: false,
        limit: 1000,
        is_limit_said: true,
        save: Some(save),
        memory_in: None,
        memory_out: None,
        look: EndLook::lines(0),
    })
}

/// What came of a run.
#[derive(Clone, Copy)]
enum Came {
    Refused,
    Well,
    Trapped,
}

fn result_of(came: Came) -> JobResult<'static> {
    match came {
        Came::Refused => Err(Undone::Refused(Refused::EndMissing)),
        Came::Well => Ok(Done::with(0)),
        Came::Trapped => Ok(Done::with(1)),
    }
}

/// Ends a run of which this came, and that wrote a record, where standard output has so much room. Answers the status, if
/// it was begun.
fn end_with(rt: &HostRuntime, job: &Job, came: Came, room: usize) -> Result<u8, Fail> {
    let stdout = Narrow::new(rt.alloc(), room, 64);
    let mut task = match open_task(rt, stdout, job, Detail::Line) {
        Ok(task) => task,
        Err(status) => return Ok(status),
    };
    task.streams.out.write_all(b"lines")?;
    task.streams.save.write_all(b"a record")?;
    Ok(task.end(rt, job, &result_of(came)))
}

/// Whether the record is there, with its text, beside the module.
fn is_kept(rt: &HostRuntime, room: &PathBuf, path: &str) -> Result<bool, Fail> {
    match fs::read_to_string(rt, path) {
        Ok(text) => Ok(text.as_str() == "a record" && count_in(rt, room)? == 2),
        Err(_) => Ok(false),
    }
}

/// Ends runs in a room with a module.
fn end_all(rt: &HostRuntime, job: &Job, room: &PathBuf, path: &str) -> Result<(), Fail> {
    hold(&[
        ("a refusal", end_with(rt, job, Came::Refused, 64)? == 4),
        ("it leaves no record", count_in(rt, room)? == 1),
        ("a trap", end_with(rt, job, Came::Trapped, 64)? == 1),
        ("its record", is_kept(rt, room, path)?),
        ("it goes", fs::remove_file(rt, path).is_ok()),
        (
            "no room for the lines",
            end_with(rt, job, Came::Well, 4)? == 5,
        ),
        ("their record", is_kept(rt, room, path)?),
    ])
}

#[test]
fn a_record_is_kept_though_lines_are_lost(rt: HostRuntime) -> Result<(), Fail> {
    let room = make_room(&rt, "tasks")?;
    let file = path_in(&rt, &room, "a.wasm")?;
    let path = path_in(&rt, &room, "a.record")?;
    fs::write(&rt, file.as_str(), ATOMIC_ADD)?;
    let job = running(rt.alloc(), &file, &path);
    end_all(&rt, &job, &room, &path)?;
    Ok(fs::remove_dir_all(&rt, room.as_path())?)
}

/// Ends a run whose memory has no bytes, which go to this path. Answers the status, if it was begun.
fn end_without_bytes(rt: &HostRuntime, file: &str, path: &str) -> u8 {
    let Job::Run(run) = running(rt.alloc(), file, path) else {
        return 3;
    };
    let job = Job::Run(RunJob {
        save: None,
        memory_out: Some(path),
        ..run
    });
    match open_task(rt, Narrow::new(rt.alloc(), 64, 64), &job, Detail::Line) {
        Ok(task) => task.end(rt, &job, &Ok(Done::with(0))),
        Err(status) => status,
    }
}

#[test]
fn a_memory_without_bytes_leaves_an_empty_file(rt: HostRuntime) -> Result<(), Fail> {
    let room = make_room(&rt, "no-bytes")?;
    let file = path_in(&rt, &room, "a.wasm")?;
    let path = path_in(&rt, &room, "a.bytes")?;
    fs::write(&rt, file.as_str(), ATOMIC_ADD)?;
    fs::write(&rt, path.as_str(), "old")?;
    let status = end_without_bytes(&rt, &file, &path);
    let is_empty = fs::read(&rt, path.as_str())?.is_empty();
    hold(&[("the status", status == 0), ("no bytes", is_empty)])?;
    Ok(fs::remove_dir_all(&rt, room.as_path())?)
}

/// The status of a run whose record would go to a link to its module.
fn status_of_link(rt: &HostRuntime, file: &str, link: &str) -> Result<u8, Fail> {
    symlink(rt, file, link)?;
    let job = running(rt.alloc(), file, link);
    end_with(rt, &job, Came::Well, 64)
}

#[test]
fn a_link_to_the_module_takes_no_record(rt: HostRuntime) -> Result<(), Fail> {
    let room = make_room(&rt, "module-link")?;
    let file = path_in(&rt, &room, "a.wasm")?;
    let link = path_in(&rt, &room, "a.link")?;
    fs::write(&rt, file.as_str(), ATOMIC_ADD)?;
    let status = status_of_link(&rt, &file, &link)?;
    let stays = fs::read(&rt, file.as_str())?.as_slice() == ATOMIC_ADD;
    hold(&[("the status", status == 3), ("the module stays", stays)])?;
    Ok(fs::remove_dir_all(&rt, room.as_path())?)
}

/// Whether a show reads the names of a file, and has none where no file is named.
fn reads_names(rt: &HostRuntime, file: &str, names: &str) -> Result<bool, Fail> {
    let with = ["wathread", "show", file, file, "--names", names];
    let without = ["wathread", "show", file, file];
    let (Ok(named), Ok(plain)) = (command(rt.alloc(), &with), command(rt.alloc(), &without)) else {
        return Ok(false);
    };
    let stdout = || Narrow::new(rt.alloc(), 64, 64);
    let (Ok(named), Ok(plain)) = (
        open_task(rt, stdout(), &named, Detail::Line),
        open_task(rt, stdout(), &plain, Detail::Line),
    ) else {
        return Ok(false);
    };
    let found = named.input.names.as_deref() == Some(b"names".as_slice());
    Ok(found && plain.input.names.is_none())
}

#[test]
fn a_show_reads_the_file_that_has_the_names(rt: HostRuntime) -> Result<(), Fail> {
    let room = make_room(&rt, "names")?;
    let file = path_in(&rt, &room, "a.wasm")?;
    let names = path_in(&rt, &room, "b.wasm")?;
    fs::write(&rt, file.as_str(), ATOMIC_ADD)?;
    fs::write(&rt, names.as_str(), "names")?;
    hold(&[("the names", reads_names(&rt, &file, &names)?)])?;
    Ok(fs::remove_dir_all(&rt, room.as_path())?)
}
