//! What is at a record's path before, while and after it is written.

use crate::room::{count_in, make_room, path_in};
use replay_text::read_record;
use report_program::{SavePlace, SavedFile, is_one_file, is_one_place, keep_early};
use std::fs;
use std::io::{self, ErrorKind, Write};
use std::os::unix::fs::symlink;
use std::path::PathBuf;
use std::test::Fail;
use test_cases::hold;

/// What becomes of a record that is written.
#[derive(Clone, Copy)]
enum End {
    Kept,
    GivenUp,
}

/// Whether a file has this text; none where there is no file.
fn has(rt: &HostRuntime, path: &str, text: Option<&str>) -> bool {
    match fs::read_to_string(rt, path) {
        Ok(found) => Some(found.as_str()) == text,
        Err(_) => text.is_none(),
    }
}

/// Writes a record at a path where this text is, if there is one. Answers whether that stayed while the record was
/// written.
fn save(rt: &HostRuntime, path: &str, before: Option<&str>, end: End) -> io::Result<bool> {
    let mut file = SavedFile::new(rt, Some(SavePlace::new(rt, path)?));
    let untouched = has(rt, path, before);
    file.write_all(b"new")?;
    file.flush()?;
    let stayed = untouched && has(rt, path, before);
    match end {
        End::Kept => file.keep()?,
        End::GivenUp => file.give_up(),
    }
    Ok(stayed)
}

/// What is there before, what becomes of the record, and what is there behind it.
static SAVED: [(Option<&str>, End, Option<&str>); 4] = [
    (None, End::Kept, Some("new")),
    (None, End::GivenUp, None),
    (Some("old"), End::Kept, Some("new")),
    (Some("old"), End::GivenUp, Some("old")),
];

/// Writes a record, and answers whether all went as it has to: what is there before stays, and what is there behind it
/// is the only file of the room.
fn is_saved(
    rt: &HostRuntime,
    room: &PathBuf,
    path: &str,
    before: Option<&str>,
    end: End,
    after: Option<&str>,
) -> Result<bool, Fail> {
    let stayed = save(rt, path, before, end)?;
    let count = count_in(rt, room)?;
    Ok(stayed && has(rt, path, after) && count == usize::from(after.is_some()))
}

/// Writes a record for each row, at this path in a room.
fn save_all(rt: &HostRuntime, room: &PathBuf, path: &str) -> Result<(), Fail> {
    for (place, (before, end, after)) in SAVED.iter().enumerate() {
        if let Some(text) = before {
            fs::write(rt, path, *text)?;
        }
        if !is_saved(rt, room, path, *before, *end, *after)? {
            return Err(Fail::new(format_args!("row {place}")));
        }
        if after.is_some() {
            fs::remove_file(rt, path)?;
        }
    }
    Ok(())
}

#[test]
fn what_is_there_stays_until_all_is_written(rt: HostRuntime) -> Result<(), Fail> {
    let room = make_room(&rt, "saving")?;
    let path = path_in(&rt, &room, "a.record")?;
    save_all(&rt, &room, &path)?;
    Ok(fs::remove_dir_all(&rt, room.as_path())?)
}

/// Writes where there is no room. Answers why it isn't kept, if each write and flush before that was taken.
fn not_kept(rt: &HostRuntime) -> io::Result<Option<ErrorKind>> {
    let mut file = SavedFile::new(rt, Some(SavePlace::new(rt, "/dev/full")?));
    file.write_all(b"new")?;
    file.flush()?;
    file.write_all(b"more")?;
    match file.keep() {
        Ok(()) => Ok(None),
        Err(error) => Ok(Some(error.kind())),
    }
}

#[test]
fn who_writes_goes_on_where_there_is_no_room(rt: HostRuntime) -> Result<(), Fail> {
    hold(&[("no room", not_kept(&rt)? == Some(ErrorKind::StorageFull))])
}

/// A record's text.
const TEXT: &str =
    "wathread-record 1\ninvoke 66\nargs\nfuel 9\nlimit 9\n0 leave = done\nend 0 ok - 1\npages 0\nfinish\n";

/// Keeps the record while smaller ones would be looked for. Answers whether all of it is at its place then.
fn is_early(rt: &HostRuntime, path: &str) -> io::Result<bool> {
    let Ok(found) = read_record(rt.alloc(), TEXT.as_bytes()) else {
        return Ok(false);
    };
    keep_early(rt, path, &found)?;
    Ok(has(rt, path, Some(TEXT)))
}

#[test]
fn all_of_an_early_record_is_there(rt: HostRuntime) -> Result<(), Fail> {
    let room = make_room(&rt, "early")?;
    let path = path_in(&rt, &room, "a.record")?;
    hold(&[("its text", is_early(&rt, &path)?)])?;
    Ok(fs::remove_dir_all(&rt, room.as_path())?)
}

/// A record at `link` goes to the file that is at `path`, and `other` is another file.
fn follow_link(rt: &HostRuntime, path: &str, link: &str, other: &str) -> Result<(), Fail> {
    fs::write(rt, path, "old")?;
    fs::write(rt, other, "old")?;
    symlink(rt, path, link)?;
    hold(&[
        ("one file", is_one_file(rt, path, link)),
        ("another file", !is_one_file(rt, path, other)),
        ("a folder", !is_one_file(rt, "/", "/")),
        ("no path", !is_one_file(rt, "", "")),
        ("one place", is_one_place(rt, "new", "./new")),
        ("another place", !is_one_place(rt, "new", "/new")),
        ("another name", !is_one_place(rt, "new", "old")),
        (
            "what was there stays",
            save(rt, link, Some("old"), End::Kept)?,
        ),
        (
            "the link stays",
            fs::symlink_metadata(rt, link)?.is_symlink(),
        ),
        ("the file is new", has(rt, path, Some("new"))),
    ])
}

#[test]
fn links_lead_to_one_file_and_stay(rt: HostRuntime) -> Result<(), Fail> {
    let room = make_room(&rt, "links")?;
    let path = path_in(&rt, &room, "a.record")?;
    let link = path_in(&rt, &room, "link")?;
    let other = path_in(&rt, &room, "other")?;
    follow_link(&rt, &path, &link, &other)?;
    Ok(fs::remove_dir_all(&rt, room.as_path())?)
}

/// Whether a path in a room takes no record.
fn is_refused(rt: &HostRuntime, room: &PathBuf, name: &str) -> bool {
    match path_in(rt, room, name) {
        Ok(path) => SavePlace::new(rt, &path).is_err(),
        Err(_) => false,
    }
}

/// A room with a link to nothing takes no record at these places, and nothing is made there.
fn refuse_all(rt: &HostRuntime, room: &PathBuf) -> Result<(), Fail> {
    let link = path_in(rt, room, "link")?;
    symlink(rt, "nothing", link.as_str())?;
    hold(&[
        ("the room itself", is_refused(rt, room, "")),
        (
            "a folder that isn't there",
            is_refused(rt, room, "nowhere/a.record"),
        ),
        ("a name of a folder", is_refused(rt, room, "a.record/")),
        ("a link to nothing", is_refused(rt, room, "link")),
        ("no path", SavePlace::new(rt, "").is_err()),
        ("how many names", count_in(rt, room)? == 1),
    ])
}

#[test]
fn places_that_take_no_record(rt: HostRuntime) -> Result<(), Fail> {
    let room = make_room(&rt, "places")?;
    refuse_all(&rt, &room)?;
    Ok(fs::remove_dir_all(&rt, room.as_path())?)
}
