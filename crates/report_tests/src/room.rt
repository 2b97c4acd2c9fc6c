//! A folder for a test.

use std::path::PathBuf;
use std::{env, fs, io, process};

/// Makes a folder of this name for this process alone.
pub(crate) fn make_room(rt: &HostRuntime, name: &str) -> io::Result<PathBuf> {
    let number = process::id(rt.process());
    let name = format!(in rt.alloc(); "{name}-{number}")?;
    let room = env::temp_dir(rt)?.join(rt.alloc(), name.as_str())?;
    fs::create_dir(rt, room.as_path())?;
    Ok(room)
}

/// The path of a file there.
pub(crate) fn path_in(rt: &HostRuntime, room: &PathBuf, name: &str) -> io::Result<String> {
    Ok(room.join(rt.alloc(), name)?.into_string())
}

/// How many names it holds.
pub(crate) fn count_in(rt: &HostRuntime, room: &PathBuf) -> io::Result<usize> {
    let mut count = 0usize;
    for entry in fs::read_dir(rt, room.as_path())? {
        let _ = entry?;
        count = count.saturating_add(1);
    }
    Ok(count)
}
