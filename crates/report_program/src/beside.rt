//! A file beside another, under a name that nothing else has.

use std::alloc::Global;
use std::fs::{self, File};
use std::io::{self, Error, ErrorKind, Write};
use std::path::Path;

/// How many names are tried.
const NAMES: u32 = 1000;

/// How many digits their numbers have at most.
const DIGITS: usize = 3;

/// The path of a file beside another.
#[derive(Drop)]
pub(crate) struct Beside {
    /// The path up to a number.
    front: String,
    /// The path as it was last made, with room for each number.
    path: String,
}

impl Beside {
    /// A path in the folder in which the other file is.
    pub(crate) fn new(alloc: Global, other: &str) -> io::Result<Beside> {
        let front = match Path::new(other).parent() {
            Some(folder) => folder.join(alloc, ".wathread-")?.into_string(),
            None => return Err(Error::from(ErrorKind::InvalidInput)),
        };
        let path = String::with_capacity(alloc, front.len().saturating_add(DIGITS))?;
        Ok(Beside { front, path })
    }

    fn number(&mut self, number: u32) -> io::Result<()> {
        self.path.clear();
        self.path.push_str(self.front.as_str())?;
        write!(self.path, "{number}")?;
        Ok(())
    }

    /// Makes the file, which nothing was before. Takes no memory.
    pub(crate) fn create(&mut self, rt: &HostRuntime) -> io::Result<File> {
        for number in 0..NAMES {
            self.number(number)?;
            match File::create_new(rt, self.path.as_str()) {
                Err(error) if error.kind() == ErrorKind::AlreadyExists => {}
                made => return made,
            }
        }
        Err(Error::from(ErrorKind::AlreadyExists))
    }

    /// The path of the file that was made.
    pub(crate) fn path(&self) -> &str {
        self.path.as_str()
    }

    /// Takes the file away that was made.
    pub(crate) fn remove(&self, rt: &HostRuntime) -> io::Result<()> {
        fs::remove_file(rt, self.path.as_str())
    }
}
