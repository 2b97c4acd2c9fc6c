//! Files that cases name.

use crate::tally::Stop;
use std::fs;

/// The bytes of a file. Says which, where it can't be read.
pub fn read_file(rt: &HostRuntime, path: &str) -> Result<Vec<u8>, Stop> {
    match fs::read(rt, path) {
        Ok(bytes) => Ok(bytes),
        Err(_) => {
            let _ = println!(rt; "{path}:");
            Err(Stop::Unread)
        }
    }
}
