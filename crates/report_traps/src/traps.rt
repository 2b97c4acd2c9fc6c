//! Where the threads of a run trapped, with what is known of the code of its module.

use crate::frames::Frames;
use crate::site::Site;
use show_json::{Offset, PlaceObject, SourceObject};
use show_rows::CodeMap;
use show_spots::Spot;
use std::alloc::{AllocError, Global};
use types::Parts;

/// Where the threads of a run trapped, with what is known of the code of its module.
#[derive(Drop)]
pub struct Traps<'m, 'n> {
    frames: &'m Frames,
    code: CodeMap<'m, 'n>,
}

fn place_of(spot: Spot<'_>) -> PlaceObject<'_> {
    PlaceObject {
        function: spot.name,
        offset: spot.offset.map(Offset),
        source: spot.source.map(|(file, line)| SourceObject { file, line }),
    }
}

impl<'m, 'n> Traps<'m, 'n> {
    /// What was kept, of a module with these parts, whose bytes have the names and the lines.
    ///
    /// # Errors
    /// Where memory is refused.
    pub fn read(
        alloc: Global,
        parts: &'m Parts,
        bytes: &'n [u8],
        frames: &'m Frames,
    ) -> Result<Traps<'m, 'n>, AllocError> {
        let code = CodeMap::read(alloc, parts, bytes, bytes)?;
        Ok(Traps { frames, code })
    }

    /// Where a thread trapped, at depth 0, or a call by which it came there; as `Frames::place`.
    pub fn site(&self, thread: usize, depth: usize) -> Option<Site<'_>> {
        match self.frames.place(thread, depth) {
            Some(place) => Some(Site(self.code.spot(place))),
            None => None,
        }
    }

    /// Where a thread trapped, as an object has it, if it did.
    pub fn place(&self, thread: usize) -> Option<PlaceObject<'_>> {
        match self.frames.place(thread, 0) {
            Some(place) => Some(place_of(self.code.spot(place))),
            None => None,
        }
    }
}
