//! The files of a store that is looked at, read by pieces.

use im_base_types::{Fault, FileId};
use std::alloc::Global;

/// How much is read at once.
const PIECE: usize = 262_144;

/// The files of a store, whose bytes may be read from any place.
pub trait Files {
    /// The length of a file in bytes.
    fn length(&mut self, file: FileId) -> Result<u64, Fault>;

    /// Fills the room with the bytes from a place on, which are there.
    fn fill(&mut self, file: FileId, at: u64, room: &mut [u8]) -> Result<(), Fault>;
}

/// A piece of a file, which is read as it is asked for.
#[derive(Drop)]
pub(crate) struct Piece {
    file: FileId,
    // The place of its first byte.
    from: u64,
    bytes: Vec<u8>,
}

impl Piece {
    /// None of a file yet.
    pub(crate) fn new(alloc: Global, file: FileId) -> Piece {
        Piece {
            file,
            from: 0,
            bytes: Vec::new(alloc),
        }
    }

    /// Reads so many bytes from a place on, and what stands after them, unless they are held: fewer where the file ends before.
    ///
    /// Refused `Memory` or `Device`.
    pub(crate) fn hold<F: Files>(
        &mut self,
        files: &mut F,
        place: u64,
        size: usize,
    ) -> Result<(), Fault> {
        if self.held(place, size).len() == size {
            return Ok(());
        }
        let left = files.length(self.file)?.saturating_sub(place);
        let size = usize::try_from(left)
            .unwrap_or(usize::MAX)
            .min(size.max(PIECE));
        self.from = place;
        self.bytes.clear();
        if self.bytes.resize(size, 0).is_err() {
            return Err(Fault::Memory);
        }
        files.fill(self.file, place, &mut self.bytes)
    }

    /// Those of so many bytes from a place on that are held.
    pub(crate) fn held(&self, place: u64, size: usize) -> &[u8] {
        let Some(skipped) = place.checked_sub(self.from) else {
            return &[];
        };
        let Ok(skipped) = usize::try_from(skipped) else {
            return &[];
        };
        match self.bytes.get(skipped..) {
            Some(bytes) => &bytes[..size.min(bytes.len())],
            None => &[],
        }
    }
}
