//! Files that are looked at, with a line that tells how far that is.

use crate::progress::Progress;
use im_base_types::{Fault, FileId};
use im_tool_look::Files;

const MIB: u64 = 1_048_576;

/// How much is read between one word of it and the next.
const A_PIECE: u64 = 4 * MIB;

/// Files each few MiB of which are told as they are read: how far the one file is, of how much.
#[derive(Drop)]
pub struct WatchedFiles<'a, F, P> {
    files: &'a mut F,
    progress: &'a mut P,
    // How many bytes were read since they were told last.
    read: u64,
    // How long the file is that was asked for last.
    length: u64,
}

impl<'a, F: Files, P: Progress> WatchedFiles<'a, F, P> {
    /// Nothing was read.
    pub fn new(files: &'a mut F, progress: &'a mut P) -> WatchedFiles<'a, F, P> {
        WatchedFiles {
            files,
            progress,
            read: 0,
            length: 0,
        }
    }
}

impl<F: Files, P: Progress> Files for WatchedFiles<'_, F, P> {
    fn length(&mut self, file: FileId) -> Result<u64, Fault> {
        let length = self.files.length(file)?;
        self.length = length;
        Ok(length)
    }

    fn fill(&mut self, file: FileId, at: u64, room: &mut [u8]) -> Result<(), Fault> {
        let size = room.len() as u64;
        self.files.fill(file, at, room)?;
        self.read = self.read.saturating_add(size);
        if self.read >= A_PIECE {
            self.read = 0;
            let all = self.length / MIB;
            let done = at.saturating_add(size) / MIB;
            self.progress.show(done.min(all), Some(all));
        }
        Ok(())
    }
}
