//! Files that are looked at over a disk on which what is written stays in memory.

use im_base_disk::Disk;
use im_base_types::{Fault, FileId};
use im_files_scratch_disk::ScratchDisk;
use im_tool_look::Files;

/// The files of such a disk, also after a call of it that failed.
#[derive(Drop)]
pub struct ScratchFiles<D: Disk + Drop> {
    disk: ScratchDisk<D>,
}

impl<D: Disk + Drop> ScratchFiles<D> {
    /// The files of this disk.
    pub fn of(disk: ScratchDisk<D>) -> ScratchFiles<D> {
        ScratchFiles { disk }
    }

    /// The disk.
    pub fn into_disk(self) -> ScratchDisk<D> {
        self.disk
    }
}

impl<D: Disk + Drop> Files for ScratchFiles<D> {
    fn length(&mut self, file: FileId) -> Result<u64, Fault> {
        self.disk.length_of(file)
    }

    fn fill(&mut self, file: FileId, at: u64, room: &mut [u8]) -> Result<(), Fault> {
        self.disk.fill_from(file, at, room)
    }
}
