//! Files with what was written over them.
ghost use Rattle.std.specs.Prelude.{◌≡◌, IfErr};
ghost use Rattle.im_base_types.specs.declared.fault.Fault.TheVariants.{Device};
ghost use Rattle.im_files_scratch_disk.specs.OnlyRead.{IsOnlyRead};

use crate::base::Base;
use crate::block::{Over, Written, end_block, first_block, lay, place_of};
use im_base_disk::Disk;
use im_base_types::{Fault, FileId, PAGE_SIZE};
use std::alloc::Global;

/// The files of a disk, if there is one, with what was written over them.
#[derive(Drop)]
pub(crate) struct Overlaid<D: Disk + Drop> {
    pub(crate) alloc: Global,
    pub(crate) base: Base<D>,
    pub(crate) over: Over,
}

impl<D: Disk + Drop> Overlaid<D> {
    /// The length of a file in bytes.
    pub(crate) fn length(&mut self, file: FileId) -> Result<u64, Fault>
        ensures only { IsOnlyRead D.Disk self.old.base.disk self.new.base.disk }
        ensures kept { self.new.over ≡ self.old.over }
        ensures device { IfErr result (λ e. e ≡ Device) }
    {
        let length = self.base.length(file)?;
        Ok(length.max(self.over.of(file).end))
    }

    /// Fills the room with the bytes from a place on; past the end they are 0.
    pub(crate) fn read(&mut self, file: FileId, at: u64, room: &mut [u8]) -> Result<(), Fault>
        ensures only { IsOnlyRead D.Disk self.old.base.disk self.new.base.disk }
        ensures kept { self.new.over ≡ self.old.over }
        ensures device { IfErr result (λ e. e ≡ Device) }
    {
        room.fill(0);
        self.base.read(file, at, room)?;
        lay_written(self.over.of(file), at, room);
        Ok(())
    }

    /// Keeps the bytes as those from a place on. Refused `Memory`, and as a read.
    pub(crate) fn write(&mut self, file: FileId, at: u64, bytes: &[u8]) -> Result<(), Fault>
        ensures only { IsOnlyRead D.Disk self.old.base.disk self.new.base.disk }
    {
        for number in first_block(at)..end_block(at, bytes.len()) {
            let mut block = self.taken_block(file, number)?;
            lay(&mut block, place_of(number), bytes, at);
            let written = self.over.of_mut(file);
            if written.blocks.insert(number, block).is_err() {
                return Err(Fault::Memory);
            }
        }
        let end = at.saturating_add(bytes.len() as u64);
        let written = self.over.of_mut(file);
        written.end = written.end.max(end);
        Ok(())
    }

    // A block as it reads, which the caller puts back.
    fn taken_block(&mut self, file: FileId, number: u64) -> Result<Vec<u8>, Fault>
        ensures only { IsOnlyRead D.Disk self.old.base.disk self.new.base.disk }
    {
        if let Some(block) = self.over.of_mut(file).blocks.remove(&number) {
            return Ok(block);
        }
        let alloc = self.alloc;
        let mut block = vec![in alloc; 0; PAGE_SIZE].map_err(|_| Fault::Memory)?;
        self.base.read(file, place_of(number), &mut block)?;
        Ok(block)
    }
}

// Lays over the room, which begins at a place, what was written there.
fn lay_written(written: &Written, at: u64, room: &mut [u8]) {
    if written.blocks.is_empty() {
        return;
    }
    for number in first_block(at)..end_block(at, room.len()) {
        if let Some(block) = written.blocks.get(&number) {
            lay(room, at, block, place_of(number));
        }
    }
}
