//! The files of a store that its caller holds, written to or only read.
ghost use Rattle.std.specs.Prelude.{◌≡◌, [], false};
ghost use Rattle.im_files_caller_disk.specs.Ways.{IsWay, has_failed, syncs_of, writes_of};

use crate::caller_disk::CallerDisk;
use im_base_disk::Disk;
use im_base_types::{Fault, FileId};
use im_files_scratch_disk::ScratchDisk;
use std::alloc::Global;

// Where what is written goes: to the caller, or nowhere but into memory.
#[derive(Drop)]
enum Way {
    Through(CallerDisk),
    Kept(ScratchDisk<CallerDisk>),
}

/// The files of a store that its caller holds. Where they are only read, what is written stays in memory, and the caller is asked for lengths and bytes alone.
#[derive(Drop)]
pub struct CallerFiles {
    way: Way,
}

impl CallerFiles {
    /// Those of a caller's disk, which are written to or only read.
    pub fn new(alloc: Global, disk: CallerDisk, is_read: bool) -> CallerFiles
        requires { ⟦<CallerDisk as Disk>⟧.failed disk ≡ false }
        ensures working { ⟦<CallerFiles as Disk>⟧.failed result ≡ false }
        ensures way { IsWay is_read disk result.way }
    {
        if is_read {
            return CallerFiles {
                way: Way::Kept(ScratchDisk::new(alloc, Some(disk))),
            };
        }
        CallerFiles {
            way: Way::Through(disk),
        }
    }
}

impl Disk for CallerFiles {
    ghost use Rattle.std.specs.Prelude.{◌≡◌, ◌+◌, ◌≤◌, [], false, length};
    ghost use Rattle.im_base_disk.specs.Disk.{Answers};
    ghost use Rattle.im_base_disk.specs.Runs.{Costs, Reads};
    ghost use Rattle.im_files_caller_disk.specs.Disks.{IsAsked};
    ghost use Rattle.im_files_caller_disk.specs.Ways.{Goes, IsOver, IsReadOver, IsSameOver, has_failed, syncs_of, writes_of};

    ghost tells = { ⊥ };

    ghost sums = { Unit {0} };

    ghost seen = { λ _ _. [] };

    ghost may_leave = { λ _ _. ⊥ };

    ghost moment = { λ _. 0 };

    ghost left_since = { λ _ _ _. ⊥ };

    ghost failed = { λ d. has_failed d.way };

    ghost writes = { λ d. writes_of d.way };

    ghost syncs = { λ d. syncs_of d.way };

    ghost counts_now = { λ _ _ _ _ none. none };

    ghost only_now = { λ _ _ none. none };

    ghost seen_may_stay = { λ _ none. absurd none };

    fn keeps_sums(&self) -> bool {
        true
    }

    fn len(&mut self, file: FileId) -> Result<u64, Fault>
        requires { ⟦<CallerFiles as Disk>⟧.failed self.old ≡ false }
        ensures reads { Reads ⟦<CallerFiles as Disk>⟧ self.old self.new }
        ensures answers { Answers (⟦<CallerFiles as Disk>⟧.failed self.new) result }
        ensures goes { Goes (IsAsked 1 file 0 0 []) IsReadOver self.old.way self.new.way }
    {
        match &mut self.way {
            Way::Through(disk) => disk.len(file),
            Way::Kept(disk) => disk.len(file),
        }
    }

    fn read(&mut self, file: FileId, at: u64, buf: &mut [u8]) -> Result<(), Fault>
        requires working { ⟦<CallerFiles as Disk>⟧.failed self.old ≡ false }
        requires within { ⟦<CallerFiles as Disk>⟧.tells → at + length buf.old ≤ length (⟦<CallerFiles as Disk>⟧.seen self.old file) }
        ensures reads { Reads ⟦<CallerFiles as Disk>⟧ self.old self.new }
        ensures answers { Answers (⟦<CallerFiles as Disk>⟧.failed self.new) result }
        ensures goes { Goes (IsAsked 2 file at (length buf.old) []) IsReadOver self.old.way self.new.way }
    {
        match &mut self.way {
            Way::Through(disk) => disk.read(file, at, buf),
            Way::Kept(disk) => disk.read(file, at, buf),
        }
    }

    fn write_at(&mut self, file: FileId, at: u64, bytes: &[u8]) -> Result<(), Fault>
        requires working { ⟦<CallerFiles as Disk>⟧.failed self.old ≡ false }
        requires place { ⟦<CallerFiles as Disk>⟧.tells → at ≤ length (⟦<CallerFiles as Disk>⟧.seen self.old file) }
        ensures costs { Costs ⟦<CallerFiles as Disk>⟧ 1 0 self.old self.new }
        ensures answers { Answers (⟦<CallerFiles as Disk>⟧.failed self.new) result }
        ensures goes { Goes (IsAsked 3 file at (length bytes.now) bytes.now) IsOver self.old.way self.new.way }
    {
        match &mut self.way {
            Way::Through(disk) => disk.write_at(file, at, bytes),
            Way::Kept(disk) => disk.write_at(file, at, bytes),
        }
    }

    fn sync(&mut self, file: FileId) -> Result<(), Fault>
        requires { ⟦<CallerFiles as Disk>⟧.failed self.old ≡ false }
        ensures costs { Costs ⟦<CallerFiles as Disk>⟧ 0 1 self.old self.new }
        ensures answers { Answers (⟦<CallerFiles as Disk>⟧.failed self.new) result }
        ensures goes { Goes (IsAsked 4 file 0 0 []) IsSameOver self.old.way self.new.way }
    {
        match &mut self.way {
            Way::Through(disk) => disk.sync(file),
            Way::Kept(disk) => disk.sync(file),
        }
    }
}
