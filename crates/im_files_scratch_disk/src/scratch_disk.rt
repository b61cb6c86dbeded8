//! A disk over files that are only read: what is written to it stays in memory.
ghost use Rattle.std.specs.Prelude.{◌≡◌, [], false, IfErr};
ghost use Rattle.std.specs.Option.{ForSome};
ghost use Rattle.im_base_types.specs.declared.fault.Fault.TheVariants.{Device};
ghost use Rattle.im_files_scratch_disk.specs.OnlyRead.{IsOnlyRead};

use crate::base::Base;
use crate::block::Over;
use crate::overlaid::Overlaid;
use im_base_disk::{Count, Disk};
use im_base_types::{Fault, FileId};
use std::alloc::Global;

/// A disk over another, which is read a piece at a time and never changed; or over none, where each file begins empty.
#[derive(Drop)]
pub struct ScratchDisk<D: Disk + Drop> {
    files: Overlaid<D>,
    has_failed: bool,
    writes: Count,
    syncs: Count,
}

impl<D: Disk + Drop> ScratchDisk<D> {
    /// Nothing is written over the files of a disk, or of none.
    pub fn new(alloc: Global, base: Option<D>) -> ScratchDisk<D>
        requires { ForSome base (λ d. D.failed d ≡ false) }
        ensures base { result.files.base.disk ≡ base }
        ensures working { ⟦<ScratchDisk<D> as Disk>⟧.failed result ≡ false }
    {
        ScratchDisk {
            files: Overlaid {
                alloc,
                base: Base::new(base),
                over: Over::new(alloc),
            },
            has_failed: false,
            writes: Count::new(),
            syncs: Count::new(),
        }
    }

    /// The disk below, for reading.
    pub fn base(&self) -> &Option<D>
        ensures { result.now ≡ self.now.files.base.disk }
    {
        self.files.base.disk()
    }

    /// The disk below. What was written is gone.
    pub fn into_base(self) -> Option<D>
        ensures { result ≡ self.files.base.disk }
    {
        let ScratchDisk {
            files,
            has_failed: _has_failed,
            writes: _writes,
            syncs: _syncs,
        } = self;
        let Overlaid {
            alloc: _alloc,
            base,
            over: _over,
        } = files;
        base.into_disk()
    }

    /// Whether the last call failed, after which there is no other.
    pub fn has_failed(&self) -> bool
        ensures { result ≡ ⟦<ScratchDisk<D> as Disk>⟧.failed self.now }
    {
        self.has_failed
    }

    /// The length of a file in bytes, also after a call that failed.
    ///
    /// Refused `Device` where a call of the disk below failed, this one or an earlier one.
    pub fn length_of(&mut self, file: FileId) -> Result<u64, Fault>
        ensures only { IsOnlyRead D.Disk self.old.files.base.disk self.new.files.base.disk }
        ensures kept { self.new.files.over ≡ self.old.files.over }
        ensures failed { self.new.has_failed ≡ self.old.has_failed }
        ensures counts { (self.new.writes ≡ self.old.writes) × (self.new.syncs ≡ self.old.syncs) }
        ensures device { IfErr result (λ e. e ≡ Device) }
    {
        self.files.length(file)
    }

    /// Fills the room with the bytes from a place on, also after a call that failed; past the end they are 0.
    ///
    /// Refused `Device` as `length_of` is.
    pub fn fill_from(&mut self, file: FileId, at: u64, room: &mut [u8]) -> Result<(), Fault>
        ensures only { IsOnlyRead D.Disk self.old.files.base.disk self.new.files.base.disk }
        ensures kept { self.new.files.over ≡ self.old.files.over }
        ensures failed { self.new.has_failed ≡ self.old.has_failed }
        ensures counts { (self.new.writes ≡ self.old.writes) × (self.new.syncs ≡ self.old.syncs) }
        ensures device { IfErr result (λ e. e ≡ Device) }
    {
        self.files.read(file, at, room)
    }

    // Keeps the bytes as those from a place on.
    fn keep(&mut self, file: FileId, at: u64, bytes: &[u8]) -> Result<(), Fault>
        ensures only { IsOnlyRead D.Disk self.old.files.base.disk self.new.files.base.disk }
        ensures failed { self.new.has_failed ≡ self.old.has_failed }
        ensures counts { (self.new.writes ≡ self.old.writes) × (self.new.syncs ≡ self.old.syncs) }
    {
        self.files.write(file, at, bytes)
    }
}

impl<D: Disk + Drop> Disk for ScratchDisk<D> {
    ghost use Rattle.std.specs.Prelude.{◌≡◌, ◌+◌, ◌≤◌, [], false, length};
    ghost use Rattle.im_base_disk.specs.Disk.{Answers};
    ghost use Rattle.im_base_disk.specs.Runs.{Costs, Reads};
    ghost use Rattle.im_files_scratch_disk.specs.OnlyRead.{IsOnlyRead};

    ghost tells = { ⊥ };

    // Nothing is written to any file.
    ghost sums = { Unit {0} };

    ghost seen = { λ _ _. [] };

    ghost may_leave = { λ _ _. ⊥ };

    ghost moment = { λ _. 0 };

    ghost left_since = { λ _ _ _. ⊥ };

    ghost failed = { λ d. d.has_failed };

    ghost writes = { λ d. d.writes.count };

    ghost syncs = { λ d. d.syncs.count };

    ghost counts_now = { λ _ _ _ _ none. none };

    ghost only_now = { λ _ _ none. none };

    ghost seen_may_stay = { λ _ none. absurd none };

    fn keeps_sums(&self) -> bool {
        true
    }

    fn len(&mut self, file: FileId) -> Result<u64, Fault>
        requires { ⟦<ScratchDisk<D> as Disk>⟧.failed self.old ≡ false }
        ensures reads { Reads ⟦<ScratchDisk<D> as Disk>⟧ self.old self.new }
        ensures answers { Answers (⟦<ScratchDisk<D> as Disk>⟧.failed self.new) result }
        ensures only { IsOnlyRead D.Disk self.old.files.base.disk self.new.files.base.disk }
        ensures kept { self.new.files.over ≡ self.old.files.over }
    {
        let outcome = self.length_of(file);
        self.has_failed = outcome.is_err();
        outcome.map_err(|_| Fault::Device)
    }

    fn read(&mut self, file: FileId, at: u64, buf: &mut [u8]) -> Result<(), Fault>
        requires working { ⟦<ScratchDisk<D> as Disk>⟧.failed self.old ≡ false }
        requires within { ⟦<ScratchDisk<D> as Disk>⟧.tells → at + length buf.old ≤ length (⟦<ScratchDisk<D> as Disk>⟧.seen self.old file) }
        ensures reads { Reads ⟦<ScratchDisk<D> as Disk>⟧ self.old self.new }
        ensures answers { Answers (⟦<ScratchDisk<D> as Disk>⟧.failed self.new) result }
        ensures only { IsOnlyRead D.Disk self.old.files.base.disk self.new.files.base.disk }
        ensures kept { self.new.files.over ≡ self.old.files.over }
    {
        let outcome = self.fill_from(file, at, buf);
        self.has_failed = outcome.is_err();
        outcome.map_err(|_| Fault::Device)
    }

    fn write_at(&mut self, file: FileId, at: u64, bytes: &[u8]) -> Result<(), Fault>
        requires working { ⟦<ScratchDisk<D> as Disk>⟧.failed self.old ≡ false }
        requires place { ⟦<ScratchDisk<D> as Disk>⟧.tells → at ≤ length (⟦<ScratchDisk<D> as Disk>⟧.seen self.old file) }
        ensures costs { Costs ⟦<ScratchDisk<D> as Disk>⟧ 1 0 self.old self.new }
        ensures answers { Answers (⟦<ScratchDisk<D> as Disk>⟧.failed self.new) result }
        ensures only { IsOnlyRead D.Disk self.old.files.base.disk self.new.files.base.disk }
    {
        self.writes = self.writes.with_one_more();
        let outcome = self.keep(file, at, bytes);
        self.has_failed = outcome.is_err();
        outcome.map_err(|_| Fault::Device)
    }

    fn sync(&mut self, _file: FileId) -> Result<(), Fault>
        requires { ⟦<ScratchDisk<D> as Disk>⟧.failed self.old ≡ false }
        ensures costs { Costs ⟦<ScratchDisk<D> as Disk>⟧ 0 1 self.old self.new }
        ensures answers { Answers (⟦<ScratchDisk<D> as Disk>⟧.failed self.new) result }
        ensures kept { self.new.files ≡ self.old.files }
    {
        self.syncs = self.syncs.with_one_more();
        Ok(())
    }
}
