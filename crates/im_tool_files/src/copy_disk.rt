//! The files of a copy of a store.
ghost use Rattle.std.specs.Prelude.{◌≡◌, []};

use crate::telling::tell;
use im_base_disk::Disk;
use im_base_types::{Fault, FileId};
use im_files_disk::FileDisk;

/// The files of a copy. What fails of them is told on standard error, since who makes the copy lets them go then.
#[derive(Drop)]
pub struct CopyDisk<'a> {
    files: FileDisk,
    dir: String,
    rt: &'a HostRuntime,
}

impl<'a> CopyDisk<'a> {
    /// The files of a copy in the folder of that name.
    pub fn new(files: FileDisk, dir: String, rt: &'a HostRuntime) -> CopyDisk<'a>
        ensures { ⟦<CopyDisk<'a> as Disk>⟧.failed result ≡ ⟦<FileDisk as Disk>⟧.failed files }
    {
        CopyDisk { files, dir, rt }
    }

    /// The files.
    pub fn into_files(self) -> FileDisk
        ensures { result ≡ self.entry.files }
    {
        let CopyDisk {
            files,
            dir: _dir,
            rt: _rt,
        } = self;
        files
    }

    // Tells what failed, where something did.
    fn tell<T>(&self, outcome: &Result<T, Fault>) {
        if outcome.is_ok() {
            return;
        }
        if let Some(error) = self.files.last_error() {
            tell(self.rt, self.dir.as_str(), error);
        }
    }
}

impl Disk for CopyDisk<'_> {
    ghost tells = { ⊥ };

    ghost sums = { ⟦<FileDisk as Disk>⟧.sums };

    ghost seen = { λ _ _. [] };

    ghost may_leave = { λ _ _. ⊥ };

    ghost moment = { λ _. 0 };

    ghost left_since = { λ _ _ _. ⊥ };

    ghost failed = { λ d. ⟦<FileDisk as Disk>⟧.failed d.files };

    ghost writes = { λ d. ⟦<FileDisk as Disk>⟧.writes d.files };

    ghost syncs = { λ d. ⟦<FileDisk as Disk>⟧.syncs d.files };

    ghost counts_now = { λ _ _ _ _ none. none };

    ghost only_now = { λ _ _ none. none };

    ghost seen_may_stay = { λ _ none. absurd none };

    fn keeps_sums(&self) -> bool {
        self.files.keeps_sums()
    }

    fn len(&mut self, file: FileId) -> Result<u64, Fault> {
        let outcome = self.files.len(file);
        self.tell(&outcome);
        outcome
    }

    fn read(&mut self, file: FileId, at: u64, buf: &mut [u8]) -> Result<(), Fault> {
        let outcome = self.files.read(file, at, buf);
        self.tell(&outcome);
        outcome
    }

    fn write_at(&mut self, file: FileId, at: u64, bytes: &[u8]) -> Result<(), Fault> {
        let outcome = self.files.write_at(file, at, bytes);
        self.tell(&outcome);
        outcome
    }

    fn sync(&mut self, file: FileId) -> Result<(), Fault> {
        let outcome = self.files.sync(file);
        self.tell(&outcome);
        outcome
    }
}
