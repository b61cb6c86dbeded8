//! A disk in memory that fails past a number of calls, or where a file grows past a bound.

ghost use Rattle.std.specs.Prelude.{◌≡◌, [], false};

use crate::memory::{put, take};
use im_base_disk::{Count, Disk};
use im_base_types::{Fault, FileId};
use std::alloc::{AllocError, Global};

/// The bytes of a store.
#[derive(Drop)]
pub struct Files {
    pub log: Vec<u8>,
    pub pages: Vec<u8>,
    /// The other log.
    pub log2: Vec<u8>,
}

impl Files {
    /// The length of a file, in bytes.
    pub fn size(&self, file: FileId) -> usize {
        match file {
            FileId::Log => self.log.len(),
            FileId::Pages => self.pages.len(),
            FileId::Log2 => self.log2.len(),
        }
    }

    /// The same bytes once more.
    pub fn copy(&self, alloc: Global) -> Result<Files, AllocError> {
        let log = Vec::from_slice(alloc, &self.log)?;
        let pages = Vec::from_slice(alloc, &self.pages)?;
        let log2 = Vec::from_slice(alloc, &self.log2)?;
        Ok(Files { log, pages, log2 })
    }

    /// Changes one byte of a file.
    pub fn damage(&mut self, file: FileId, at: usize) {
        match file {
            FileId::Log => change(&mut self.log, at),
            FileId::Pages => change(&mut self.pages, at),
            FileId::Log2 => change(&mut self.log2, at),
        }
    }
}

// Changes the lowest bit of a byte at an even place, and the highest at an odd one.
fn change(bytes: &mut Vec<u8>, at: usize) {
    if at < bytes.len() {
        let bit = if at % 2 == 0 { 0x01 } else { 0x80 };
        bytes[at] = bytes[at] ^ bit;
    }
}

/// How many calls a life and its opening have at most.
const MOST_CALLS: u64 = 20_000;

/// How many bytes a file has at most.
const MOST_BYTES: usize = 2_000_000;

/// Three files in memory. Past either bound a call fails. Nothing is told of their bytes.
#[derive(Drop)]
pub struct BoundedDisk {
    files: Files,
    calls: u64,
    has_failed: bool,
    writes: Count,
    syncs: Count,
}

impl BoundedDisk {
    /// These files at the beginning of a life.
    pub fn new(files: Files) -> BoundedDisk
        ensures { ⟦<BoundedDisk as Disk>⟧.failed result ≡ false }
    {
        BoundedDisk {
            files,
            calls: 0,
            has_failed: false,
            writes: Count::new(),
            syncs: Count::new(),
        }
    }

    /// Whether a call failed.
    pub fn is_at_bound(&self) -> bool {
        self.has_failed
    }

    /// The files as they are.
    pub fn into_files(self) -> Files {
        self.files
    }

    fn file(&self, file: FileId) -> &Vec<u8> {
        match file {
            FileId::Log => &self.files.log,
            FileId::Pages => &self.files.pages,
            FileId::Log2 => &self.files.log2,
        }
    }
}

impl Disk for BoundedDisk {
    ghost tells = { ⊥ };

    ghost sums = { Unit {0} };

    ghost seen = { λ _ _. [] };

    ghost may_leave = { λ _ _. ⊥ };

    ghost moment = { λ _. 0 };

    ghost left_since = { λ _ _ _. ⊥ };

    ghost failed = { λ d. d.has_failed };

    ghost writes = { λ d. d.writes.count };

    ghost syncs = { λ d. d.syncs.count };

    ghost counts_now = { λ _ _ _ _ none. none };

    ghost only_now = { λ _ _ none. none };

    ghost seen_may_stay = { λ _ none. absurd none };

    fn keeps_sums(&self) -> bool {
        true
    }

    fn len(&mut self, file: FileId) -> Result<u64, Fault> {
        Ok(self.file(file).len() as u64)
    }

    fn read(&mut self, file: FileId, at: u64, buf: &mut [u8]) -> Result<(), Fault> {
        self.calls = self.calls.saturating_add(1);
        if self.calls > MOST_CALLS {
            self.has_failed = true;
            return Err(Fault::Device);
        }
        take(self.file(file), at, buf);
        Ok(())
    }

    fn write_at(&mut self, file: FileId, at: u64, bytes: &[u8]) -> Result<(), Fault> {
        self.writes = self.writes.with_one_more();
        self.calls = self.calls.saturating_add(1);
        if self.calls > MOST_CALLS {
            self.has_failed = true;
            return Err(Fault::Device);
        }
        let outcome = match file {
            FileId::Log => put(&mut self.files.log, at, bytes),
            FileId::Pages => put(&mut self.files.pages, at, bytes),
            FileId::Log2 => put(&mut self.files.log2, at, bytes),
        };
        self.has_failed = outcome.is_err() || self.file(file).len() > MOST_BYTES;
        if self.has_failed {
            Err(Fault::Device)
        } else {
            Ok(())
        }
    }

    fn sync(&mut self, _file: FileId) -> Result<(), Fault> {
        self.syncs = self.syncs.with_one_more();
        Ok(())
    }
}
