//! A disk in memory.

ghost use Rattle.std.specs.Prelude.{◌≡◌, [], false};

use im_base_disk::{Count, Disk};
use im_base_types::{Fault, FileId};
use std::alloc::{AllocError, Global};

/// Three files in memory, whose calls never fail but for want of memory. Nothing is told of their bytes.
#[derive(Drop)]
pub struct MemoryDisk {
    log: Vec<u8>,
    pages: Vec<u8>,
    log2: Vec<u8>,
    has_failed: bool,
    writes: Count,
    syncs: Count,
}

impl MemoryDisk {
    /// Three empty files.
    pub fn new(alloc: Global) -> MemoryDisk
        ensures { ⟦<MemoryDisk as Disk>⟧.failed result ≡ false }
    {
        MemoryDisk {
            log: Vec::new(alloc),
            pages: Vec::new(alloc),
            log2: Vec::new(alloc),
            has_failed: false,
            writes: Count::new(),
            syncs: Count::new(),
        }
    }

    /// The same files at the beginning of another life: all that was written is there.
    pub fn at_rest(self) -> MemoryDisk
        ensures { ⟦<MemoryDisk as Disk>⟧.failed result ≡ false }
    {
        MemoryDisk {
            log: self.log,
            pages: self.pages,
            log2: self.log2,
            has_failed: false,
            writes: Count::new(),
            syncs: Count::new(),
        }
    }

    /// The length of a file, in bytes.
    pub fn size(&self, file: FileId) -> usize {
        self.file(file).len()
    }

    fn file(&self, file: FileId) -> &Vec<u8> {
        match file {
            FileId::Log => &self.log,
            FileId::Pages => &self.pages,
            FileId::Log2 => &self.log2,
        }
    }
}

/// Puts bytes into a file, over what is there and past its end. A place past the end is taken for the end.
pub fn put(file: &mut Vec<u8>, at: u64, bytes: &[u8]) -> Result<(), AllocError> {
    let at = (at as usize).min(file.len());
    let over = bytes.len().min(file.len() - at);
    file[at..at + over].copy_from_slice(&bytes[..over]);
    file.extend_from_slice(&bytes[over..])?;
    Ok(())
}

/// Takes bytes out of a file. Where the file has fewer, the rest of the buffer stays as it is.
pub fn take(file: &[u8], at: u64, buf: &mut [u8]) {
    let at = (at as usize).min(file.len());
    let size = buf.len().min(file.len() - at);
    buf[..size].copy_from_slice(&file[at..at + size]);
}

impl Disk for MemoryDisk {
    ghost tells = { ⊥ };

    ghost sums = { Unit {0} };

    ghost seen = { λ _ _. [] };

    ghost may_leave = { λ _ _. ⊥ };

    ghost moment = { λ _. 0 };

    ghost left_since = { λ _ _ _. ⊥ };

    ghost failed = { λ d. d.has_failed };

    ghost writes = { λ d. d.writes.count };

    ghost syncs = { λ d. d.syncs.count };

    ghost counts_now = { λ _ _ _ _ none. none };

    ghost only_now = { λ _ _ none. none };

    ghost seen_may_stay = { λ _ none. absurd none };

    fn keeps_sums(&self) -> bool {
        true
    }

    fn len(&mut self, file: FileId) -> Result<u64, Fault> {
        Ok(self.file(file).len() as u64)
    }

    fn read(&mut self, file: FileId, at: u64, buf: &mut [u8]) -> Result<(), Fault> {
        take(self.file(file), at, buf);
        Ok(())
    }

    fn write_at(&mut self, file: FileId, at: u64, bytes: &[u8]) -> Result<(), Fault> {
        self.writes = self.writes.with_one_more();
        let outcome = match file {
            FileId::Log => put(&mut self.log, at, bytes),
            FileId::Pages => put(&mut self.pages, at, bytes),
            FileId::Log2 => put(&mut self.log2, at, bytes),
        };
        self.has_failed = outcome.is_err();
        outcome.map_err(|_| Fault::Device)
    }

    fn sync(&mut self, _file: FileId) -> Result<(), Fault> {
        self.syncs = self.syncs.with_one_more();
        Ok(())
    }
}
