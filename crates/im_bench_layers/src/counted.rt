//! A disk that counts its calls, and the lines that show them.

ghost use Rattle.std.specs.Prelude.{◌≡◌, false};

use anyhow::Result;
use im_base_disk::Disk;
use im_base_types::{Fault, FileId};

/// How often a disk was called, each kind by itself, and how many bytes the log has more.
#[derive(Clone, Copy, Default)]
pub struct Calls {
    pub log_writes: u64,
    pub log_bytes: u64,
    pub log_syncs: u64,
    pub page_writes: u64,
    pub page_syncs: u64,
    /// Reads of either file.
    pub reads: u64,
}

impl Calls {
    /// The calls after earlier ones.
    pub fn since(&self, earlier: Calls) -> Calls {
        Calls {
            log_writes: self.log_writes.wrapping_sub(earlier.log_writes),
            log_bytes: self.log_bytes.wrapping_sub(earlier.log_bytes),
            log_syncs: self.log_syncs.wrapping_sub(earlier.log_syncs),
            page_writes: self.page_writes.wrapping_sub(earlier.page_writes),
            page_syncs: self.page_syncs.wrapping_sub(earlier.page_syncs),
            reads: self.reads.wrapping_sub(earlier.reads),
        }
    }
}

/// A disk whose calls are counted.
#[derive(Drop)]
pub struct Counted<D: Disk> {
    disk: D,
    calls: Calls,
}

impl<D: Disk> Counted<D> {
    /// With no call so far.
    pub fn new(disk: D) -> Counted<D>
        requires { D.failed disk ≡ false }
        ensures alive { D.failed result.disk ≡ false }
        ensures made { result.disk ≡ disk }
    {
        Counted {
            disk,
            calls: Calls::default(),
        }
    }

    /// The calls so far.
    pub fn calls(&self) -> Calls {
        self.calls
    }

    /// The disk itself, to be looked at.
    pub fn disk(&self) -> &D {
        &self.disk
    }

    /// The disk itself.
    pub fn into_disk(self) -> D
        ensures { result ≡ self.disk }
    {
        let Counted {
            disk,
            calls: _calls,
        } = self;
        disk
    }
}

impl<D: Disk> Disk for Counted<D> {
    ghost tells = { D.tells };

    ghost sums = { D.sums };

    ghost seen = { λ d. D.seen d.disk };

    ghost may_leave = { λ d. D.may_leave d.disk };

    ghost moment = { λ d. D.moment d.disk };

    ghost left_since = { λ d. D.left_since d.disk };

    ghost failed = { λ d. D.failed d.disk };

    ghost writes = { λ d. D.writes d.disk };

    ghost syncs = { λ d. D.syncs d.disk };

    ghost counts_now = { λ d. D.counts_now d.disk };

    ghost only_now = { λ d. D.only_now d.disk };

    ghost seen_may_stay = { λ d. D.seen_may_stay d.disk };

    fn keeps_sums(&self) -> bool {
        self.disk.keeps_sums()
    }

    fn len(&mut self, file: FileId) -> Result<u64, Fault> {
        self.disk.len(file)
    }

    fn read(&mut self, file: FileId, at: u64, buf: &mut [u8]) -> Result<(), Fault> {
        self.calls.reads = self.calls.reads.wrapping_add(1);
        self.disk.read(file, at, buf)
    }

    fn write_at(&mut self, file: FileId, at: u64, bytes: &[u8]) -> Result<(), Fault> {
        match file {
            FileId::Log => {
                self.calls.log_writes = self.calls.log_writes.wrapping_add(1);
                self.calls.log_bytes = self.calls.log_bytes.wrapping_add(of_log(bytes));
            }
            FileId::Pages => self.calls.page_writes = self.calls.page_writes.wrapping_add(1),
            FileId::Log2 => {}
        }
        self.disk.write_at(file, at, bytes)
    }

    fn sync(&mut self, file: FileId) -> Result<(), Fault> {
        match file {
            FileId::Log => self.calls.log_syncs = self.calls.log_syncs.wrapping_add(1),
            FileId::Pages => self.calls.page_syncs = self.calls.page_syncs.wrapping_add(1),
            // nothing is written to the other log yet: its sync at the end of a store costs nothing
            FileId::Log2 => {}
        }
        self.disk.sync(file)
    }
}

// How many bytes of a write are the log's: of a batch those that its length says, with the length and the next gate, and none of
// what is written after them.
fn of_log(bytes: &[u8]) -> u64 {
    let size = bytes.len() as u64;
    match bytes {
        [a, b, c, d, ..] => size.min(u64::from(u32::from_be_bytes([*a, *b, *c, *d])) + 5),
        _ => size,
    }
}

/// The line of calls by kind, with the bytes of the log.
pub fn show_costs(rt: &HostRuntime, calls: Calls) -> Result<()> {
    println!(rt;
        "  log {} bytes {} writes {} syncs, pages {} writes {} syncs, reads {}",
        calls.log_bytes,
        calls.log_writes,
        calls.log_syncs,
        calls.page_writes,
        calls.page_syncs,
        calls.reads
    )?;
    Ok(())
}

/// The line of calls by kind.
pub fn show_calls(rt: &HostRuntime, calls: Calls) -> Result<()> {
    println!(rt;
        "  calls: log {} writes {} syncs, pages {} writes {} syncs, reads {}",
        calls.log_writes, calls.log_syncs, calls.page_writes, calls.page_syncs, calls.reads
    )?;
    Ok(())
}
