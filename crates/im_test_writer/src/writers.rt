//! Disks, writers of pages and records, as tests begin with them.
ghost use Rattle.std.specs.Prelude.{◌≡◌, ◌≤◌, false, length, IfOk};
ghost use Rattle.im_log_record.specs.Entry.{view};
ghost use Rattle.im_log_record.specs.Spelling.{IsEntry};
ghost use Rattle.im_page_writer.specs.PageWriter.{IsReadyWriter};

use im_base_disk::Disk;
use im_base_model_disk::ModelDisk;
use im_base_types::{Fault, FileId, Lsn, PageNo};
use im_log::open_or_create;
use im_log_record::Record;
use im_page_writer::PageWriter;
use std::alloc::Global;

/// A disk whose two files are empty.
pub fn new_disk(alloc: Global) -> ModelDisk
    ensures working { ⟦<ModelDisk as Disk>⟧.failed result ≡ false }
{
    ModelDisk::new(Vec::new(alloc), Vec::new(alloc))
}

/// The device calls since there were so many.
pub fn since(disk: &ModelDisk, calls: u64) -> u64 {
    disk.calls().wrapping_sub(calls)
}

/// A writer with 8 frames over the log that the disk has, or over a new one.
pub fn open<D: Disk>(alloc: Global, disk: &mut D) -> Result<PageWriter, Fault>
    requires working { D.failed disk.old ≡ false }
    ensures ready { IfOk result (λ w. IsReadyWriter D.Disk w disk.new) }
{
    open_with(alloc, disk, 1)
}

/// The same with a log's buffer of so many batches.
pub fn open_with<D: Disk>(alloc: Global, disk: &mut D, batches: usize) -> Result<PageWriter, Fault>
    requires working { D.failed disk.old ≡ false }
    requires few { (1 ≤ batches) × (batches ≤ 64) }
    ensures ready { IfOk result (λ w. IsReadyWriter D.Disk w disk.new) }
{
    disk.sync(FileId::Log)?;
    let log = open_or_create(alloc, disk, batches)?;
    PageWriter::new(alloc, log, 8)
}

/// The same over a new log, and over a file of pages that begins with these bytes.
pub fn open_over<D: Disk>(
    alloc: Global,
    disk: &mut D,
    batches: usize,
    pages: &[u8],
) -> Result<PageWriter, Fault>
    requires working { D.failed disk.old ≡ false }
    requires few { (1 ≤ batches) × (batches ≤ 64) }
    ensures ready { IfOk result (λ w. IsReadyWriter D.Disk w disk.new) }
{
    disk.sync(FileId::Log)?;
    open_or_create(alloc, disk, 1)?;
    disk.write_at(FileId::Pages, 0, pages)?;
    open_with(alloc, disk, batches)
}

/// One with so many frames.
pub fn open_large<D: Disk>(alloc: Global, disk: &mut D, frames: usize) -> Result<PageWriter, Fault>
    requires working { D.failed disk.old ≡ false }
    requires least { 8 ≤ frames }
    requires most { frames ≤ 262144 }
    ensures ready { IfOk result (λ w. IsReadyWriter D.Disk w disk.new) }
{
    disk.sync(FileId::Log)?;
    let log = open_or_create(alloc, disk, 1)?;
    PageWriter::new(alloc, log, frames)
}

/// Ends both. A test hands them in: what it owns takes a proof of its own at each of its exits.
pub fn end(_writer: PageWriter, _disk: ModelDisk) {}

/// An insert of a key into page 1.
pub fn insert(key: &[u8]) -> Record<'_>
    requires keyed { 1 ≤ length key.now }
    requires short { length key.now ≤ 255 }
    ensures { IsEntry (view result) }
{
    Record::InsertKey {
        transaction: 1,
        prev: 0,
        page: 1,
        key,
        rid: 7,
    }
}

/// Logs an insert of a key into page 1.
pub fn log_insert<D: Disk>(writer: &mut PageWriter, disk: &mut D, key: &[u8]) -> Result<Lsn, Fault>
    requires ready { IsReadyWriter D.Disk writer.old disk.old }
    requires keyed { 1 ≤ length key.now }
    requires short { length key.now ≤ 255 }
    ensures ready { IsReadyWriter D.Disk writer.new disk.new }
{
    writer.log_change(disk, &insert(key))
}

/// The LSN of a page, and how many entries it has.
pub fn got<D: Disk>(
    writer: &mut PageWriter,
    disk: &mut D,
    page: PageNo,
) -> Result<(Lsn, usize), Fault>
    requires ready { IsReadyWriter D.Disk writer.old disk.old }
    ensures ready { IsReadyWriter D.Disk writer.new disk.new }
{
    let frame = writer.get(disk, page)?;
    let page = writer.page(frame);
    Ok((page.lsn(), page.len()))
}
