//! A flush: the full copies of a range of pages, a force of the log, and the writes.
ghost use Rattle.std.specs.Prelude.{◌≡◌, ◌≤◌, ◌<◌, ◌+◌, ◌-◌, ℕ, false, true, vec_capacity, is_some, OnOk};
ghost use Rattle.im_base_types.specs.declared.file_id.FileId.TheVariants.{Pages};
ghost use Rattle.im_theory_log.specs.Histories.{Base};
ghost use Rattle.im_theory_log.specs.Writer.{Writer};
ghost use Rattle.im_base_disk.specs.Disk.{Answers};
ghost use Rattle.im_base_disk.specs.Runs.{Costs};
ghost use Rattle.im_log.specs.declared.log_file.LogFile.{LogFile};
ghost use Rattle.im_log.specs.LogFile.{IsOpen};
ghost use Rattle.im_theory_page.specs.PageFile.{page_count};
ghost use Rattle.im_page_pool.specs.Pool.{is_changed};
ghost use Rattle.im_page_flush.specs.Costs.{FlushCosts, PageCosts, WriteCosts};
ghost use Rattle.im_page_table.specs.DirtyTable.{entry_in, has_room};
ghost use Rattle.im_page_file.specs.Imaging.{Imaging};
ghost use Rattle.im_page_file.specs.LogEnds.{fault_of};
ghost use Rattle.im_page_flush.specs.Writing.{lsn_for, SameHeld, IsWriting, MayCopy, MayPlaceEarly, MayWriteHere, WriteOutKept, FlushKept};

use crate::image_range::log_images;
use crate::page_range::{write_one, write_pages};
use im_base_disk::Disk;
use im_base_types::{Fault, Lsn, PageNo};
use im_log::LogFile;
use im_page::Page;
use im_page_file::{count_pages, sync_pages};
use im_page_pool::Pool;
use im_page_table::DirtyTable;

// Writes pages whose full copies are durable; where the table has no room for the entry of one, the file is synced after them.
fn write_out<D: Disk>(
    disk: &mut D,
    table: &mut DirtyTable,
    pool: &mut Pool,
    spare: &mut Page,
    lsns: &[Lsn],
    first: PageNo,
    last: PageNo,
) -> Result<(), Fault>
    requires working { D.failed disk.old ≡ false }
    requires place { D.tells → first ≤ page_count (D.seen disk.old Pages) }
    requires order { first ≤ last }
    ensures kept { (b : Base) (base : ℕ) (s : Writer) (log : LogFile) → IsWriting D.Disk b base s log table.old pool.old disk.old → s.durable ≡ s.log
        → ((q : ℕ) → first ≤ q → q ≤ last → MayWriteHere b s table.old pool.old q (lsn_for lsns.now (q - first)))
        → WriteOutKept D.Disk b base s first last disk.old log table.new pool.new disk.new result }
    ensures ready { (log : LogFile) → IsOpen D.Disk log disk.old → D.failed disk.new ≡ false → IsOpen D.Disk log disk.new }
    ensures stays { first ≡ last → is_some (entry_in table.old first) ≡ true → OnOk result (is_some (entry_in table.new first) ≡ true) }
    ensures held { OnOk result (SameHeld pool.old pool.new) }
    ensures frames { pool.new.frames ≡ pool.old.frames }
    ensures most { table.new.most ≡ table.old.most }
    ensures costs { OnOk result (WriteCosts D.Disk (last + 1 - first) ((first ≡ last) × (has_room first table.old ≡ true)) disk.old disk.new) }
    ensures answers { Answers (D.failed disk.new) result }
{
    let entered = write_pages(disk, table, pool, spare, lsns, first, last)?;
    if entered {
        return Ok(());
    }
    sync_pages(disk, table)
}

// Writes a page of which the table has its entry, and whose last change and full copy are durable: one write, and no force.
fn write_early<D: Disk>(
    disk: &mut D,
    table: &mut DirtyTable,
    pool: &mut Pool,
    spare: &mut Page,
    number: PageNo,
) -> Result<(), Fault>
    requires working { D.failed disk.old ≡ false }
    requires place { D.tells → number ≤ page_count (D.seen disk.old Pages) }
    requires entered { is_some (entry_in table.old number) ≡ true }
    ensures kept { (b : Base) (base : ℕ) (s : Writer) (log : LogFile) → IsWriting D.Disk b base s log table.old pool.old disk.old → MayPlaceEarly b s table.old pool.old number
        → WriteOutKept D.Disk b base s number number disk.old log table.new pool.new disk.new result }
    ensures ready { (log : LogFile) → IsOpen D.Disk log disk.old → D.failed disk.new ≡ false → IsOpen D.Disk log disk.new }
    ensures stays { OnOk result (is_some (entry_in table.new number) ≡ true) }
    ensures held { OnOk result (SameHeld pool.old pool.new) }
    ensures frames { pool.new.frames ≡ pool.old.frames }
    ensures most { table.new.most ≡ table.old.most }
    ensures costs { OnOk result (Costs D.Disk 1 0 disk.old disk.new) }
    ensures answers { Answers (D.failed disk.new) result }
{
    let _entered = write_one(disk, table, pool, spare, number, 0)?;
    Ok(())
}

// Flushes a range of pages: the Images of those of which the log is known to have no full copy, in rising page number, a force, and the
// pages in rising number.
fn flush_range<D: Disk>(
    disk: &mut D,
    log: &mut LogFile,
    table: &mut DirtyTable,
    pool: &mut Pool,
    spare: &mut Page,
    lsns: &mut Vec<Lsn>,
    first: PageNo,
    last: PageNo,
) -> Result<(), Fault>
    requires ready { IsOpen D.Disk log.old disk.old }
    requires working { log.old.failed ≡ false }
    requires room { 1024 ≤ vec_capacity lsns.old }
    requires place { D.tells → first ≤ page_count (D.seen disk.old Pages) }
    requires order { first ≤ last }
    ensures kept { (b : Base) (base : ℕ) (s : Writer) → IsWriting D.Disk b base s log.old table.old pool.old disk.old
        → ((q : ℕ) → first ≤ q → q ≤ last → MayCopy s pool.old q) → FlushKept D.Disk b base s first last disk.old log.new table.new pool.new disk.new result }
    ensures outcome { Imaging D.Disk log.old log.new disk.new (fault_of result) }
    ensures room { 1024 ≤ vec_capacity lsns.new }
    ensures stays { first ≡ last → is_some (entry_in table.old first) ≡ true → OnOk result (is_some (entry_in table.new first) ≡ true) }
    ensures held { OnOk result (SameHeld pool.old pool.new) }
    ensures frames { pool.new.frames ≡ pool.old.frames }
    ensures most { table.new.most ≡ table.old.most }
    ensures costs { OnOk result (FlushCosts D.Disk (last + 1 - first) ((first ≡ last) × (has_room first table.old ≡ true)) disk.old disk.new) }
{
    log_images(disk, log, table, pool, spare, lsns, first, last)?;
    write_out(disk, table, pool, spare, lsns, first, last)?;
    Ok(())
}

// Flushes a page that the file has, or that comes to its end. Where its last change and full copy are durable the log is not forced.
fn flush_in_file<D: Disk>(
    disk: &mut D,
    log: &mut LogFile,
    table: &mut DirtyTable,
    pool: &mut Pool,
    spare: &mut Page,
    lsns: &mut Vec<Lsn>,
    number: PageNo,
    durable: bool,
) -> Result<(), Fault>
    requires ready { IsOpen D.Disk log.old disk.old }
    requires working { log.old.failed ≡ false }
    requires alive { D.failed disk.old ≡ false }
    requires room { 1024 ≤ vec_capacity lsns.old }
    requires place { D.tells → number ≤ page_count (D.seen disk.old Pages) }
    requires entered { durable ≡ true → is_some (entry_in table.old number) ≡ true }
    ensures kept { (b : Base) (base : ℕ) (s : Writer) → IsWriting D.Disk b base s log.old table.old pool.old disk.old
        → (durable ≡ true → MayPlaceEarly b s table.old pool.old number) → ((q : ℕ) → number ≤ q → q ≤ number → MayCopy s pool.old q)
        → FlushKept D.Disk b base s number number disk.old log.new table.new pool.new disk.new result }
    ensures outcome { Imaging D.Disk log.old log.new disk.new (fault_of result) }
    ensures room { 1024 ≤ vec_capacity lsns.new }
    ensures stays { is_some (entry_in table.old number) ≡ true → OnOk result (is_some (entry_in table.new number) ≡ true) }
    ensures held { OnOk result (SameHeld pool.old pool.new) }
    ensures frames { pool.new.frames ≡ pool.old.frames }
    ensures most { table.new.most ≡ table.old.most }
    ensures costs { OnOk result (FlushCosts D.Disk (number + 1 - number) ((number ≡ number) × (has_room number table.old ≡ true)) disk.old disk.new) }
    ensures unforced { durable ≡ true → OnOk result (Costs D.Disk 1 0 disk.old disk.new) }
{
    if durable {
        write_early(disk, table, pool, spare, number)?;
        return Ok(());
    }
    flush_range(disk, log, table, pool, spare, lsns, number, number)
}

/// Flushes a page that was changed since it was read or written: it alone, where the file has it, and past the file's end every page
/// from the page count up to it. `durable` says of a page with an entry that its last change and full copy are durable: where the file
/// has it, the log is not forced then; `next`, nor where it comes next after the file's end.
///
/// Refused `LogFull` or `Device`.
pub fn flush_page<D: Disk>(
    disk: &mut D,
    log: &mut LogFile,
    table: &mut DirtyTable,
    pool: &mut Pool,
    spare: &mut Page,
    lsns: &mut Vec<Lsn>,
    number: PageNo,
    durable: bool,
    next: bool,
) -> Result<(), Fault>
    requires ready { IsOpen D.Disk log.old disk.old }
    requires working { log.old.failed ≡ false }
    requires room { 1024 ≤ vec_capacity lsns.old }
    requires changed { is_changed pool.old number ≡ true }
    requires entered { durable ≡ true → is_some (entry_in table.old number) ≡ true }
    ensures kept { (b : Base) (base : ℕ) (s : Writer) → IsWriting D.Disk b base s log.old table.old pool.old disk.old
        → (durable ≡ true → MayPlaceEarly b s table.old pool.old number) → FlushKept D.Disk b base s number number disk.old log.new table.new pool.new disk.new result }
    ensures outcome { Imaging D.Disk log.old log.new disk.new (fault_of result) }
    ensures room { 1024 ≤ vec_capacity lsns.new }
    ensures stays { D.tells → number ≤ page_count (D.seen disk.old Pages) → is_some (entry_in table.old number) ≡ true → OnOk result (is_some (entry_in table.new number) ≡ true) }
    ensures held { OnOk result (SameHeld pool.old pool.new) }
    ensures frames { pool.new.frames ≡ pool.old.frames }
    ensures most { table.new.most ≡ table.old.most }
    ensures costs { OnOk result (PageCosts D.Disk number (page_count (D.seen disk.old Pages)) (has_room number table.old) disk.old disk.new) }
    ensures unforced { D.tells → number < page_count (D.seen disk.old Pages) → durable ≡ true → OnOk result (Costs D.Disk 1 0 disk.old disk.new) }
{
    let count = count_pages(disk)?;
    if (number as u64) < count {
        return flush_in_file(disk, log, table, pool, spare, lsns, number, durable);
    }
    if next && number as u64 == count {
        return flush_in_file(disk, log, table, pool, spare, lsns, number, durable);
    }
    flush_range(disk, log, table, pool, spare, lsns, count as u32, number)
}
