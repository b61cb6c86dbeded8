//! The device calls on the file of pages, one in each function. Page p stands at byte p * 4,096.
ghost use Rattle.std.specs.Prelude.{◌≡◌, ◌≤◌, ℕ, false, length, IfOk, OnOk, OnErr};
ghost use Rattle.im_base_types.specs.declared.file_id.FileId.TheVariants.{Pages};
ghost use Rattle.im_theory_log.specs.Histories.{Base};
ghost use Rattle.im_theory_log.specs.Writer.{Writer};
ghost use Rattle.im_base_disk.specs.Disk.{Files, Only, Answers};
ghost use Rattle.im_base_disk.specs.Runs.{ChangesOnly, Reads, Costs};
ghost use Rattle.im_log.specs.declared.log_file.LogFile.{LogFile};
ghost use Rattle.im_log.specs.LogFile.{IsOpen};
ghost use Rattle.im_theory_page.specs.PageFile.{page_count};
ghost use Rattle.im_page_table.specs.DirtyTable.{has_room, written_in, synced_entries};
ghost use Rattle.im_page_file.specs.Stands.{Stands, MayWritePage, WriteKept, SyncKept};

use im_base_disk::{Disk, sync, write};
use im_base_types::{Fault, FileId, Lsn, PAGE_SIZE, PageNo};
use im_page_table::DirtyTable;

/// The bytes of a page.
const PAGE: u64 = PAGE_SIZE as u64;

/// How many pages the file has: bytes after the last whole one do not count. No device call. Refused `Device`.
pub fn count_pages<D: Disk>(disk: &mut D) -> Result<u64, Fault>
    requires working { D.failed disk.old ≡ false }
    ensures count { IfOk result (λ n. D.tells → n ≡ page_count (D.seen disk.old Pages)) }
    ensures reads { Reads D.Disk disk.old disk.new }
    ensures answers { Answers (D.failed disk.new) result }
{
    Ok(disk.len(FileId::Pages)? / PAGE)
}

/// Enters a page into the table as written, and writes its 4,096 bytes in place, one device call. The file has the page, or
/// grows by it. The LSN is that of the page's Image, for a page that has no entry.
///
/// It answers whether the table has the page's entry: without room for it there is none, and the file is to be synced before the
/// page is changed or written again. Refused `Device`; the table then is as after a write, since part of it may have been made.
pub fn write_page<D: Disk>(
    disk: &mut D,
    table: &mut DirtyTable,
    bytes: &[u8],
    page: PageNo,
    lsn: Lsn,
) -> Result<bool, Fault>
    requires working { D.failed disk.old ≡ false }
    requires whole { length bytes.now ≡ 4096 }
    requires place { D.tells → page ≤ page_count (D.seen disk.old Pages) }
    ensures kept { (b : Base) (base : ℕ) (s : Writer) (log : LogFile) → Stands D.Disk b base s log table.old disk.old
        → MayWritePage D.Disk b base s table.old page lsn bytes.now → WriteKept D.Disk b base s page lsn log table.old disk.old table.new disk.new result }
    ensures ready { (log : LogFile) → IsOpen D.Disk log disk.old → D.failed disk.new ≡ false → IsOpen D.Disk log disk.new }
    ensures entered { IfOk result (λ entered. entered ≡ has_room page table.old) }
    ensures table { table.new ≡ written_in page lsn table.old }
    ensures most { table.new.most ≡ table.old.most }
    ensures changes { ChangesOnly D.Disk Pages disk.old disk.new }
    ensures costs { Costs D.Disk 1 0 disk.old disk.new }
    ensures answers { Answers (D.failed disk.new) result }
{
    let entered = table.write(page, lsn);
    write(disk, FileId::Pages, page as u64 * PAGE, bytes)?;
    Ok(entered)
}

/// Syncs the file of pages, one device call, and then the table: pages that have not changed since their last write leave it.
/// Refused `Device`; the table then stays as it was.
pub fn sync_pages<D: Disk>(disk: &mut D, table: &mut DirtyTable) -> Result<(), Fault>
    requires working { D.failed disk.old ≡ false }
    ensures kept { (b : Base) (base : ℕ) (s : Writer) (log : LogFile) → Stands D.Disk b base s log table.old disk.old
        → SyncKept D.Disk b base s log disk.old table.new disk.new result }
    ensures ready { (log : LogFile) → IsOpen D.Disk log disk.old → D.failed disk.new ≡ false → IsOpen D.Disk log disk.new }
    ensures table { OnOk result (table.new ≡ synced_entries table.old) }
    ensures same { OnErr result (table.new ≡ table.old) }
    ensures most { table.new.most ≡ table.old.most }
    ensures durable { OnOk result (Only Pages (D.seen disk.new) (D.may_leave disk.new)) }
    ensures seen { D.seen disk.new ≡ D.seen disk.old }
    ensures outcomes { (c : Files) → D.may_leave disk.new c → D.may_leave disk.old c }
    ensures costs { Costs D.Disk 0 1 disk.old disk.new }
    ensures answers { Answers (D.failed disk.new) result }
{
    sync(disk, FileId::Pages)?;
    table.sync();
    Ok(())
}
