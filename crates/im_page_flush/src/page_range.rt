//! The page writes of a flush, in rising page number.
ghost use Rattle.std.specs.Prelude.{◌≡◌, ◌≤◌, ◌<◌, ◌+◌, ◌-◌, ◌↔◌, ℕ, None, false, true, IfOk, OnOk};
ghost use Rattle.im_base_types.specs.declared.file_id.FileId.TheVariants.{Pages};
ghost use Rattle.im_theory_log.specs.Histories.{Base};
ghost use Rattle.im_theory_log.specs.Writer.{Writer};
ghost use Rattle.im_base_disk.specs.Disk.{Stepped, Follows, InFile, Answers};
ghost use Rattle.im_base_disk.specs.Runs.{ChangesOnly, LeavesOnly, Costs};
ghost use Rattle.im_log.specs.declared.log_file.LogFile.{LogFile};
ghost use Rattle.im_theory_page.specs.PageFile.{page_count};
ghost use Rattle.im_page_pool.specs.Writes.{WritesPage, TearsPage};
ghost use Rattle.im_page_table.specs.DirtyTable.{has_room, written_in};
ghost use Rattle.im_page_file.specs.Stands.{Stands};
ghost use Rattle.im_page_flush.specs.Writing.{lsn_for, pool_page, SameHeld, Unmarks, IsPooled, IsWriting, MayPlace, MayWriteHere, PlacedKept, WritesKept};

use crate::image_range::lsn_of;
use im_base_disk::Disk;
use im_base_types::{Fault, Lsn, PageNo};
use im_page::Page;
use im_page_pool::{Pool, write_page};
use im_page_table::DirtyTable;

// Writes a page in place, one device call: as the pool has it, which then counts it as unchanged, and one that the pool doesn't hold
// as the initial page.
fn write_in_place<D: Disk>(
    disk: &mut D,
    pool: &mut Pool,
    spare: &mut Page,
    number: PageNo,
) -> Result<(), Fault>
    requires working { D.failed disk.old ≡ false }
    requires place { D.tells → number ≤ page_count (D.seen disk.old Pages) }
    ensures written { OnOk result (D.tells → WritesPage number (pool_page pool.old number) (D.seen disk.old Pages) (D.seen disk.new Pages)) }
    ensures pool { OnOk result (Unmarks number pool.old pool.new) }
    ensures frames { pool.new.frames ≡ pool.old.frames }
    ensures crash { Follows (InFile Pages (TearsPage number)) (D.may_leave disk.old) (D.may_leave disk.new) }
    ensures changes { ChangesOnly D.Disk Pages disk.old disk.new }
    ensures any_moment { LeavesOnly D.Disk disk.old disk.new (Stepped (InFile Pages (TearsPage number)) (D.may_leave disk.old)) }
    ensures costs { Costs D.Disk 1 0 disk.old disk.new }
    ensures answers { Answers (D.failed disk.new) result }
{
    match pool.find(number) {
        Some(frame) => pool.write_back(disk, frame),
        None => {
            spare.reset(number);
            write_page(disk, number, spare)
        }
    }
}

/// Enters a page into the table as written, and writes it in place. It answers whether the table has its entry.
///
/// Refused `Device`.
pub(crate) fn write_one<D: Disk>(
    disk: &mut D,
    table: &mut DirtyTable,
    pool: &mut Pool,
    spare: &mut Page,
    number: PageNo,
    lsn: Lsn,
) -> Result<bool, Fault>
    requires working { D.failed disk.old ≡ false }
    requires place { D.tells → number ≤ page_count (D.seen disk.old Pages) }
    ensures kept { (b : Base) (base : ℕ) (s : Writer) (log : LogFile) → Stands D.Disk b base s log table.old disk.old → IsPooled pool.old s.pages
        → MayPlace b s table.old pool.old number lsn → PlacedKept D.Disk b base s number lsn disk.old log table.old table.new pool.new disk.new result }
    ensures table { table.new ≡ written_in number lsn table.old }
    ensures entered { IfOk result (λ entered. entered ≡ has_room number table.old) }
    ensures pool { OnOk result (Unmarks number pool.old pool.new) }
    ensures frames { pool.new.frames ≡ pool.old.frames }
    ensures most { table.new.most ≡ table.old.most }
    ensures count { OnOk result (D.tells → number + 1 ≤ page_count (D.seen disk.new Pages)) }
    ensures changes { ChangesOnly D.Disk Pages disk.old disk.new }
    ensures costs { Costs D.Disk 1 0 disk.old disk.new }
    ensures answers { Answers (D.failed disk.new) result }
{
    let entered = table.write(number, lsn);
    write_in_place(disk, pool, spare, number)?;
    Ok(entered)
}

// Whether this page and all before it have their entries.
fn both(before: bool, has: bool) -> bool
    ensures both { (result ≡ true) ↔ ((before ≡ true) × (has ≡ true)) }
    ensures first { before ≡ true → result ≡ has }
{
    before && has
}

/// Writes a range of pages in place, in rising page number, one device call each, once their full copies are durable. It answers whether
/// the table has the entry of each: without room for one there is none, and the file is to be synced.
///
/// Refused `Device`.
pub(crate) fn write_pages<D: Disk>(
    disk: &mut D,
    table: &mut DirtyTable,
    pool: &mut Pool,
    spare: &mut Page,
    lsns: &[Lsn],
    first: PageNo,
    last: PageNo,
) -> Result<bool, Fault>
    requires working { D.failed disk.old ≡ false }
    requires place { D.tells → first ≤ page_count (D.seen disk.old Pages) }
    requires order { first ≤ last }
    ensures kept { (b : Base) (base : ℕ) (s : Writer) (log : LogFile) → IsWriting D.Disk b base s log table.old pool.old disk.old → s.durable ≡ s.log
        → ((q : ℕ) → first ≤ q → q ≤ last → MayWriteHere b s table.old pool.old q (lsn_for lsns.now (q - first)))
        → WritesKept D.Disk b base s first last lsns.now disk.old log table.new pool.new disk.new result }
    ensures one { first ≡ last → IfOk result (λ entered. (table.new ≡ written_in first (lsn_for lsns.now 0) table.old) × (entered ≡ has_room first table.old)) }
    ensures held { OnOk result (SameHeld pool.old pool.new) }
    ensures frames { pool.new.frames ≡ pool.old.frames }
    ensures most { table.new.most ≡ table.old.most }
    ensures changes { ChangesOnly D.Disk Pages disk.old disk.new }
    ensures costs { OnOk result (Costs D.Disk (last + 1 - first) 0 disk.old disk.new) }
    ensures answers { Answers (D.failed disk.new) result }
{
    let mut entered = true;
    for number in first as u64..last as u64 + 1 {
        let lsn = lsn_of(lsns, number - first as u64);
        let has = write_one(disk, table, pool, spare, number as u32, lsn)?;
        entered = both(entered, has);
    }
    Ok(entered)
}
