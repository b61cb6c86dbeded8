//! Whether the file of pages can be the one that the log was written beside.

ghost use Rattle.std.specs.Prelude.{◌≡◌, ◌≢◌, ◌≤◌, ◌<◌, ◌-◌, ◌/◌, ◌⊎◌, ◌↔◌, length, false, true, IfErr, OnOk, None, Some, Err};
ghost use Rattle.std.specs.Ordering.{nat_cmp};
ghost use Rattle.std.specs.BTreeMap.{get};
ghost use Rattle.im_base_types.specs.declared.fault.Fault.TheVariants.{Device, NotAStore};
ghost use Rattle.im_base_types.specs.declared.file_id.FileId.TheVariants.{Pages};
ghost use Rattle.im_theory_log.specs.Histories.{Base, History, Rises, end_of};
ghost use Rattle.im_theory_log.specs.PageCounts.{named_to};
ghost use Rattle.im_theory_log.specs.RedoPoints.{Covers, redo_point};
ghost use Rattle.im_base_disk.specs.Ends.{ReadsOr};
ghost use Rattle.im_base_disk.specs.Runs.{Reads};
ghost use Rattle.im_theory_page.specs.PageFile.{file_page, page_count};
ghost use Rattle.im_restart_analysis.specs.Changes.{AreLastBelow};
ghost use Rattle.im_restart_analysis.specs.CopyLsns.{AreCopies};
ghost use Rattle.im_restart_analysis.specs.Within.{IsWithin, SaysPages, greatest_said};
ghost use Rattle.im_restart.specs.Synced.{HasEach, IsUnder, Lacks};

use im_base_disk::Disk;
use im_base_types::{Fault, FileId, Lsn, PAGE_SIZE, PageNo};
use im_page::Page;
use im_page_writer::Synced;
use im_restart_analysis::LastChanges;
use std::cmp::max;
use std::collections::BTreeMap;

/// The bytes of a page.
const PAGE: u64 = PAGE_SIZE as u64;

/// The page count of a first log.
const FIRST_COUNT: PageNo = 2;

// Whether a file of so many pages has this one, or may lack it, since it has a noted copy.
fn is_there(page: PageNo, count: u64, copies: &BTreeMap<PageNo, Lsn>) -> bool
    ensures there { result ≡ true → get nat_cmp copies.now page ≡ None → page < count }
    ensures past { result ≡ false → count ≤ page }
    ensures none { result ≡ false → get nat_cmp copies.now page ≡ None }
{
    match copies.get(&page) {
        Some(_) => true,
        None => u64::from(page) < count,
    }
}

// Whether it has each page that it was synced with; one with a noted copy it may lack.
fn has_each(count: u64, lsns: &BTreeMap<PageNo, Lsn>, copies: &BTreeMap<PageNo, Lsn>) -> bool
    ensures each { result ≡ true → HasEach count lsns.now copies.now }
    ensures lacks { result ≡ false → Lacks count lsns.now copies.now }
{
    for (page, _) in lsns {
        if !is_there(*page, count, copies) {
            return false;
        }
    }
    true
}

// Tests the last page of a file of so many bytes, by one read: it was written under a log that ends here. Refused `NotAStore` where it
// was not, or its bytes are no page; `Device`.
fn check_last<D: Disk>(disk: &mut D, len: u64, end: Lsn) -> Result<(), Fault>
    requires working { D.failed disk.old ≡ false }
    requires some { 1 ≤ len / 4096 }
    requires within { D.tells → len ≡ length (D.seen disk.old Pages) }
    ensures reads { Reads D.Disk disk.old disk.new }
    ensures causes { IfErr result (λ e. (e ≡ Device) ⊎ (e ≡ NotAStore)) }
    ensures device { result ≡ Err Device ↔ (D.failed disk.new ≡ true) }
    ensures under { OnOk result (D.tells → IsUnder end (file_page (D.seen disk.old Pages) (len / 4096 - 1))) }
    ensures sound { D.tells → IsUnder end (file_page (D.seen disk.old Pages) (len / 4096 - 1)) → IfErr result (λ e. e ≢ NotAStore) }
{
    let mut page = Page::initial(0);
    page.read_from(disk, (len / PAGE - 1) * PAGE)?;
    if page.lsn() < end {
        Ok(())
    } else {
        Err(Fault::NotAStore)
    }
}

// Tests page 0 of a file of so many bytes, by one read: it says so many pages. Refused `NotAStore` where it does not, or its bytes are no page; `Device`.
fn check_first<D: Disk>(disk: &mut D, len: u64, named: u64) -> Result<(), Fault>
    requires working { D.failed disk.old ≡ false }
    requires within { D.tells → len ≡ length (D.seen disk.old Pages) }
    requires more { 2 < named }
    ensures reads { Reads D.Disk disk.old disk.new }
    ensures causes { IfErr result (λ e. (e ≡ Device) ⊎ (e ≡ NotAStore)) }
    ensures device { result ≡ Err Device ↔ (D.failed disk.new ≡ true) }
    ensures says { OnOk result (D.tells → SaysPages named (file_page (D.seen disk.old Pages) 0)) }
    ensures sound { D.tells → SaysPages named (file_page (D.seen disk.old Pages) 0) → IfErr result (λ e. e ≢ NotAStore) }
{
    if len < PAGE {
        return Err(Fault::NotAStore);
    }
    let mut page = Page::initial(0);
    page.read_from(disk, 0)?;
    if named <= u64::from(page.leftmost()) {
        Ok(())
    } else {
        Err(Fault::NotAStore)
    }
}

// Tests that the pages that records name are below a page count that the log says, or else page 0 of a file of so many bytes, which is
// then read. Refused `NotAStore`, `Device`.
fn check_named<D: Disk>(disk: &mut D, len: u64, last: &LastChanges) -> Result<(), Fault>
    requires working { D.failed disk.old ≡ false }
    requires within { D.tells → len ≡ length (D.seen disk.old Pages) }
    ensures reads { Reads D.Disk disk.old disk.new }
    ensures causes { IfErr result (λ e. (e ≡ Device) ⊎ (e ≡ NotAStore)) }
    ensures device { result ≡ Err Device ↔ (D.failed disk.new ≡ true) }
    ensures within { OnOk result (D.tells → IsWithin last.now.named last.now.said (file_page (D.seen disk.old Pages) 0)) }
    ensures sound { D.tells → IsWithin last.now.named last.now.said (file_page (D.seen disk.old Pages) 0) → IfErr result (λ e. e ≢ NotAStore) }
{
    if last.named <= u64::from(max(FIRST_COUNT, last.said)) {
        return Ok(());
    }
    check_first(disk, len, last.named)
}

/// Tests the file of pages beside a log that ends here, by one length call: it has each page that it was synced with, but for those that have
/// a noted copy; where the log says no page count above the pages that its records name, page 0 says one, by one read; and where the file has more pages than
/// the records name, the last one was written under the log, by one read. Refused `NotAStore`, `Device`.
pub(crate) fn check_file<D: Disk>(
    disk: &mut D,
    last: &LastChanges,
    copies: &BTreeMap<PageNo, Lsn>,
    end: Lsn,
) -> Result<(), Fault>
    requires working { D.failed disk.old ≡ false }
    ensures outcome { ReadsOr D.Disk (λ e. e ≡ NotAStore) disk.old disk.new result }
    ensures each { OnOk result (D.tells → HasEach (page_count (D.seen disk.old Pages)) last.now.lsns copies.now) }
    ensures under { OnOk result (D.tells → last.now.named < page_count (D.seen disk.old Pages) → IsUnder end (file_page (D.seen disk.old Pages) (page_count (D.seen disk.old Pages) - 1))) }
    ensures within { OnOk result (D.tells → IsWithin last.now.named last.now.said (file_page (D.seen disk.old Pages) 0)) }
    ensures sound { (b : Base) (all : History) → D.tells → Rises b all → end_of b all < end → Covers b all (file_page (D.seen disk.old Pages)) → AreLastBelow all (redo_point all) last.now
        → AreCopies (redo_point all) copies.now all → IsWithin (named_to all) (greatest_said all) (file_page (D.seen disk.old Pages) 0) → IfErr result (λ e. e ≢ NotAStore) }
{
    let len = disk.len(FileId::Pages)?;
    if !has_each(len / PAGE, &last.lsns, copies) {
        return Err(Fault::NotAStore);
    }
    check_named(disk, len, last)?;
    if len / PAGE <= last.named {
        return Ok(());
    }
    check_last(disk, len, end)
}

/// What a writer of pages is to expect of the file.
pub(crate) fn synced_of(last: LastChanges) -> Synced
    ensures lsns { result.lsns ≡ last.lsns }
    ensures count { result.count ≡ last.count }
{
    Synced {
        lsns: last.lsns,
        count: last.count,
    }
}
