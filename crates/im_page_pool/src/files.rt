//! Pages in the file of pages: page p stands at byte p * 4,096.

ghost use Rattle.std.specs.Prelude.{◌≡◌, ◌↔◌, ◌⊎◌, ◌≤◌, true, false, Some, None, OnOk, IfErr, Err};
ghost use Rattle.im_base_types.specs.declared.fault.Fault.TheVariants.{Device, NotAStore};
ghost use Rattle.im_base_types.specs.declared.file_id.FileId.TheVariants.{Pages};
ghost use Rattle.im_base_disk.specs.Disk.{Stepped, Follows, InFile, Answers};
ghost use Rattle.im_base_disk.specs.Runs.{LeavesOnly, ChangesOnly, Reads, Costs};
ghost use Rattle.im_theory_page.specs.PageFile.{page_count, file_page};
ghost use Rattle.im_page_pool.specs.Writes.{WritesPage, TearsPage};

use im_base_disk::{Disk, write};
use im_base_types::{Fault, FileId, PAGE_SIZE, PageNo};
use im_page::Page;

const PAGE: u64 = PAGE_SIZE as u64;

/// Reads the page of a number. Past the last whole page of the file it is the initial one. Refused `Device` or, exactly where its bytes
/// are no page, `NotAStore`; what was read into is then some page.
pub(crate) fn read_page<D: Disk>(disk: &mut D, p: PageNo, page: &mut Page) -> Result<(), Fault>
    requires working { D.failed disk.old ≡ false }
    ensures page { OnOk result (D.tells → file_page (D.seen disk.old Pages) p ≡ Some page.new) }
    ensures none { result ≡ Err NotAStore → D.tells → file_page (D.seen disk.old Pages) p ≡ None }
    ensures causes { IfErr result (λ e. (e ≡ Device) ⊎ (e ≡ NotAStore)) }
    ensures device { result ≡ Err Device ↔ (D.failed disk.new ≡ true) }
    ensures reads { Reads D.Disk disk.old disk.new }
{
    let len = disk.len(FileId::Pages)?;
    if len / PAGE <= p as u64 {
        page.reset(p);
        return Ok(());
    }
    page.read_from(disk, p as u64 * PAGE)
}

/// Writes a page at its place, one device call. Its number is at most the file's page count, so that no page is left
/// out. A stop within leaves any bytes in the page's range, and each other page as it was. Refused `Device`.
pub fn write_page<D: Disk>(disk: &mut D, p: PageNo, page: &Page) -> Result<(), Fault>
    requires working { D.failed disk.old ≡ false }
    requires place { D.tells → p ≤ page_count (D.seen disk.old Pages) }
    ensures written { OnOk result (D.tells → WritesPage p page.now (D.seen disk.old Pages) (D.seen disk.new Pages)) }
    ensures crash { Follows (InFile Pages (TearsPage p)) (D.may_leave disk.old) (D.may_leave disk.new) }
    ensures changes { ChangesOnly D.Disk Pages disk.old disk.new }
    ensures any_moment { LeavesOnly D.Disk disk.old disk.new (Stepped (InFile Pages (TearsPage p)) (D.may_leave disk.old)) }
    ensures costs { Costs D.Disk 1 0 disk.old disk.new }
    ensures answers { Answers (D.failed disk.new) result }
{
    write(disk, FileId::Pages, p as u64 * PAGE, page.bytes())
}
