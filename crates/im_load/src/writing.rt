//! How a page comes to its place in the file.

ghost use Rattle.std.specs.Prelude.{◌≡◌, false, OnOk, length};
ghost use Rattle.im_base_types.specs.declared.file_id.FileId.TheVariants.{Pages};
ghost use Rattle.im_base_disk.specs.Disk.{Answers};
ghost use Rattle.im_load.specs.Files.{Fills, WritesPageAt};
ghost use Rattle.im_load.specs.Goings.{WritesPages};

use im_base_disk::{Disk, write};
use im_base_types::{Fault, FileId, PAGE_SIZE, PageNo};
use im_page::Page;

static BLANK: [u8; PAGE_SIZE] = [0; PAGE_SIZE];

// A page of zeros.
fn blank() -> &'static [u8]
    ensures { length result.now ≡ 4096 }
{
    &BLANK
}

/// Writes a page at its place. Where the file of whole pages ends before that, pages of zeros come first. Refused `Device`.
pub(crate) fn write_page<D: Disk>(disk: &mut D, number: PageNo, page: &Page) -> Result<(), Fault>
    requires working { D.failed disk.old ≡ false }
    ensures written { OnOk result (D.tells → WritesPageAt (D.seen disk.old Pages) (D.seen disk.new Pages) number page.now) }
    ensures run { WritesPages D.Disk disk.old disk.new }
    ensures answers { Answers (D.failed disk.new) result }
{
    fill(disk, number)?;
    let bytes = page.bytes();
    write(disk, FileId::Pages, number as u64 * PAGE_SIZE as u64, bytes)?;
    Ok(())
}

// Makes the file reach up to this page, by pages of zeros, where it is shorter.
fn fill<D: Disk>(disk: &mut D, number: PageNo) -> Result<(), Fault>
    requires working { D.failed disk.old ≡ false }
    ensures filled { OnOk result (D.tells → Fills (D.seen disk.old Pages) (D.seen disk.new Pages) number) }
    ensures run { WritesPages D.Disk disk.old disk.new }
    ensures answers { Answers (D.failed disk.new) result }
{
    let size = PAGE_SIZE as u64;
    let pages = disk.len(FileId::Pages)? / size;
    let number = number as u64;
    let end = pages.min(number);
    for missing in end..number {
        write(disk, FileId::Pages, missing * size, blank())?;
    }
    Ok(())
}
