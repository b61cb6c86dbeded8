//! Bytes of the file of pages, read into a page's own.

ghost use Rattle.std.specs.Prelude.{◌≡◌, ◌+◌, ◌≤◌, false, length, take, drop, Some, None, Err, OnOk};
ghost use Rattle.im_base_types.specs.declared.fault.Fault.TheVariants.{NotAStore};
ghost use Rattle.im_base_types.specs.declared.file_id.FileId.TheVariants.{Pages};
ghost use Rattle.im_base_disk.specs.Ends.{ReadsOr};
ghost use Rattle.im_theory_page.specs.Page.{IsForm, page_of, said_by};

use crate::form::is_form;
use im_base_disk::Disk;
use im_base_types::{Fault, FileId};

/// Reads 4,096 bytes of the file of pages, from a place on. Refused `Device` or, exactly where they are no page, `NotAStore`.
pub fn read_form<D: Disk>(disk: &mut D, at: u64, bytes: &mut [u8]) -> Result<(), Fault>
    requires working { D.failed disk.old ≡ false }
    requires len { length bytes.old ≡ 4096 }
    requires within { D.tells → at + 4096 ≤ length (D.seen disk.old Pages) }
    ensures form { OnOk result (IsForm bytes.new) }
    ensures page { OnOk result (D.tells → page_of (take 4096 (drop at (D.seen disk.old Pages))) ≡ Some (said_by bytes.new)) }
    ensures none { result ≡ Err NotAStore → D.tells → page_of (take 4096 (drop at (D.seen disk.old Pages))) ≡ None }
    ensures outcome { ReadsOr D.Disk (λ e. e ≡ NotAStore) disk.old disk.new result }
    ensures len { length bytes.new ≡ 4096 }
{
    disk.read(FileId::Pages, at, bytes)?;
    if !is_form(bytes) {
        return Err(Fault::NotAStore);
    }
    Ok(())
}
