//! A page of the tree, from its number and its level.

ghost use Rattle.std.specs.Prelude.{◌≡◌, ◌↔◌, ◌+◌, ◌≤◌, true, false, IfOk, OnOk, IsTrue};
ghost use Rattle.im_page_pool.specs.Pool.{page_at, Holds};
ghost use Rattle.im_page_writer.specs.PageWriter.{IsReadyWriter};
ghost use Rattle.im_page_writer.specs.Outcome.{fault_of, AllPages, AreLoaded, HasPages, IsSound, Reads};
ghost use Rattle.im_tree_search.specs.Found.{IsTreePage};
ghost use Rattle.im_tree_search.specs.HeldPages.{IsQuiet};
ghost use Rattle.im_tree_search.specs.Levels.{HasLevel};
ghost use Rattle.im_tree_search.specs.Sights.{HasTreeBut, IfSeen, IsSettled, is_done};

use crate::change_beside::Beside;
use crate::sight::Sight;
use crate::sights::hidden;
use im_base_disk::Disk;
use im_base_types::{Fault, PageKind, PageNo};
use im_page::Page;
use im_page_pool::Frame;
use im_page_writer::PageWriter;

/// Whether it is a page of the tree, of this level: a leaf at level 0, an inner page above.
pub fn has_level(page: &Page, level: u8) -> bool
    ensures { IsTrue result ↔ HasLevel level page.now.body }
{
    if page.level() != level {
        return false;
    }
    if level == 0 {
        return page.kind() == PageKind::Leaf;
    }
    page.kind() == PageKind::Inner
}

/// Gets a page that is of this level. Refused `NotAStore` where it is not, otherwise as `PageWriter::get` is.
pub fn tree_page<D: Disk>(
    writer: &mut PageWriter,
    disk: &mut D,
    number: PageNo,
    level: u8,
) -> Result<Frame, Fault>
    requires ready { IsReadyWriter D.Disk writer.old disk.old }
    ensures outcome { Reads D.Disk writer.old disk.old writer.new disk.new (fault_of result) }
    ensures kept { (pages : AllPages) → HasPages D.Disk AreLoaded pages writer.old disk.old → HasLevel level (pages number).body
        → IsSound result (λ _. page_at writer.new.pool number ≡ pages number) }
    ensures held { IfOk result (IsTreePage level number writer.new.pool) }
    ensures frame { IfOk result (λ frame. frame.number ≡ number) }
    ensures gets { OnOk result (writer.new.pool.gets ≡ writer.old.pool.gets + 1) }
    ensures quiet { writer.old.failed ≡ false → Holds writer.old.pool number → IsQuiet writer.old disk.old writer.new disk.new }
{
    let frame = writer.get(disk, number)?;
    if !has_level(writer.page(frame), level) {
        return Err(Fault::NotAStore);
    }
    Ok(frame)
}

/// Gets a page that is of this level, unless it is one of those that are made. Refused as `tree_page` is.
pub(crate) fn page_beside<D: Disk>(
    writer: &mut PageWriter,
    disk: &mut D,
    number: PageNo,
    level: u8,
    beside: Beside<'_>,
) -> Result<Sight<Frame>, Fault>
    requires ready { IsReadyWriter D.Disk writer.old disk.old }
    ensures outcome { Reads D.Disk writer.old disk.old writer.new disk.new (fault_of result) }
    ensures kept { (pages : AllPages) → HasTreeBut D.Disk pages beside.entry writer.old disk.old → HasLevel level (pages number).body
        → IsSound result (IfSeen (λ _. page_at writer.new.pool number ≡ pages number) (is_done beside.entry number ≡ true)) }
    ensures settled { IfOk result (IfSeen (IsSettled level beside.entry writer.new.pool) (1 ≤ beside.entry.done)) }
    ensures frame { IfOk result (IfSeen (λ frame. frame.number ≡ number) Unit) }
    ensures gets { IfOk result (IfSeen (λ _. writer.new.pool.gets ≡ writer.old.pool.gets + 1) (writer.new.pool.gets ≡ writer.old.pool.gets)) }
    ensures quiet { writer.old.failed ≡ false → Holds writer.old.pool number → IsQuiet writer.old disk.old writer.new disk.new }
{
    if beside.is_done(number) {
        return hidden(writer);
    }
    let frame = tree_page(writer, disk, number, level)?;
    Ok(Sight::Seen(frame))
}
