//! A structure change that is planned, in front of its first record.

ghost use Rattle.std.specs.Prelude.{◌≡◌, ◌≤◌, false, IfErr, IfOk};
ghost use Rattle.im_base_types.specs.declared.fault.Fault.TheVariants.{Memory};
ghost use Rattle.im_page_writer.specs.PageWriter.{IsReadyWriter};
ghost use Rattle.im_page_writer.specs.Outcome.{fault_of, AllPages, AreLoaded, HasPages, IsSound, Reads};
ghost use Rattle.im_smo_pages.specs.Images.{IsRising};
ghost use Rattle.im_smo_pages.specs.Kept.{Plans};
ghost use Rattle.im_smo_pages.specs.Seen.{bodies};
ghost use Rattle.im_smo_log.specs.Changes.{AreCounted};
ghost use Rattle.im_smo_log.specs.ChangePages.{numbers_of};

use crate::begun_change::BegunChange;
use im_base_disk::Disk;
use im_base_types::{Fault, Lsn, PageNo, TxnId};
use im_page_writer::PageWriter;
use im_smo_log::{Change, are_counted, page_numbers};
use im_smo_pages::Images;
use std::alloc::Global;

/// A structure change of which no page is logged, with all that others are told of it once it has begun. So what wants memory is had in
/// front of a lock or a record, and it can begin after one.
#[derive(Drop)]
pub struct PlannedChange {
    pub(crate) images: Images,
    pub(crate) numbers: Vec<PageNo>,
    pub(crate) count: PageNo,
    ghost counted: { AreCounted images },
    ghost named: { numbers.items ≡ numbers_of images },
}

// The page count that page 0 says.
fn page_count<D: Disk>(writer: &mut PageWriter, disk: &mut D) -> Result<PageNo, Fault>
    requires ready { IsReadyWriter D.Disk writer.old disk.old }
    requires working { writer.old.failed ≡ false }
    ensures outcome { Reads D.Disk writer.old disk.old writer.new disk.new (fault_of result) }
    ensures kept { (pages : AllPages) → HasPages D.Disk AreLoaded pages writer.old disk.old → IsSound result (λ count. count ≡ (bodies pages 0).leftmost) }
{
    let meta = writer.get(disk, 0)?;
    Ok(writer.page(meta).leftmost())
}

// The images with their numbers, and this page count.
fn with_numbers(alloc: Global, images: Images, count: PageNo) -> Result<PlannedChange, Fault>
    ensures planned { IfOk result (λ plan. (plan.images ≡ images) × (plan.count ≡ count) × IsRising plan.images) }
    ensures memory { IfErr result (λ e. e ≡ Memory) }
{
    if !are_counted(&images) {
        return Err(Fault::Memory);
    }
    images.law_rise();
    let numbers = page_numbers(alloc, &images)?;
    Ok(PlannedChange {
        images,
        numbers,
        count,
    })
}

/// The change that these images of a plan are, over the pages as they stand, with none under way: no page is changed, and page 0 is read.
///
/// Refused `Memory` where it is wanted for the numbers, or where the images are none of a plan, as `run` refuses them; otherwise as
/// `PageWriter::get` is.
pub fn plan_change<D: Disk>(
    alloc: Global,
    writer: &mut PageWriter,
    disk: &mut D,
    images: Images,
) -> Result<PlannedChange, Fault>
    requires ready { IsReadyWriter D.Disk writer.old disk.old }
    requires working { writer.old.failed ≡ false }
    ensures outcome { Plans D.Disk writer.old disk.old writer.new disk.new (fault_of result) }
    ensures kept { (pages : AllPages) → HasPages D.Disk AreLoaded pages writer.old disk.old → IsSound result (λ plan. plan.count ≡ (bodies pages 0).leftmost) }
    ensures planned { IfOk result (λ plan. (plan.images ≡ images) × IsRising plan.images) }
{
    let count = page_count(writer, disk)?;
    let plan = with_numbers(alloc, images, count)?;
    Ok(plan)
}

impl PlannedChange {
    /// It begins, as a change of this transaction, whose records end at `last`; undo goes on at `undo_next` after it. It takes no
    /// memory, and is never refused.
    pub fn begin(self, transaction: TxnId, last: Lsn, undo_next: Lsn) -> BegunChange
        requires owner { 1 ≤ transaction }
        ensures images { (result.change.images ≡ self.images) × (result.change.done ≡ 0) }
        ensures owner { (result.change.transaction ≡ transaction) × (result.change.last ≡ last) × (result.change.undo_next ≡ undo_next) }
        ensures count { result.count ≡ self.count }
    {
        BegunChange {
            change: Change::begin_counted(self.images, transaction, last, undo_next),
            numbers: self.numbers,
            count: self.count,
        }
    }
}
