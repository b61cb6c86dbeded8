//! The plan of a deletion.

ghost use Rattle.std.specs.Prelude.{◌≡◌, ◌≢◌, ℕ, [], false, length};
ghost use Rattle.im_base_types.specs.Keys.{Key};
ghost use Rattle.im_page_writer.specs.PageWriter.{IsReadyWriter};
ghost use Rattle.im_page_writer.specs.Outcome.{fault_of, AllPages, AreLoaded, HasPages, IsSound};
ghost use Rattle.im_theory_tree.specs.Search.{IsOnWay};
ghost use Rattle.im_theory_tree.specs.Good.{IsGoodTree};
ghost use Rattle.im_smo_pages.specs.Seen.{bodies, seen};
ghost use Rattle.im_smo_pages.specs.Kept.{Plans};
ghost use Rattle.im_smo_drop_leaf.specs.Chains.{IsBeside};
ghost use Rattle.im_smo_drop_leaf.specs.Emptied.{emptied, SameBut};
ghost use Rattle.im_smo_drop_leaf.specs.Plan.{IsPlan};
ghost use Rattle.im_smo_drop_leaf.specs.Ways.{IsPlaced};

use crate::beside::Beside;
use crate::dropping::take_out;
use crate::emptying::put_emptied;
use crate::giving::give_back;
use crate::way::{Place, find_chain};
use im_base_disk::Disk;
use im_base_types::{Fault, PageNo};
use im_page_writer::PageWriter;
use im_smo_pages::Images;
use std::alloc::Global;

// Takes the chain that an empty leaf ends out of the tree, and gives its pages back. The leaf is empty with the images in the place of the
// pages that are there; among these it may have entries still.
fn drop_chain<D: Disk>(
    alloc: Global,
    images: &mut Images,
    writer: &mut PageWriter,
    disk: &mut D,
    above: &mut Vec<PageNo>,
    leaf: Place,
    beside: Beside,
) -> Result<(), Fault>
    requires ready { IsReadyWriter D.Disk writer.old disk.old }
    requires working { writer.old.failed ≡ false }
    ensures outcome { Plans D.Disk writer.old disk.old writer.new disk.new (fault_of result) }
    ensures kept { (pages now : AllPages) (key : Key) → HasPages D.Disk AreLoaded pages writer.old disk.old → SameBut leaf.number (bodies pages) (bodies now) → seen pages images.old ≡ bodies now → IsGoodTree (bodies now) []
        → IsPlaced (bodies now) key leaf.parent leaf.place 0 leaf.number above.old.items → IsBeside (bodies now leaf.number) beside → leaf.number ≢ 1
        → IsSound result (λ _. IsPlan now leaf.number images.new) }
{
    take_out(alloc, images, writer, disk, leaf.parent, leaf.place, beside)?;
    give_back(alloc, images, writer, disk, above, leaf.number)
}

/// The pages that have to be written so that the leaf of a key leaves the tree, as images, planned before its last entry is taken out,
/// so that memory for the plan is asked before the record that takes it out: the leaf in whose range the key lies has one entry and is not
/// page 1. Put in the place of the pages without that entry they are a good tree with the same walk and no page spare, in which that
/// leaf's page is free.
///
/// Refused `NotAStore` where the leaf has another number of entries or is page 1, or a page on the way, beside the leaf or in front of the
/// free list is none of its kind; otherwise as `PageWriter::get` is, and `Memory`. No page of the pool is changed.
pub fn plan_delete_last<D: Disk>(
    alloc: Global,
    writer: &mut PageWriter,
    disk: &mut D,
    key: &[u8],
) -> Result<Images, Fault>
    requires ready { IsReadyWriter D.Disk writer.old disk.old }
    requires working { writer.old.failed ≡ false }
    ensures outcome { Plans D.Disk writer.old disk.old writer.new disk.new (fault_of result) }
    ensures kept { (pages : AllPages) → HasPages D.Disk AreLoaded pages writer.old disk.old → IsGoodTree (bodies pages) [] → (p : ℕ) → IsOnWay (bodies pages) 0 key.now p → length (bodies pages p).entries ≡ 1 → p ≢ 1
        → IsSound result (IsPlan (emptied pages p) p) }
{
    let mut above = Vec::new(alloc);
    let leaf = find_chain(&mut above, writer, disk, key)?;
    if leaf.number == 1 {
        return Err(Fault::NotAStore);
    }
    let mut images = Images::new(alloc);
    let beside = put_emptied(alloc, &mut images, writer, disk, leaf.number)?;
    drop_chain(alloc, &mut images, writer, disk, &mut above, leaf, beside)?;
    Ok(images)
}
