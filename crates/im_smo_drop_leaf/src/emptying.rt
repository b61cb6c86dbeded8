//! The leaf without its last entry, among the images.

ghost use Rattle.std.specs.Prelude.{◌≡◌, ◌≢◌, ◌⊎◌, [], false, length, IfErr, IfOk, OnOk};
ghost use Rattle.im_base_types.specs.declared.fault.Fault.TheVariants.{Memory, NotAStore};
ghost use Rattle.im_theory_log.specs.Tree.{with_entries};
ghost use Rattle.im_page_writer.specs.PageWriter.{IsReadyWriter};
ghost use Rattle.im_page_writer.specs.Outcome.{fault_of, AllPages, AreLoaded, HasPages, IsSound};
ghost use Rattle.im_smo_pages.specs.Bodies.{says};
ghost use Rattle.im_smo_pages.specs.Images.{put_image};
ghost use Rattle.im_smo_pages.specs.Seen.{bodies, seen};
ghost use Rattle.im_smo_pages.specs.Kept.{Plans};
ghost use Rattle.im_tree_search.specs.Levels.{HasLevel};
ghost use Rattle.im_smo_drop_leaf.specs.Chains.{IsBeside};
ghost use Rattle.im_smo_drop_leaf.specs.Emptied.{emptied};

use crate::beside::Beside;
use im_base_disk::Disk;
use im_base_types::{Fault, PageNo};
use im_page::Page;
use im_page_writer::PageWriter;
use im_smo_pages::{Images, image};
use im_tree_search::has_level;
use std::alloc::Global;

// Takes the one entry of a leaf out, and with it the mark of a structure change. It answers the leaves beside it.
fn take_last(page: &mut Page) -> Result<Beside, Fault>
    ensures new { OnOk result (page.new ≡ says page.old (with_entries page.old.body [])) }
    ensures beside { IfOk result (IsBeside (with_entries page.old.body [])) }
    ensures refused { IfErr result (λ e. e ≡ NotAStore) }
    ensures sound { HasLevel 0 page.old.body → length page.old.body.entries ≡ 1 → IfErr result (λ _. ⊥) }
{
    if !has_level(page, 0) || page.len() != 1 {
        return Err(Fault::NotAStore);
    }
    let beside = Beside {
        prev: page.prev(),
        next: page.next(),
    };
    page.remove(0);
    page.set_marked(false);
    Ok(beside)
}

// The same in a page among the images.
fn put_last(images: &mut Images, number: PageNo, mut page: Box<Page>) -> Result<Beside, Fault>
    ensures new { OnOk result (images.new ≡ put_image number (says page.value (with_entries page.value.body [])) images.old) }
    ensures beside { IfOk result (IsBeside (with_entries page.value.body [])) }
    ensures causes { IfErr result (λ e. (e ≡ Memory) ⊎ (e ≡ NotAStore)) }
    ensures sound { HasLevel 0 page.value.body → length page.value.body.entries ≡ 1 → IfErr result (λ e. e ≢ NotAStore) }
{
    let beside = take_last(&mut page)?;
    images.put(number, page)?;
    Ok(beside)
}

/// Puts a leaf that has one entry among the images, without it. It answers the leaves beside the leaf. Refused `NotAStore` where it
/// is no leaf or has another number of entries; otherwise as `image` is, and `Memory`.
pub(crate) fn put_emptied<D: Disk>(
    alloc: Global,
    images: &mut Images,
    writer: &mut PageWriter,
    disk: &mut D,
    number: PageNo,
) -> Result<Beside, Fault>
    requires ready { IsReadyWriter D.Disk writer.old disk.old }
    requires working { writer.old.failed ≡ false }
    ensures outcome { Plans D.Disk writer.old disk.old writer.new disk.new (fault_of result) }
    ensures kept { (pages : AllPages) → HasPages D.Disk AreLoaded pages writer.old disk.old → images.old ≡ []
        → HasLevel 0 (bodies pages number) → length (bodies pages number).entries ≡ 1
        → IsSound result (λ near. (seen pages images.new ≡ bodies (emptied pages number)) × IsBeside (bodies (emptied pages number) number) near) }
{
    let page = image(alloc, images, writer, disk, number)?;
    put_last(images, number, page)
}
