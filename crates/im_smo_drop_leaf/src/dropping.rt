//! The chain leaves the tree.

ghost use Rattle.std.specs.Prelude.{◌≡◌, ◌≢◌, ◌⊎◌, ◌≤◌, ℕ, false, IfErr, OnOk};
ghost use Rattle.im_base_types.specs.declared.fault.Fault.TheVariants.{Memory, NotAStore};
ghost use Rattle.im_base_types.specs.declared.page_kind.PageKind.TheVariants.{Leaf, Inner};
ghost use Rattle.im_theory_log.specs.Tree.{with_body};
ghost use Rattle.im_page_writer.specs.PageWriter.{IsReadyWriter};
ghost use Rattle.im_page_writer.specs.Outcome.{fault_of, AllPages, AreLoaded, HasPages, IsSound};
ghost use Rattle.im_smo_pages.specs.Bodies.{says};
ghost use Rattle.im_smo_pages.specs.Changed.{SamePages, unlinked_pages};
ghost use Rattle.im_smo_pages.specs.Images.{put_image};
ghost use Rattle.im_smo_pages.specs.Seen.{seen};
ghost use Rattle.im_smo_pages.specs.Kept.{Plans};
ghost use Rattle.im_tree_search.specs.Children.{StandsAt};
ghost use Rattle.im_smo_drop_leaf.specs.Chains.{without_child, with_link, linked, out_of_tree, AreLeavesBeside};

use crate::beside::{Beside, Side};
use crate::way::is_only;
use im_base_disk::Disk;
use im_base_types::{Fault, PageNo};
use im_page::Page;
use im_page_writer::PageWriter;
use im_smo_pages::{Images, drop_entry, drop_leftmost, empty_root, image, link_next, link_prev};
use im_tree_search::ChildPlace;
use std::alloc::Global;

// Takes the child at a place out of its parent; without a child left, which the root alone can be, it becomes an empty leaf.
fn drop_from(page: &mut Page, place: ChildPlace) -> Result<(), Fault>
    ensures new { OnOk result (page.new ≡ says page.old (without_child page.old.body place)) }
    ensures refused { IfErr result (λ e. e ≡ NotAStore) }
    ensures sound { (c : ℕ) → page.old.body.kind ≡ Inner → StandsAt page.old.body place c → IfErr result (λ _. ⊥) }
{
    match place {
        ChildPlace::Entry(i) => drop_entry(page, i),
        ChildPlace::Leftmost => drop_leftmost(page),
        ChildPlace::Only => {
            empty_root(page);
            Ok(())
        },
    }
}

// The same in a page among the images.
fn put_parent(
    images: &mut Images,
    number: PageNo,
    mut page: Box<Page>,
    place: ChildPlace,
) -> Result<(), Fault>
    ensures new { OnOk result (images.new ≡ put_image number (says page.value (without_child page.value.body place)) images.old) }
    ensures causes { IfErr result (λ e. (e ≡ Memory) ⊎ (e ≡ NotAStore)) }
    ensures sound { (c : ℕ) → page.value.body.kind ≡ Inner → StandsAt page.value.body place c → IfErr result (λ e. e ≢ NotAStore) }
{
    drop_from(&mut page, place)?;
    images.put(number, page)
}

// Tells a leaf which leaf stands on a side of it.
fn link(page: &mut Page, side: Side, leaf: PageNo) -> Result<(), Fault>
    ensures new { OnOk result (page.new ≡ says page.old (with_link page.old.body side leaf)) }
    ensures refused { IfErr result (λ e. e ≡ NotAStore) }
    ensures sound { page.old.body.kind ≡ Leaf → IfErr result (λ _. ⊥) }
{
    match side {
        Side::Prev => link_prev(page, leaf),
        Side::Next => link_next(page, leaf),
    }
}

// The same in a page among the images.
fn put_linked(
    images: &mut Images,
    number: PageNo,
    mut page: Box<Page>,
    side: Side,
    leaf: PageNo,
) -> Result<(), Fault>
    ensures new { OnOk result (images.new ≡ put_image number (says page.value (with_link page.value.body side leaf)) images.old) }
    ensures causes { IfErr result (λ e. (e ≡ Memory) ⊎ (e ≡ NotAStore)) }
    ensures sound { page.value.body.kind ≡ Leaf → IfErr result (λ e. e ≢ NotAStore) }
{
    link(&mut page, side, leaf)?;
    images.put(number, page)
}

// Takes the child at a place out of its parent.
fn drop_child<D: Disk>(
    alloc: Global,
    images: &mut Images,
    writer: &mut PageWriter,
    disk: &mut D,
    parent: PageNo,
    place: ChildPlace,
) -> Result<(), Fault>
    requires ready { IsReadyWriter D.Disk writer.old disk.old }
    requires working { writer.old.failed ≡ false }
    ensures outcome { Plans D.Disk writer.old disk.old writer.new disk.new (fault_of result) }
    ensures kept { (pages : AllPages) (c : ℕ) → HasPages D.Disk AreLoaded pages writer.old disk.old
        → (seen pages images.old parent).kind ≡ Inner → StandsAt (seen pages images.old parent) place c
        → IsSound result (λ _. SamePages (seen pages images.new) (with_body (seen pages images.old) parent (without_child (seen pages images.old parent) place))) }
{
    images.law_rise();
    let page = image(alloc, images, writer, disk, parent)?;
    put_parent(images, parent, page, place)
}

// Tells the leaf of a number which leaf stands on a side of it; 0 stands for no leaf, and nothing is done.
fn set_link<D: Disk>(
    alloc: Global,
    images: &mut Images,
    writer: &mut PageWriter,
    disk: &mut D,
    number: PageNo,
    side: Side,
    leaf: PageNo,
) -> Result<(), Fault>
    requires ready { IsReadyWriter D.Disk writer.old disk.old }
    requires working { writer.old.failed ≡ false }
    ensures outcome { Plans D.Disk writer.old disk.old writer.new disk.new (fault_of result) }
    ensures kept { (pages : AllPages) → HasPages D.Disk AreLoaded pages writer.old disk.old
        → (1 ≤ number → (seen pages images.old number).kind ≡ Leaf)
        → IsSound result (λ _. SamePages (seen pages images.new) (linked (seen pages images.old) side number leaf)) }
{
    if number == 0 {
        return Ok(());
    }
    images.law_rise();
    let page = image(alloc, images, writer, disk, number)?;
    put_linked(images, number, page, side, leaf)
}

// The leaves beside a leaf name each other.
fn unlink<D: Disk>(
    alloc: Global,
    images: &mut Images,
    writer: &mut PageWriter,
    disk: &mut D,
    beside: Beside,
) -> Result<(), Fault>
    requires ready { IsReadyWriter D.Disk writer.old disk.old }
    requires working { writer.old.failed ≡ false }
    ensures outcome { Plans D.Disk writer.old disk.old writer.new disk.new (fault_of result) }
    ensures kept { (pages : AllPages) → HasPages D.Disk AreLoaded pages writer.old disk.old
        → AreLeavesBeside (seen pages images.old) beside.prev beside.next
        → IsSound result (λ _. SamePages (seen pages images.new) (unlinked_pages (seen pages images.old) beside.prev beside.next)) }
{
    set_link(
        alloc,
        images,
        writer,
        disk,
        beside.prev,
        Side::Next,
        beside.next,
    )?;
    set_link(
        alloc,
        images,
        writer,
        disk,
        beside.next,
        Side::Prev,
        beside.prev,
    )
}

/// Takes the chain at a place of a page out of the tree, and the leaf at its end out of the chain of leaves. Under the root left
/// without a child there is no other leaf.
///
/// Refused `NotAStore` where the parent has no child there, or a page beside the leaf is no leaf; otherwise as `image` is.
pub(crate) fn take_out<D: Disk>(
    alloc: Global,
    images: &mut Images,
    writer: &mut PageWriter,
    disk: &mut D,
    parent: PageNo,
    place: ChildPlace,
    beside: Beside,
) -> Result<(), Fault>
    requires ready { IsReadyWriter D.Disk writer.old disk.old }
    requires working { writer.old.failed ≡ false }
    ensures outcome { Plans D.Disk writer.old disk.old writer.new disk.new (fault_of result) }
    ensures kept { (pages : AllPages) (c : ℕ) → HasPages D.Disk AreLoaded pages writer.old disk.old
        → (seen pages images.old parent).kind ≡ Inner → StandsAt (seen pages images.old parent) place c → AreLeavesBeside (seen pages images.old) beside.prev beside.next
        → IsSound result (λ _. SamePages (seen pages images.new) (out_of_tree (seen pages images.old) parent place beside.prev beside.next)) }
{
    drop_child(alloc, images, writer, disk, parent, place)?;
    if is_only(place) {
        return Ok(());
    }
    unlink(alloc, images, writer, disk, beside)
}
