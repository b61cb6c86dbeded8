//! The plan of a split.

ghost use Rattle.std.specs.Prelude.{◌≡◌, ◌≤◌, ◌<◌, ◌+◌, ◌-◌, ◌^◌, ℕ, [], true, false, Some, IfErr, length};
ghost use Rattle.im_base_types.specs.declared.fault.Fault.TheVariants.{Capacity, PagesFull};
ghost use Rattle.im_base_types.specs.declared.page_kind.PageKind.TheVariants.{Meta};
ghost use Rattle.im_page_writer.specs.PageWriter.{IsReadyWriter};
ghost use Rattle.im_page_writer.specs.Outcome.{fault_of, AllPages, AreLoaded, HasPages, IsSound, Outcome};
ghost use Rattle.im_theory_tree.specs.Good.{IsGoodTree};
ghost use Rattle.im_smo_pages.specs.Seen.{bodies, seen};
ghost use Rattle.im_smo_pages.specs.Kept.{mild_to_take, HasImages, Plans};
ghost use Rattle.im_smo_split.specs.Pages.{newest_first};
ghost use Rattle.im_smo_split.specs.Ends.{Ended};
ghost use Rattle.im_smo_split.specs.Kept.{mild_to_grow, mild_to_split};
ghost use Rattle.im_smo_split.specs.Plan.{Planned, WantsPages};
ghost use Rattle.im_smo_split.specs.Tops.{IsCounted, IsTop};
ghost use Rattle.im_smo_split.specs.PendingSplits.{IsPending, IsRootPending};

use crate::leaves::{split_pending_leaf, split_root_leaf};
use crate::pending_split::{first_pending, split_pending_inner};
use crate::split_plan::SplitPlan;
use crate::split_room::is_full;
use crate::taking::take_pages;
use crate::top::{Top, find_top};
use im_base_disk::Disk;
use im_base_types::{Fault, PageNo};
use im_page_writer::PageWriter;
use im_smo_pages::Images;
use std::alloc::Global;

// Refused `PagesFull` exactly where so many pages more would be more than the store may have; otherwise as `is_full` is.
fn check_room<D: Disk>(
    writer: &mut PageWriter,
    disk: &mut D,
    pages: u32,
    max: Option<PageNo>,
) -> Result<(), Fault>
    requires ready { IsReadyWriter D.Disk writer.old disk.old }
    requires working { writer.old.failed ≡ false }
    ensures outcome { Outcome D.Disk AreLoaded (mild_to_grow max) writer.old disk.old writer.new disk.new (fault_of result) }
    ensures kept { (store : AllPages) → HasPages D.Disk AreLoaded store writer.old disk.old → (bodies store 0).kind ≡ Meta
        → IsSound result (λ _. (m : ℕ) → max ≡ Some m → (bodies store 0).leftmost + pages ≤ m + (bodies store 0).prev) }
    ensures full { (store : AllPages) → HasPages D.Disk AreLoaded store writer.old disk.old → (bodies store 0).kind ≡ Meta
        → IfErr result (λ e. e ≡ PagesFull → (m : ℕ) × (max ≡ Some m) × (m + (bodies store 0).prev < (bodies store 0).leftmost + pages)) }
{
    let Some(most) = max else {
        return Ok(());
    };
    if is_full(writer, disk, pages, most)? {
        return Err(Fault::PagesFull);
    }
    Ok(())
}

// Splits from the highest page down, over the pages that were taken for it. It answers the key's leaf.
#[tactic(auto, using(im_page_writer::proofs::Outcomes::then, im_page_writer::proofs::Outcomes::refused))]
fn split_down<D: Disk>(
    alloc: Global,
    images: &mut Images,
    numbers: &mut Vec<PageNo>,
    writer: &mut PageWriter,
    disk: &mut D,
    key: &[u8],
    top: Top,
    dense: bool,
) -> Result<PageNo, Fault>
    requires ready { IsReadyWriter D.Disk writer.old disk.old }
    requires working { writer.old.failed ≡ false }
    requires low { top.root ≡ true → top.level < 255 }
    requires is_counted { IsCounted 0 top }
    requires counted { length numbers.old.items ≡ top.pages }
    ensures outcome { Plans D.Disk writer.old disk.old writer.new disk.new (fault_of result) }
    ensures kept { (store : AllPages) → HasImages D.Disk store images.old (newest_first numbers.old.items) writer.old disk.old
        → (top.root ≡ true → IsRootPending dense (seen store images.old) (newest_first numbers.old.items) key.now top.level)
        → (top.root ≡ false → IsPending dense (seen store images.old) (newest_first numbers.old.items) key.now top.level top.parent top.page)
        → IsSound result (Ended store key.now images.old images.new) }
{
    if top.root && top.level == 0 {
        return split_root_leaf(alloc, images, numbers, writer, disk, key, dense);
    }
    let mut pending = first_pending(alloc, images, numbers, writer, disk, key, top)?;
    while 0 < pending.level {
        pending = split_pending_inner(alloc, images, numbers, writer, disk, key, pending)?;
    }
    split_pending_leaf(alloc, images, numbers, writer, disk, key, pending, dense)
}

// Takes the pages that a split needs, and splits from the highest page down.
fn split_from<D: Disk>(
    alloc: Global,
    writer: &mut PageWriter,
    disk: &mut D,
    key: &[u8],
    top: Top,
    dense: bool,
) -> Result<SplitPlan, Fault>
    requires ready { IsReadyWriter D.Disk writer.old disk.old }
    requires working { writer.old.failed ≡ false }
    requires low { top.root ≡ true → top.level < 255 }
    requires is_counted { IsCounted 0 top }
    ensures outcome { Outcome D.Disk AreLoaded mild_to_take writer.old disk.old writer.new disk.new (fault_of result) }
    ensures kept { (store : AllPages) → HasPages D.Disk AreLoaded store writer.old disk.old → IsGoodTree (bodies store) [] → IsTop dense (bodies store) key.now top
        → IsSound result (λ plan. Ended store key.now [] plan.images plan.leaf) }
    ensures used_up { (store : AllPages) → HasPages D.Disk AreLoaded store writer.old disk.old → IsGoodTree (bodies store) [] → IsTop dense (bodies store) key.now top
        → IfErr result (λ e. e ≡ Capacity → 2 ^ 32 - 1 + (bodies store 0).prev < (bodies store 0).leftmost + top.pages) }
{
    let mut images = Images::new(alloc);
    let mut numbers = take_pages(alloc, &mut images, writer, disk, top.pages)?;
    let leaf = split_down(
        alloc,
        &mut images,
        &mut numbers,
        writer,
        disk,
        key,
        top,
        dense,
    )?;
    Ok(SplitPlan { images, leaf })
}

/// The pages that have to be written before a key's entry goes into its leaf, as images: none where the leaf has room for it. Put in
/// the place of the pages that are there they are a good tree with the same entries, whose leaf for the key has room; which page that
/// is, is answered beside them. Where splits are `dense` the last leaf of the chain keeps nearly all of its room (`point_of` of im_smo_pages).
///
/// Refused `PagesFull` exactly where the store would have more than `max` pages that are not free, which is decided before a page is
/// taken; `Capacity` where it would have more than 2^32 - 1, or the root is of level 255 and has to be split; otherwise as `image` is.
/// Where the leaf has room neither comes. No page of the pool is changed.
pub fn plan_split<D: Disk>(
    alloc: Global,
    writer: &mut PageWriter,
    disk: &mut D,
    key: &[u8],
    max: Option<PageNo>,
    dense: bool,
) -> Result<SplitPlan, Fault>
    requires ready { IsReadyWriter D.Disk writer.old disk.old }
    requires working { writer.old.failed ≡ false }
    requires short { length key.now ≤ 255 }
    ensures outcome { Outcome D.Disk AreLoaded (mild_to_split max) writer.old disk.old writer.new disk.new (fault_of result) }
    ensures kept { (store : AllPages) → HasPages D.Disk AreLoaded store writer.old disk.old → IsGoodTree (bodies store) [] → IsSound result (λ plan. Planned dense store key.now max plan.images plan.leaf) }
    ensures wants { (store : AllPages) → HasPages D.Disk AreLoaded store writer.old disk.old → IsGoodTree (bodies store) [] → IfErr result (WantsPages dense (bodies store) key.now max) }
{
    let Some(top) = find_top(writer, disk, key, dense)? else {
        let images = Images::new(alloc);
        return Ok(SplitPlan { images, leaf: 0 });
    };
    check_room(writer, disk, top.pages, max)?;
    if top.root && top.level == 255 {
        return Err(Fault::Capacity);
    }
    split_from(alloc, writer, disk, key, top, dense)
}
