//! The split of a key's leaf, the last one.

ghost use Rattle.std.specs.Prelude.{◌≡◌, ◌≤◌, ◌⊎◌, ℕ, zero, suc, List, ◌∷◌, true, false, Ok, Err, IfErr, IfOk, length};
ghost use Rattle.im_base_types.specs.declared.fault.Fault.TheVariants.{Memory, NotAStore};
ghost use Rattle.im_base_types.specs.declared.page_kind.PageKind.TheVariants.{Leaf};
ghost use Rattle.im_theory_page.specs.Entry.{Rises};
ghost use Rattle.im_theory_page.specs.Child.{IsChild};
ghost use Rattle.im_page_writer.specs.PageWriter.{IsReadyWriter};
ghost use Rattle.im_page_writer.specs.Outcome.{fault_of, AllPages, AreLoaded, HasPages, IsSound};
ghost use Rattle.im_theory_tree.specs.Levels.{Pages};
ghost use Rattle.im_theory_tree.specs.Good.{IsGoodTree};
ghost use Rattle.im_theory_tree.specs.Search.{IsOnWay};
ghost use Rattle.im_theory_tree.specs.Halves.{FitsPage};
ghost use Rattle.im_smo_pages.specs.Images.{Has, held};
ghost use Rattle.im_smo_pages.specs.Parts.{CanHalve, CanSplit};
ghost use Rattle.im_smo_pages.specs.Seen.{seen};
ghost use Rattle.im_smo_pages.specs.Kept.{HasImages, Plans};
ghost use Rattle.im_smo_split.specs.Pages.{newest_first};
ghost use Rattle.im_smo_split.specs.Ends.{HalvesLeaf, HalvesRootLeaf, BroughtBoth, Ended};
ghost use Rattle.im_smo_split.specs.PendingSplits.{IsPending, IsRootPending};

use crate::pending_split::{PendingSplit, bring};
use im_base_disk::Disk;
use im_base_types::{Fault, PageNo};
use im_page::Page;
use im_page_writer::PageWriter;
use im_smo_pages::{Images, image};
use std::alloc::Global;

// The leaf after a leaf that is among the images; 0 where there is none.
fn next_in(images: &Images, number: PageNo) -> PageNo
    ensures { (pages : Pages) → Has images.now number → result ≡ (held pages images.now number).next }
{
    match images.get(number) {
        Some(page) => page.next(),
        None => 0,
    }
}

// A leaf joins the images, and so does the leaf after it, if there is one. Refused as `bring` is.
#[tactic(auto, using(im_page_writer::proofs::Outcomes::then, im_page_writer::proofs::Outcomes::refused))]
fn bring_both<D: Disk>(
    alloc: Global,
    images: &mut Images,
    writer: &mut PageWriter,
    disk: &mut D,
    number: PageNo,
) -> Result<(), Fault>
    requires ready { IsReadyWriter D.Disk writer.old disk.old }
    requires working { writer.old.failed ≡ false }
    ensures outcome { Plans D.Disk writer.old disk.old writer.new disk.new (fault_of result) }
    ensures kept { (store : AllPages) → HasPages D.Disk AreLoaded store writer.old disk.old → IsSound result (λ _. BroughtBoth store images.old number images.new) }
{
    bring(alloc, images, writer, disk, number)?;
    let next = next_in(images, number);
    if next == 0 {
        return Ok(());
    }
    bring(alloc, images, writer, disk, next)
}

// Splits the leaf that is to be split among the images, where the leaf after it is too. It answers the half that is the key's leaf now.
fn part_leaf(
    alloc: Global,
    images: &mut Images,
    page: &Page,
    pending: PendingSplit,
    q: PageNo,
    key: &[u8],
    dense: bool,
) -> Result<PageNo, Fault>
    ensures halves { IfOk result (HalvesLeaf images.old images.new page.now.body key.now pending.parent pending.page q) }
    ensures causes { IfErr result (λ e. (e ≡ Memory) ⊎ (e ≡ NotAStore)) }
    ensures sound { (pages : Pages) (spare : List ℕ) → IsGoodTree (held pages images.old) (q ∷ spare) → IsOnWay (held pages images.old) (suc zero) key.now pending.parent
        → IsChild (held pages images.old pending.parent) key.now pending.page → held pages images.old pending.page ≡ page.now.body → Has images.old pending.parent
        → (1 ≤ page.now.body.next → Has images.old page.now.body.next)
        → page.now.body.kind ≡ Leaf → (Rises page.now.body.entries → FitsPage true page.now.body.entries → CanSplit dense Leaf page.now.body (held pages images.old pending.parent) q) → result ≡ Err NotAStore → ⊥ }
{
    page.law_content();
    let half = images.split_leaf_for(alloc, key, page, pending.parent, pending.page, q, dense)?;
    Ok(half)
}

// Splits the root, a leaf, among the images. It answers the half that is the key's leaf now.
fn part_root_leaf(
    alloc: Global,
    images: &mut Images,
    page: &Page,
    left: PageNo,
    right: PageNo,
    key: &[u8],
    dense: bool,
) -> Result<PageNo, Fault>
    ensures halves { IfOk result (HalvesRootLeaf images.old images.new page.now.body key.now left right) }
    ensures causes { IfErr result (λ e. (e ≡ Memory) ⊎ (e ≡ NotAStore)) }
    ensures sound { page.now.body.kind ≡ Leaf → (FitsPage true page.now.body.entries → CanHalve dense Leaf page.now.body) → result ≡ Err NotAStore → ⊥ }
{
    page.law_content();
    let half = images.split_root_leaf_for(alloc, key, page, left, right, dense)?;
    Ok(half)
}

/// Splits the leaf that is to be split, and the leaf after it learns of the new one; the page that was taken first is no longer spare. It
/// answers the half that is the key's leaf now.
///
/// Refused `NotAStore` where the page is no leaf or can not be split, or the page after it is no leaf; otherwise as `image` is, and
/// `Memory`. After a refusal the images are of no use.
#[tactic(auto, using(im_page_writer::proofs::Outcomes::then, im_page_writer::proofs::Outcomes::refused))]
pub(crate) fn split_pending_leaf<D: Disk>(
    alloc: Global,
    images: &mut Images,
    numbers: &mut Vec<PageNo>,
    writer: &mut PageWriter,
    disk: &mut D,
    key: &[u8],
    pending: PendingSplit,
    dense: bool,
) -> Result<PageNo, Fault>
    requires ready { IsReadyWriter D.Disk writer.old disk.old }
    requires working { writer.old.failed ≡ false }
    requires counted { length numbers.old.items ≡ 1 }
    ensures outcome { Plans D.Disk writer.old disk.old writer.new disk.new (fault_of result) }
    ensures kept { (store : AllPages) → HasImages D.Disk store images.old (newest_first numbers.old.items) writer.old disk.old
        → IsPending dense (seen store images.old) (newest_first numbers.old.items) key.now zero pending.parent pending.page → Has images.old pending.parent
        → IsSound result (Ended store key.now images.old images.new) }
{
    let q = numbers.take_last();
    bring_both(alloc, images, writer, disk, pending.page)?;
    images.law_rise();
    let page = image(alloc, images, writer, disk, pending.page)?;
    part_leaf(alloc, images, &page, pending, q, key, dense)
}

/// Splits the root, a leaf, into the two pages that were taken, and answers the key's. Refused as `split_pending_leaf` is.
pub(crate) fn split_root_leaf<D: Disk>(
    alloc: Global,
    images: &mut Images,
    numbers: &mut Vec<PageNo>,
    writer: &mut PageWriter,
    disk: &mut D,
    key: &[u8],
    dense: bool,
) -> Result<PageNo, Fault>
    requires ready { IsReadyWriter D.Disk writer.old disk.old }
    requires working { writer.old.failed ≡ false }
    requires counted { length numbers.old.items ≡ 2 }
    ensures outcome { Plans D.Disk writer.old disk.old writer.new disk.new (fault_of result) }
    ensures kept { (store : AllPages) → HasImages D.Disk store images.old (newest_first numbers.old.items) writer.old disk.old
        → IsRootPending dense (seen store images.old) (newest_first numbers.old.items) key.now zero
        → IsSound result (Ended store key.now images.old images.new) }
{
    let right = numbers.take_last();
    let left = numbers.take_last();
    images.law_rise();
    let page = image(alloc, images, writer, disk, 1)?;
    part_root_leaf(alloc, images, &page, left, right, key, dense)
}
