//! From one page that splits to the next.

ghost use Rattle.std.specs.Prelude.{◌≡◌, ◌≤◌, ◌<◌, ◌⊎◌, ◌+◌, ℕ, true, false, Ok, Err, IfErr, IfOk, length, Bool};
ghost use Rattle.im_base_types.specs.declared.fault.Fault.TheVariants.{Memory, NotAStore};
ghost use Rattle.im_base_types.specs.declared.page_kind.PageKind.TheVariants.{Inner};
ghost use Rattle.im_theory_page.specs.Entry.{entry_at};
ghost use Rattle.im_theory_page.specs.Child.{IsChild};
ghost use Rattle.im_page_writer.specs.PageWriter.{IsReadyWriter};
ghost use Rattle.im_page_writer.specs.Outcome.{fault_of, AllPages, AreLoaded, HasPages, IsSound};
ghost use Rattle.im_theory_tree.specs.Levels.{Pages};
ghost use Rattle.im_theory_tree.specs.Halves.{FitsPage};
ghost use Rattle.im_tree_search.specs.Levels.{HasLevel};
ghost use Rattle.im_smo_pages.specs.Images.{Has, held};
ghost use Rattle.im_smo_pages.specs.Parts.{CanHalve, CanSplit};
ghost use Rattle.im_smo_pages.specs.OnWay.{IsHalf};
ghost use Rattle.im_smo_pages.specs.Seen.{seen};
ghost use Rattle.im_smo_pages.specs.Kept.{HasImages, Plans};
ghost use Rattle.im_smo_split.specs.Pages.{newest_first};
ghost use Rattle.im_smo_split.specs.Steps.{Brought, HalvesInner, HalvesRoot, LeavesPending};
ghost use Rattle.im_smo_split.specs.Tops.{IsCounted};
ghost use Rattle.im_smo_split.specs.PendingSplits.{IsPending, IsRootPending};

use crate::top::Top;
use im_base_disk::Disk;
use im_base_types::{Fault, PageNo, compare};
use im_page::Page;
use im_page_writer::PageWriter;
use im_smo_pages::{Images, image};
use im_tree_search::child_in;
use std::alloc::Global;
use std::cmp::Ordering;

/// The next page to be split, of this level, with its parent.
#[derive(Clone, Copy)]
pub(crate) struct PendingSplit {
    pub(crate) level: u8,
    pub(crate) parent: PageNo,
    pub(crate) page: PageNo,
}

/// A page joins the images, and what is seen of each page is as it was. Refused as `image` is, and `Memory`; after a refusal
/// the images are of no use.
pub(crate) fn bring<D: Disk>(
    alloc: Global,
    images: &mut Images,
    writer: &mut PageWriter,
    disk: &mut D,
    number: PageNo,
) -> Result<(), Fault>
    requires ready { IsReadyWriter D.Disk writer.old disk.old }
    requires working { writer.old.failed ≡ false }
    ensures outcome { Plans D.Disk writer.old disk.old writer.new disk.new (fault_of result) }
    ensures kept { (store : AllPages) → HasPages D.Disk AreLoaded store writer.old disk.old → IsSound result (λ _. Brought store images.old number images.new) }
{
    images.law_rise();
    let page = image(alloc, images, writer, disk, number)?;
    images.put(number, page)
}

// The part of a split page that a key belongs to: p below the separator, which is the key at place n, and q from there on.
fn part_of(page: &Page, n: usize, key: &[u8], p: PageNo, q: PageNo) -> PageNo
    requires { n < length page.now.body.entries }
    ensures { IsHalf (entry_at page.now.body.entries n).0 key.now p q result }
{
    match compare(key, page.key(n)) {
        Ordering::Less => p,
        Ordering::Equal => q,
        Ordering::Greater => q,
    }
}

// Splits the inner page that is to be split, among the images: its child on the key's way is the next one.
fn part_inner(
    alloc: Global,
    images: &mut Images,
    page: &Page,
    pending: PendingSplit,
    q: PageNo,
    key: &[u8],
) -> Result<PendingSplit, Fault>
    requires inner { 1 ≤ pending.level }
    ensures halves { IfOk result (λ next. HalvesInner images.old images.new page.now.body key.now pending.parent pending.page q next.parent next.page) }
    ensures level { IfOk result (λ next. next.level + 1 ≡ pending.level) }
    ensures causes { IfErr result (λ e. (e ≡ Memory) ⊎ (e ≡ NotAStore)) }
    ensures sound { (pages : Pages) → Has images.old pending.parent → HasLevel pending.level page.now.body
        → ((c : ℕ) → FitsPage false page.now.body.entries → IsChild page.now.body key.now c → CanSplit false Inner page.now.body (held pages images.old pending.parent) q) → result ≡ Err NotAStore → ⊥ }
{
    page.law_content();
    let child = child_in(page, pending.level, key)?;
    let n = images.split_inner(alloc, page, pending.parent, pending.page, q)?;
    Ok(PendingSplit {
        level: pending.level - 1,
        parent: part_of(page, n, key, pending.page, q),
        page: child.number,
    })
}

// Splits the root, an inner page of this level, among the images: its child on the key's way is the next one.
fn part_root(
    alloc: Global,
    images: &mut Images,
    page: &Page,
    level: u8,
    left: PageNo,
    right: PageNo,
    key: &[u8],
) -> Result<PendingSplit, Fault>
    requires inner { 1 ≤ level }
    requires low { level < 255 }
    ensures halves { IfOk result (λ next. HalvesRoot images.old images.new page.now.body key.now left right next.parent next.page) }
    ensures level { IfOk result (λ next. next.level + 1 ≡ level) }
    ensures causes { IfErr result (λ e. (e ≡ Memory) ⊎ (e ≡ NotAStore)) }
    ensures sound { HasLevel level page.now.body → ((c : ℕ) → FitsPage false page.now.body.entries → IsChild page.now.body key.now c → CanHalve false Inner page.now.body) → result ≡ Err NotAStore → ⊥ }
{
    page.law_content();
    let child = child_in(page, level, key)?;
    let n = images.split_root_inner(alloc, page, left, right)?;
    Ok(PendingSplit {
        level: level - 1,
        parent: part_of(page, n, key, left, right),
        page: child.number,
    })
}

/// Splits the inner page that is to be split: its child on the key's way is the next one, and the page that was taken last is no
/// longer spare. Refused `NotAStore` where the page is none of its level or can not be split; otherwise as `image` is, and
/// `Memory`. After a refusal the images are of no use.
pub(crate) fn split_pending_inner<D: Disk>(
    alloc: Global,
    images: &mut Images,
    numbers: &mut Vec<PageNo>,
    writer: &mut PageWriter,
    disk: &mut D,
    key: &[u8],
    pending: PendingSplit,
) -> Result<PendingSplit, Fault>
    requires ready { IsReadyWriter D.Disk writer.old disk.old }
    requires working { writer.old.failed ≡ false }
    requires inner { 1 ≤ pending.level }
    requires counted { length numbers.old.items ≡ pending.level + 1 }
    ensures outcome { Plans D.Disk writer.old disk.old writer.new disk.new (fault_of result) }
    ensures kept { (dense : Bool) (store : AllPages) → HasImages D.Disk store images.old (newest_first numbers.old.items) writer.old disk.old
        → IsPending dense (seen store images.old) (newest_first numbers.old.items) key.now pending.level pending.parent pending.page → Has images.old pending.parent
        → IsSound result (λ next. LeavesPending dense store key.now images.old next images.new numbers.new.items) }
    ensures level { IfOk result (λ next. next.level + 1 ≡ pending.level) }
    ensures counted { IfOk result (λ next. length numbers.new.items ≡ next.level + 1) }
{
    let q = numbers.take_last();
    images.law_rise();
    let page = image(alloc, images, writer, disk, pending.page)?;
    part_inner(alloc, images, &page, pending, q, key)
}

/// Splits the root, an inner page of this level, into the two pages that were taken last: its child on the key's way is
/// the next one. Refused as `split_pending_inner` is.
pub(crate) fn split_pending_root<D: Disk>(
    alloc: Global,
    images: &mut Images,
    numbers: &mut Vec<PageNo>,
    writer: &mut PageWriter,
    disk: &mut D,
    key: &[u8],
    level: u8,
) -> Result<PendingSplit, Fault>
    requires ready { IsReadyWriter D.Disk writer.old disk.old }
    requires working { writer.old.failed ≡ false }
    requires inner { 1 ≤ level }
    requires low { level < 255 }
    requires counted { length numbers.old.items ≡ level + 2 }
    ensures outcome { Plans D.Disk writer.old disk.old writer.new disk.new (fault_of result) }
    ensures kept { (dense : Bool) (store : AllPages) → HasImages D.Disk store images.old (newest_first numbers.old.items) writer.old disk.old
        → IsRootPending dense (seen store images.old) (newest_first numbers.old.items) key.now level
        → IsSound result (λ next. LeavesPending dense store key.now images.old next images.new numbers.new.items) }
    ensures level { IfOk result (λ next. next.level + 1 ≡ level) }
    ensures counted { IfOk result (λ next. length numbers.new.items ≡ next.level + 1) }
{
    let right = numbers.take_last();
    let left = numbers.take_last();
    images.law_rise();
    let page = image(alloc, images, writer, disk, 1)?;
    part_root(alloc, images, &page, level, left, right, key)
}

/// The highest page that splits is the first one: its parent joins the images, or the root is split. Refused as `split_pending_inner`
/// is.
pub(crate) fn first_pending<D: Disk>(
    alloc: Global,
    images: &mut Images,
    numbers: &mut Vec<PageNo>,
    writer: &mut PageWriter,
    disk: &mut D,
    key: &[u8],
    top: Top,
) -> Result<PendingSplit, Fault>
    requires ready { IsReadyWriter D.Disk writer.old disk.old }
    requires working { writer.old.failed ≡ false }
    requires inner { top.root ≡ true → 1 ≤ top.level }
    requires low { top.root ≡ true → top.level < 255 }
    requires is_counted { IsCounted 0 top }
    requires counted { length numbers.old.items ≡ top.pages }
    ensures outcome { Plans D.Disk writer.old disk.old writer.new disk.new (fault_of result) }
    ensures kept { (dense : Bool) (store : AllPages) → HasImages D.Disk store images.old (newest_first numbers.old.items) writer.old disk.old
        → (top.root ≡ true → IsRootPending dense (seen store images.old) (newest_first numbers.old.items) key.now top.level)
        → (top.root ≡ false → IsPending dense (seen store images.old) (newest_first numbers.old.items) key.now top.level top.parent top.page)
        → IsSound result (λ next. LeavesPending dense store key.now images.old next images.new numbers.new.items) }
    ensures counted { IfOk result (λ pending. length numbers.new.items ≡ pending.level + 1) }
{
    if top.root {
        return split_pending_root(alloc, images, numbers, writer, disk, key, top.level);
    }
    bring(alloc, images, writer, disk, top.parent)?;
    Ok(PendingSplit {
        level: top.level,
        parent: top.parent,
        page: top.page,
    })
}
