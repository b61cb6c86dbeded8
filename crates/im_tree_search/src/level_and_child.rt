//! What a page on a key's way says: its level, and its child on the way.

ghost use Rattle.std.specs.Prelude.{◌≡◌, ◌<◌, ◌≤◌, length, IfErr, IfOk, IsNone, IfSome};
ghost use Rattle.im_base_types.specs.declared.fault.Fault.TheVariants.{NotAStore};
ghost use Rattle.im_base_types.specs.declared.page_kind.PageKind.TheVariants.{Inner};
ghost use Rattle.im_theory_page.specs.Entry.{entry_at};
ghost use Rattle.im_theory_page.specs.Child.{IsChild, StartAbove};
ghost use Rattle.im_page_writer.specs.PageWriter.{IsReadyWriter};
ghost use Rattle.im_page_writer.specs.Outcome.{fault_of, AllPages, AreLoaded, HasPages, IsSound, Reads};
ghost use Rattle.im_tree_search.specs.Levels.{HasLevel};
ghost use Rattle.im_tree_search.specs.Children.{IsChildOf};

use crate::child_place::{Child, ChildPlace};
use crate::levels::has_level;
use im_base_disk::Disk;
use im_base_types::{Fault, PageNo};
use im_page::Page;
use im_page_writer::PageWriter;

// The place of the entry of an inner page's child on a key's way; none where it is the leftmost one.
fn child_entry(page: &Page, key: &[u8]) -> Option<usize>
    ensures entry { IfSome result (λ i. (i < length page.now.body.entries) × IsChild page.now.body key.now (entry_at page.now.body.entries i).1) }
    ensures leftmost { IsNone result → StartAbove key.now page.now.body.entries × IsChild page.now.body key.now page.now.body.leftmost }
{
    page.law_content();
    match page.find(key) {
        Ok(i) => Some(i),
        Err(0) => None,
        Err(i) => Some(i - 1),
    }
}

// The child of an inner page on a key's way.
fn child_on_way(page: &Page, key: &[u8]) -> Child
    requires { page.now.body.kind ≡ Inner }
    ensures { IsChildOf page.now.body key.now result }
{
    if page.len() == 0 {
        return Child {
            number: page.leftmost(),
            place: ChildPlace::Only,
        };
    }
    match child_entry(page, key) {
        Some(i) => Child {
            number: page.value(i) as PageNo,
            place: ChildPlace::Entry(i),
        },
        None => Child {
            number: page.leftmost(),
            place: ChildPlace::Leftmost,
        },
    }
}

/// The child of an inner page of this level on a key's way. Refused `NotAStore` where the page is none.
pub fn child_in(page: &Page, level: u8, key: &[u8]) -> Result<Child, Fault>
    ensures child { IfOk result (IsChildOf page.now.body key.now) }
    ensures level { IfOk result (λ _. HasLevel level page.now.body) }
    ensures refused { IfErr result (λ e. e ≡ NotAStore) }
    ensures sound { 1 ≤ level → HasLevel level page.now.body → IfErr result (λ _. ⊥) }
{
    if level == 0 || !has_level(page, level) {
        return Err(Fault::NotAStore);
    }
    Ok(child_on_way(page, key))
}

// The level of a page of the tree.
fn level_in(page: &Page) -> Result<u8, Fault>
    ensures level { IfOk result (λ h. h ≡ page.now.body.level) }
    ensures refused { IfErr result (λ e. e ≡ NotAStore) }
    ensures sound { HasLevel page.now.body.level page.now.body → IfErr result (λ _. ⊥) }
{
    let level = page.level();
    if !has_level(page, level) {
        return Err(Fault::NotAStore);
    }
    Ok(level)
}

/// The level of a page of the tree. Refused as `child_of` is.
pub fn level_of<D: Disk>(writer: &mut PageWriter, disk: &mut D, number: PageNo) -> Result<u8, Fault>
    requires ready { IsReadyWriter D.Disk writer.old disk.old }
    ensures outcome { Reads D.Disk writer.old disk.old writer.new disk.new (fault_of result) }
    ensures kept { (pages : AllPages) → HasPages D.Disk AreLoaded pages writer.old disk.old → HasLevel (pages number).body.level (pages number).body
        → IsSound result (λ h. h ≡ (pages number).body.level) }
{
    let frame = writer.get(disk, number)?;
    level_in(writer.page(frame))
}

/// The child on a key's way of an inner page, which has to be of this level. Refused `NotAStore` where it is not, otherwise as
/// `PageWriter::get` is.
pub fn child_of<D: Disk>(
    writer: &mut PageWriter,
    disk: &mut D,
    number: PageNo,
    level: u8,
    key: &[u8],
) -> Result<Child, Fault>
    requires ready { IsReadyWriter D.Disk writer.old disk.old }
    ensures outcome { Reads D.Disk writer.old disk.old writer.new disk.new (fault_of result) }
    ensures kept { (pages : AllPages) → HasPages D.Disk AreLoaded pages writer.old disk.old → 1 ≤ level → HasLevel level (pages number).body
        → IsSound result (IsChildOf (pages number).body key.now) }
{
    let frame = writer.get(disk, number)?;
    child_in(writer.page(frame), level, key)
}
