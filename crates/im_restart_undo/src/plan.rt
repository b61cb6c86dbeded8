//! How one key record of a transaction can be taken back.

ghost use Rattle.std.specs.Prelude.{◌≡◌, ◌≤◌, ◌⊎◌, ℕ, [], true, false, length, Ok, IfErr, IfOk};
ghost use Rattle.im_base_types.specs.declared.fault.Fault.TheVariants.{Capacity, Memory};
ghost use Rattle.im_base_types.specs.Records.{InsertKey, DeleteKey};
ghost use Rattle.im_theory_log.specs.Transactions.{is_key};
ghost use Rattle.im_log_record.specs.Entry.{view, page_of};
ghost use Rattle.im_log_record.specs.Spelling.{IsEntry};
ghost use Rattle.im_log.specs.Whats.{what_of};
ghost use Rattle.im_page_writer.specs.PageWriter.{IsReadyWriter};
ghost use Rattle.im_page_writer.specs.Outcome.{fault_of, AllPages, AreLoaded, Outcome};
ghost use Rattle.im_smo_pages.specs.Kept.{mild_to_take, Plans};
ghost use Rattle.im_tree_search.specs.declared.sight.Sight.TheVariants.{Seen, Hidden};
ghost use Rattle.im_tree_search.specs.Levels.{bodies_of};
ghost use Rattle.im_tree_search.specs.Sights.{is_done, IfSeen};
ghost use Rattle.im_smo_actions.specs.GoingBeside.{HasWholeTreeBut};
ghost use Rattle.im_restart_undo.specs.Place.{HasWholeTree};
ghost use Rattle.im_restart_undo.specs.Planning.{BackPlanned, NeedsChange, PlannedAlone};

use crate::back::Back;
use crate::memory_fault::wants_memory;
use crate::place::{leaf_around, leaf_with};
use im_base_disk::Disk;
use im_base_types::{Fault, PageNo};
use im_log_record::Record;
use im_page_writer::PageWriter;
use im_smo_actions::{has_room, is_last_entry};
use im_smo_drop_leaf::plan_delete_last;
use im_smo_split::plan_split;
use im_tree_search::{Beside, Sight};
use std::alloc::Global;

// How a key is taken out of the leaf that it is in now. A leaf other than the root that is left empty leaves the tree.
fn plan_out<D: Disk>(
    alloc: Global,
    writer: &mut PageWriter,
    disk: &mut D,
    page: PageNo,
    key: &[u8],
    beside: Beside<'_>,
) -> Result<Sight<Back>, Fault>
    requires ready { IsReadyWriter D.Disk writer.old disk.old }
    requires working { writer.old.failed ≡ false }
    ensures outcome { Plans D.Disk writer.old disk.old writer.new disk.new (fault_of result) }
    ensures kept { (pages : AllPages) (rid : ℕ) → HasWholeTreeBut D.Disk pages beside.entry writer.old disk.old
        → BackPlanned pages beside.entry page (InsertKey key.now rid) result }
    ensures first { is_done beside.entry page ≡ true → result ≡ Ok Hidden }
    ensures open { beside.entry.pages.now ≡ [] → beside.entry.done ≡ 0 → IfOk result (IfSeen (λ _. Unit) ⊥) }
    ensures alone { IfErr result (λ e. (e ≡ Memory) ⊎ (e ≡ Capacity) → beside.entry.pages.now ≡ []) }
{
    let Sight::Seen(frame) = leaf_with(writer, disk, page, key, beside)? else {
        return Ok(Sight::Hidden);
    };
    if beside.has(frame.number) {
        return Ok(Sight::Hidden);
    }
    if !is_last_entry(writer, frame) {
        return Ok(Sight::Seen(Back::Plain(frame.number)));
    }
    if !beside.is_none() {
        return Ok(Sight::Hidden);
    }
    let images = plan_delete_last(alloc, writer, disk, key)?;
    Ok(Sight::Seen(Back::Drop(frame.number, images)))
}

// How a key is put back into the leaf in whose range it lies now, which is split where it lacks room for the key.
fn plan_in<D: Disk>(
    alloc: Global,
    writer: &mut PageWriter,
    disk: &mut D,
    page: PageNo,
    key: &[u8],
    beside: Beside<'_>,
) -> Result<Sight<Back>, Fault>
    requires ready { IsReadyWriter D.Disk writer.old disk.old }
    requires working { writer.old.failed ≡ false }
    requires short { length key.now ≤ 255 }
    ensures outcome { Outcome D.Disk AreLoaded mild_to_take writer.old disk.old writer.new disk.new (fault_of result) }
    ensures kept { (pages : AllPages) (rid : ℕ) → HasWholeTreeBut D.Disk pages beside.entry writer.old disk.old
        → BackPlanned pages beside.entry page (DeleteKey key.now rid) result }
    ensures first { is_done beside.entry page ≡ true → result ≡ Ok Hidden }
    ensures open { beside.entry.pages.now ≡ [] → beside.entry.done ≡ 0 → IfOk result (IfSeen (λ _. Unit) ⊥) }
    ensures alone { IfErr result (λ e. (e ≡ Memory) ⊎ (e ≡ Capacity) → beside.entry.pages.now ≡ []) }
{
    let Sight::Seen(frame) = leaf_around(writer, disk, page, key, beside)? else {
        return Ok(Sight::Hidden);
    };
    if beside.has(frame.number) {
        return Ok(Sight::Hidden);
    }
    if has_room(writer, frame, key) {
        return Ok(Sight::Seen(Back::Plain(frame.number)));
    }
    if !beside.is_none() {
        return Ok(Sight::Hidden);
    }
    let plan = plan_split(alloc, writer, disk, key, None, false)?;
    Ok(Sight::Seen(Back::Split(plan)))
}

/// How one key record of a transaction can be taken back, beside a structure change of another that may be under way: the key is put back
/// into the leaf in whose range it lies now, or taken out of it, wherever splits have moved it since. Nothing is changed.
///
/// A leaf that lacks room for a key that comes back is split first, whatever limit of pages there is, and a leaf other than the root that is
/// left empty is taken out of the tree.
///
/// It is hidden where the change beside has made the page that the record names, which is looked at first, or a page on the way to
/// its key; where the key's leaf is one of its pages; and where a structure change is needed beside it. Beside none it never is.
///
/// Refused `Capacity` where a key that comes back finds its leaf without room, and page numbers or levels are used up; `Memory` where a
/// structure change is needed; otherwise as `PageWriter::get` is.
pub fn plan_back<D: Disk>(
    alloc: Global,
    writer: &mut PageWriter,
    disk: &mut D,
    record: &Record,
    beside: Beside<'_>,
) -> Result<Sight<Back>, Fault>
    requires entry { IsEntry (view record.now) }
    requires ready { IsReadyWriter D.Disk writer.old disk.old }
    requires working { writer.old.failed ≡ false }
    requires key { is_key (what_of (view record.now)) ≡ true }
    ensures outcome { Outcome D.Disk AreLoaded mild_to_take writer.old disk.old writer.new disk.new (fault_of result) }
    ensures kept { (pages : AllPages) → HasWholeTreeBut D.Disk pages beside.entry writer.old disk.old
        → BackPlanned pages beside.entry (page_of (view record.now)) (what_of (view record.now)) result }
    ensures first { is_done beside.entry (page_of (view record.now)) ≡ true → result ≡ Ok Hidden }
    ensures open { beside.entry.pages.now ≡ [] → beside.entry.done ≡ 0 → IfOk result (IfSeen (λ _. Unit) ⊥) }
    ensures alone { IfErr result (λ e. (e ≡ Memory) ⊎ (e ≡ Capacity) → beside.entry.pages.now ≡ []) }
{
    match record {
        Record::InsertKey { page, key, .. } => plan_out(alloc, writer, disk, *page, key, beside),
        Record::DeleteKey { page, key, .. } => plan_in(alloc, writer, disk, *page, key, beside),
        _ => Err(Fault::NotAStore),
    }
}

// What is planned where memory is wanted for it: a key that goes is taken out of its leaf, which stays.
fn plan_short<D: Disk>(
    writer: &mut PageWriter,
    disk: &mut D,
    record: &Record,
) -> Result<Back, Fault>
    requires ready { IsReadyWriter D.Disk writer.old disk.old }
    requires working { writer.old.failed ≡ false }
    requires key { is_key (what_of (view record.now)) ≡ true }
    ensures outcome { Outcome D.Disk AreLoaded mild_to_take writer.old disk.old writer.new disk.new (fault_of result) }
    ensures kept { (pages : AllPages) → HasWholeTree D.Disk pages writer.old disk.old → NeedsChange (bodies_of pages) (what_of (view record.now))
        → PlannedAlone pages (what_of (view record.now)) result }
{
    match record {
        Record::InsertKey { page, key, .. } => {
            let sight = leaf_with(writer, disk, *page, key, Beside::none())?;
            match sight {
                Sight::Seen(frame) => Ok(Back::Plain(frame.number)),
                Sight::Hidden => Err(Fault::NotAStore),
            }
        }
        _ => Err(Fault::Memory),
    }
}

// What is seen where nothing is hidden.
fn seen_alone(sight: Sight<Back>) -> Result<Back, Fault>
    requires { IfSeen (λ _. Unit) ⊥ sight }
    ensures seen { IfOk result (λ back. sight ≡ Seen back) }
    ensures never { IfErr result (λ _. ⊥) }
{
    match sight {
        Sight::Seen(back) => Ok(back),
        Sight::Hidden => Err(Fault::NotAStore),
    }
}

/// The same where no structure change is under way. For want of memory a leaf that is left empty stays.
pub(crate) fn plan_alone<D: Disk>(
    alloc: Global,
    writer: &mut PageWriter,
    disk: &mut D,
    record: &Record,
) -> Result<Back, Fault>
    requires entry { IsEntry (view record.now) }
    requires ready { IsReadyWriter D.Disk writer.old disk.old }
    requires working { writer.old.failed ≡ false }
    requires key { is_key (what_of (view record.now)) ≡ true }
    ensures outcome { Outcome D.Disk AreLoaded mild_to_take writer.old disk.old writer.new disk.new (fault_of result) }
    ensures kept { (pages : AllPages) → HasWholeTree D.Disk pages writer.old disk.old → PlannedAlone pages (what_of (view record.now)) result }
{
    match plan_back(alloc, writer, disk, record, Beside::none()) {
        Ok(sight) => seen_alone(sight),
        Err(fault) => {
            if wants_memory(fault) {
                return plan_short(writer, disk, record);
            }
            Err(fault)
        }
    }
}
