//! Deletes beside a structure change of another, which may begin one of their own that goes on over several steps.

ghost use Rattle.std.specs.Prelude.{◌≡◌, ◌≢◌, ◌≤◌, ℕ, [], Some, length, false, is_some, IfErr, OnErr};
ghost use Rattle.std.specs.FinMap.{entries, get};
ghost use Rattle.im_base_types.specs.declared.fault.Fault.TheVariants.{Memory};
ghost use Rattle.im_base_types.specs.Answers.{Delete};
ghost use Rattle.im_base_types.specs.Maps.{IndexMap};
ghost use Rattle.im_theory_log.specs.Histories.{Base};
ghost use Rattle.im_theory_log.specs.Writer.{Writer};
ghost use Rattle.im_page_pool.specs.Pool.{page_at, IsAt};
ghost use Rattle.im_page_writer.specs.PageWriter.{IsReadyWriter};
ghost use Rattle.im_page_writer.specs.Outcome.{fault_of, mild, no_page, AllPages, IsSound, Logs};
ghost use Rattle.im_theory_machine.specs.Table.{SameLasting, SameTable};
ghost use Rattle.im_theory_tree.specs.Levels.{walk};
ghost use Rattle.im_theory_tree.specs.Search.{IsOnWay};
ghost use Rattle.im_tree_search.specs.declared.change_beside.Beside.{Beside as BesideOf};
ghost use Rattle.im_tree_search.specs.Found.{IsReached};
ghost use Rattle.im_tree_search.specs.Levels.{HasLevel, bodies_of};
ghost use Rattle.im_tree_search.specs.Sights.{HasTreeBut, IfSeen};
ghost use Rattle.im_smo_actions.specs.GoingBeside.{HasWholeTreeBut};
ghost use Rattle.im_engine_access.specs.Barred.{TreeCause};
ghost use Rattle.im_engine_access.specs.ChangePlans.{IsLeavingDecided, LeavingKept, is_there_for};
ghost use Rattle.im_engine_access.specs.EditsBeside.{MayEditBeside, DeleteBesideKept, MayLeave, LeavingLogKept};
ghost use Rattle.im_engine_access.specs.LockCalls.{AsksLocks};

use crate::asking::{name_in, outcome_of};
use crate::begun::Deleting;
use crate::change_plan::Leaving;
use crate::changes::rid_in;
use crate::lock_answer::LockAnswer;
use crate::logging::log_delete;
use im_base_disk::Disk;
use im_base_txn::Transaction;
use im_base_types::{Fault, PageNo, Rid, TxnId};
use im_engine_locks::{LockTable, delete_row};
use im_page_pool::Frame;
use im_page_writer::PageWriter;
use im_smo_actions::{is_last_entry, plan_change};
use im_smo_drop_leaf::plan_delete_last;
use im_tree_search::{Beside, Sight, leaf_beside, next_in_leaf_beside, tree_page};
use std::alloc::Global;

// ---- in front of the grant

// Whether the key is there.
fn goes(leaving: &Leaving) -> bool
    ensures { result ≡ is_there_for leaving.now }
{
    match leaving {
        Leaving::Gone => false,
        _ => true,
    }
}

// Asks what a delete asks, of a key whose leaf is held.
fn ask_leaving<D: Disk>(
    writer: &mut PageWriter,
    disk: &mut D,
    locks: &mut LockTable,
    transaction: TxnId,
    held: Frame,
    key: &[u8],
    leaving: Leaving,
    beside: Beside<'_>,
) -> Result<Sight<LockAnswer<Leaving>>, Fault>
    requires ready { IsReadyWriter D.Disk writer.old disk.old }
    requires working { writer.old.failed ≡ false }
    requires at { IsAt writer.old.pool held }
    requires leaf { HasLevel 0 (page_at writer.old.pool held.number).body }
    ensures outcome { AsksLocks D.Disk writer.old disk.old writer.new disk.new (fault_of result) }
    ensures kept { (pages : AllPages) (m : IndexMap) → HasTreeBut D.Disk pages beside.entry writer.old disk.old → IsReached pages key.now 0 held.number writer.old.pool → walk (bodies_of pages) ≡ entries m → is_some (get m key.now) ≡ is_there_for leaving
        → IsSound result (IfSeen (IsLeavingDecided (λ x. x ≡ leaving) locks.old transaction key.now m locks.new) (TreeCause (bodies_of pages) beside.entry (Delete key.now) m × (locks.new ≡ locks.old))) }
    ensures table { OnErr result (SameTable locks.old locks.new) }
    ensures lasting { OnErr result (SameLasting locks.old locks.new) }
{
    let Sight::Seen((leaf, next)) = next_in_leaf_beside(writer, disk, held, key, beside)? else {
        return Ok(Sight::Hidden);
    };
    let row = delete_row(key, goes(&leaving), name_in(writer.page(leaf), &next));
    let verdict = locks.try_all(transaction, row.as_slice())?;
    Ok(Sight::Seen(outcome_of(verdict, leaving)))
}

// Plans that the leaf of a key, which has nothing else, leaves the tree, with no change under way, and asks the key's locks after it.
fn prepare_emptying<D: Disk>(
    alloc: Global,
    writer: &mut PageWriter,
    disk: &mut D,
    locks: &mut LockTable,
    transaction: TxnId,
    page: PageNo,
    key: &[u8],
    rid: Rid,
    beside: Beside<'_>,
) -> Result<Sight<LockAnswer<Leaving>>, Fault>
    requires ready { IsReadyWriter D.Disk writer.old disk.old }
    requires working { writer.old.failed ≡ false }
    ensures outcome { AsksLocks D.Disk writer.old disk.old writer.new disk.new (fault_of result) }
    ensures kept { (pages : AllPages) (m : IndexMap) → HasWholeTreeBut D.Disk pages beside.entry writer.old disk.old → walk (bodies_of pages) ≡ entries m → get m key.now ≡ Some rid
        → IsOnWay (bodies_of pages) 0 key.now page → page ≢ 1 → length (bodies_of pages page).entries ≡ 1 → beside.entry.pages.now ≡ []
        → LeavingKept pages beside.entry transaction key.now m locks.old locks.new result }
    ensures table { OnErr result (SameTable locks.old locks.new) }
    ensures lasting { OnErr result (SameLasting locks.old locks.new) }
{
    let images = plan_delete_last(alloc, writer, disk, key)?;
    let plan = plan_change(alloc, writer, disk, images)?;
    let held = tree_page(writer, disk, page, 0)?;
    let leaving = Leaving::Empties(page, rid, plan);
    ask_leaving(writer, disk, locks, transaction, held, key, leaving, beside)
}

// Lays a delete down: the key's leaf is searched, the change planned that takes the leaf out of the tree where it is left empty, and then
// the locks are asked. After a refusal nobody holds another lock than before.
fn prepare_leaving<D: Disk>(
    alloc: Global,
    writer: &mut PageWriter,
    disk: &mut D,
    locks: &mut LockTable,
    transaction: TxnId,
    key: &[u8],
    beside: Beside<'_>,
) -> Result<Sight<LockAnswer<Leaving>>, Fault>
    requires ready { IsReadyWriter D.Disk writer.old disk.old }
    requires working { writer.old.failed ≡ false }
    ensures outcome { AsksLocks D.Disk writer.old disk.old writer.new disk.new (fault_of result) }
    ensures kept { (pages : AllPages) (m : IndexMap) → HasWholeTreeBut D.Disk pages beside.entry writer.old disk.old → walk (bodies_of pages) ≡ entries m
        → LeavingKept pages beside.entry transaction key.now m locks.old locks.new result }
    ensures table { OnErr result (SameTable locks.old locks.new) }
    ensures lasting { OnErr result (SameLasting locks.old locks.new) }
{
    let Sight::Seen(leaf) = leaf_beside(writer, disk, key, beside)? else {
        return Ok(Sight::Hidden);
    };
    let found = rid_in(writer.page(leaf), key);
    let Some(rid) = found else {
        let leaving = Leaving::Gone;
        return ask_leaving(writer, disk, locks, transaction, leaf, key, leaving, beside);
    };
    if beside.has(leaf.number) {
        return Ok(Sight::Hidden);
    }
    if !is_last_entry(writer, leaf) {
        let leaving = Leaving::Takes(leaf.number, rid);
        return ask_leaving(writer, disk, locks, transaction, leaf, key, leaving, beside);
    }
    if !beside.is_none() {
        return Ok(Sight::Hidden);
    }
    let page = leaf.number;
    prepare_emptying(
        alloc,
        writer,
        disk,
        locks,
        transaction,
        page,
        key,
        rid,
        beside,
    )
}

// ---- after it

// Logs what was laid down.
fn log_leaving<D: Disk>(
    writer: &mut PageWriter,
    disk: &mut D,
    transaction: &Transaction,
    key: &[u8],
    leaving: Leaving,
) -> Result<Deleting, Fault>
    requires ready { IsReadyWriter D.Disk writer.old disk.old }
    requires working { writer.old.failed ≡ false }
    requires owner { 1 ≤ transaction.now.number }
    requires keyed { 1 ≤ length key.now }
    requires short { length key.now ≤ 255 }
    ensures outcome { Logs D.Disk false no_page writer.old disk.old writer.new disk.new (fault_of result) }
    ensures kept { (b : Base) (base : ℕ) (s : Writer) (e : ℕ) (beside : BesideOf) (may : MayLeave D.Disk b base s e transaction.now.number transaction.now.last transaction.now.undo_next key.now beside leaving writer.old disk.old)
        → LeavingLogKept D.Disk b base s e transaction.now.number transaction.now.last key.now beside may.since writer.new disk.new result }
{
    let number = transaction.number;
    match leaving {
        Leaving::Gone => Ok(Deleting::Gone),
        Leaving::Takes(page, rid) => {
            let lsn = log_delete(writer, disk, number, transaction.last, page, key, rid)?;
            Ok(Deleting::Taken(lsn))
        }
        Leaving::Empties(page, rid, plan) => {
            let lsn = log_delete(writer, disk, number, transaction.last, page, key, rid)?;
            Ok(Deleting::Dropping(plan.begin(number, lsn, lsn)))
        }
    }
}

/// What `delete` answers of a store whose structure changes go on over several steps, beside one of another transaction. Where the key's leaf
/// is left empty and not the root, and no change is under way, the key's record is logged, and a change begins that takes the leaf out of the
/// tree, no page of which is logged: it goes on by `BegunChange::step`, and `Change::close` ends it.
///
/// It is hidden where a page that is made stands on the key's way, or where the walk to the next key comes to; where the key is there, and its
/// leaf a page of the change beside; and where its leaf would be left empty beside one. Then no lock was asked.
///
/// What the change wants of memory is had before a lock is asked. After `Memory`, `Wait` and `Die` nobody holds another lock than before.
pub fn delete_beside<D: Disk>(
    alloc: Global,
    writer: &mut PageWriter,
    disk: &mut D,
    locks: &mut LockTable,
    transaction: &Transaction,
    key: &[u8],
    beside: Beside<'_>,
) -> Result<Sight<LockAnswer<Deleting>>, Fault>
    requires ready { IsReadyWriter D.Disk writer.old disk.old }
    requires working { writer.old.failed ≡ false }
    requires owner { 1 ≤ transaction.now.number }
    requires keyed { 1 ≤ length key.now }
    requires short { length key.now ≤ 255 }
    ensures outcome { Logs D.Disk false mild writer.old disk.old writer.new disk.new (fault_of result) }
    ensures kept { (b : Base) (base : ℕ) (s : Writer) (e : ℕ) → MayEditBeside D.Disk b base s e transaction.now.number transaction.now.last transaction.now.undo_next (Delete key.now) beside.entry locks.old writer.old disk.old
        → DeleteBesideKept D.Disk b base s e transaction.now.number transaction.now.last key.now beside.entry locks.old locks.new disk.old writer.new disk.new result }
    ensures table { IfErr result (λ e. e ≡ Memory → SameTable locks.old locks.new) }
    ensures lasting { IfErr result (λ e. e ≡ Memory → SameLasting locks.old locks.new) }
{
    let number = transaction.number;
    let Sight::Seen(answer) = prepare_leaving(alloc, writer, disk, locks, number, key, beside)?
    else {
        return Ok(Sight::Hidden);
    };
    let leaving = match answer {
        LockAnswer::Granted(leaving) => leaving,
        LockAnswer::Wait(holder) => return Ok(Sight::Seen(LockAnswer::Wait(holder))),
        LockAnswer::Die => return Ok(Sight::Seen(LockAnswer::Die)),
    };
    let deleting = log_leaving(writer, disk, transaction, key, leaving)?;
    Ok(Sight::Seen(LockAnswer::Granted(deleting)))
}
