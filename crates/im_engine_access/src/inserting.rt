//! Inserts.

ghost use Rattle.std.specs.Prelude.{◌≡◌, ◌≤◌, ◌⊎◌, ℕ, Bool, None, Some, length, false, true, IfErr};
ghost use Rattle.im_base_types.specs.declared.fault.Fault.TheVariants.{Memory, PagesFull};
ghost use Rattle.im_base_types.specs.Answers.{Insert};
ghost use Rattle.im_theory_log.specs.Histories.{Base};
ghost use Rattle.im_theory_log.specs.Writer.{Writer};
ghost use Rattle.im_page_writer.specs.PageWriter.{IsReadyWriter};
ghost use Rattle.im_page_writer.specs.Outcome.{fault_of, mild, no_page, Logs};
ghost use Rattle.im_theory_page.specs.Split.{HasRoom};
ghost use Rattle.im_theory_tree.specs.Search.{IsOnWay};
ghost use Rattle.im_tree_search.specs.declared.change_beside.Beside.{Beside as BesideOf};
ghost use Rattle.im_tree_search.specs.Levels.{bodies};
ghost use Rattle.im_smo_split.specs.Kept.{mild_to_split};
ghost use Rattle.im_theory_machine.specs.Table.{SameLasting, SameTable};
ghost use Rattle.im_engine_access.specs.Edits.{MayEdit, InsertKept};
ghost use Rattle.im_engine_access.specs.AtOnce.{ComesTo, MayInsert, MaySplit, PutKept, AtOnceKept};

use crate::change_plan::Coming;
use crate::inserting_beside::prepare_coming;
use crate::lock_answer::LockAnswer;
use crate::logging::log_insert;
use crate::noted::Noted;
use im_base_disk::Disk;
use im_base_txn::Transaction;
use im_base_types::{Fault, Lsn, PageNo, Rid, TxnId};
use im_engine_locks::LockTable;
use im_page_writer::PageWriter;
use im_smo_actions::BegunChange;
use im_smo_log::late;
use im_tree_search::{Beside, Sight};
use std::alloc::Global;

// Logs the record of a key that comes into its leaf, after the transaction's record at `last`.
fn put<D: Disk>(
    writer: &mut PageWriter,
    disk: &mut D,
    transaction: TxnId,
    last: Lsn,
    page: PageNo,
    key: &[u8],
    rid: Rid,
) -> Result<Noted, Fault>
    requires ready { IsReadyWriter D.Disk writer.old disk.old }
    requires owner { 1 ≤ transaction }
    requires keyed { 1 ≤ length key.now }
    requires short { length key.now ≤ 255 }
    ensures outcome { Logs D.Disk false no_page writer.old disk.old writer.new disk.new (fault_of result) }
    ensures kept { (b : Base) (base : ℕ) (s : Writer) (e undo_next : ℕ) (dense : Bool) (max : ℕ) (to : ComesTo D.Disk b base s e transaction last undo_next key.now dense max writer.old disk.old)
        → IsOnWay (bodies to.made.now) 0 key.now page → HasRoom true (bodies to.made.now page).entries (key.now, 0)
        → PutKept D.Disk b base s e transaction key.now rid dense max to.since writer.new disk.new result }
{
    let lsn = log_insert(writer, disk, transaction, last, page, key, rid)?;
    Ok(Noted {
        last: lsn,
        undo_next: lsn,
    })
}

// Logs all pages of the split that a key's leaf wants, and then the key into the page that is its leaf after it. After the first of these a
// want of memory is `Failed`.
fn split_and_put<D: Disk>(
    writer: &mut PageWriter,
    disk: &mut D,
    transaction: &Transaction,
    begun: &BegunChange,
    page: PageNo,
    key: &[u8],
    rid: Rid,
) -> Result<Noted, Fault>
    requires ready { IsReadyWriter D.Disk writer.old disk.old }
    requires working { writer.old.failed ≡ false }
    requires owner { 1 ≤ transaction.now.number }
    requires keyed { 1 ≤ length key.now }
    requires short { length key.now ≤ 255 }
    ensures outcome { Logs D.Disk true mild writer.old disk.old writer.new disk.new (fault_of result) }
    ensures kept { (b : Base) (base : ℕ) (s : Writer) (e : ℕ) (dense : Bool) (max : ℕ) (may : MaySplit D.Disk b base s e transaction.now.number transaction.now.last transaction.now.undo_next key.now dense max begun.now.change page writer.old disk.old)
        → PutKept D.Disk b base s e transaction.now.number key.now rid dense max may.since writer.new disk.new result }
{
    let last = begun.run(writer, disk)?;
    match put(writer, disk, transaction.number, last, page, key, rid) {
        Ok(noted) => Ok(noted),
        Err(fault) => Err(late(fault)),
    }
}

// Logs at once what was laid down.
fn log_at_once<D: Disk>(
    writer: &mut PageWriter,
    disk: &mut D,
    transaction: &Transaction,
    key: &[u8],
    rid: Rid,
    coming: Coming,
) -> Result<Option<Noted>, Fault>
    requires ready { IsReadyWriter D.Disk writer.old disk.old }
    requires working { writer.old.failed ≡ false }
    requires owner { 1 ≤ transaction.now.number }
    requires keyed { 1 ≤ length key.now }
    requires short { length key.now ≤ 255 }
    ensures outcome { Logs D.Disk true (mild_to_split None) writer.old disk.old writer.new disk.new (fault_of result) }
    ensures kept { (b : Base) (base : ℕ) (s : Writer) (e : ℕ) (dense : Bool) (max : ℕ) (beside : BesideOf) (may : MayInsert D.Disk b base s e transaction.now.number transaction.now.last transaction.now.undo_next key.now dense max beside coming writer.old disk.old)
        → AtOnceKept D.Disk b base s e transaction.now.number key.now rid dense max may.since writer.new disk.new result }
{
    let number = transaction.number;
    match coming {
        Coming::There => Ok(None),
        Coming::Fits(page) => {
            let noted = put(writer, disk, number, transaction.last, page, key, rid)?;
            Ok(Some(noted))
        }
        Coming::Splits(plan, leaf) => {
            let begun = plan.begin(number, transaction.last, transaction.undo_next);
            let after = split_and_put(writer, disk, transaction, &begun, leaf, key, rid)?;
            Ok(Some(after))
        }
        Coming::UsedUp => Err(Fault::Capacity),
    }
}

/// Puts a key with its row id, where it is not there yet, for a transaction that is going. Where the key is there it asks that key's lock, shared;
/// else the lock of the next name for the instant and the key's own, both against every other.
/// The leaf is split first where it lacks room, within a limit of pages. It answers what the transaction's row notes, and `None` where the
/// key is there.
///
/// It is laid down as `insert_beside` does, where no change is under way, but with the lock of the next name for the instant, and logged at
/// once. The pages of a split are planned before a lock is asked. So `PagesFull` comes, and a want of memory for the plan, before the locks,
/// `Capacity` after them, and a want of memory after the grant is `Failed`. After `Memory`, `PagesFull`, `Wait` and `Die` nobody holds
/// another lock than before.
///
/// The leaf is searched once. Where it has room and holds the next key, that is one get for each level, and the change is one more. Where
/// it lacks room, the plan gets each page of the way once more, and the record goes to the leaf that the plan names.
pub fn insert<D: Disk>(
    alloc: Global,
    writer: &mut PageWriter,
    disk: &mut D,
    locks: &mut LockTable,
    transaction: &Transaction,
    key: &[u8],
    rid: Rid,
    max: PageNo,
    dense: bool,
) -> Result<LockAnswer<Option<Noted>>, Fault>
    requires ready { IsReadyWriter D.Disk writer.old disk.old }
    requires working { writer.old.failed ≡ false }
    requires owner { 1 ≤ transaction.now.number }
    requires keyed { 1 ≤ length key.now }
    requires short { length key.now ≤ 255 }
    ensures outcome { Logs D.Disk true (mild_to_split (Some max)) writer.old disk.old writer.new disk.new (fault_of result) }
    ensures kept { (b : Base) (base : ℕ) (s : Writer) (e : ℕ) → MayEdit D.Disk b base s e transaction.now.number transaction.now.last transaction.now.undo_next (Insert key.now rid) locks.old writer.old disk.old
        → InsertKept D.Disk b base s e transaction.now.number key.now rid dense max locks.old locks.new disk.old writer.new disk.new result }
    ensures table { IfErr result (λ e. (e ≡ Memory) ⊎ (e ≡ PagesFull) → SameTable locks.old locks.new) }
    ensures lasting { IfErr result (λ e. (e ≡ Memory) ⊎ (e ≡ PagesFull) → SameLasting locks.old locks.new) }
{
    let number = transaction.number;
    let sight = prepare_coming(
        alloc,
        writer,
        disk,
        locks,
        number,
        key,
        max,
        dense,
        false,
        Beside::none(),
    )?;
    let answer = match sight {
        Sight::Seen(answer) => answer,
        Sight::Hidden => return Err(Fault::Failed),
    };
    let coming = match answer {
        LockAnswer::Granted(coming) => coming,
        LockAnswer::Wait(holder) => return Ok(LockAnswer::Wait(holder)),
        LockAnswer::Die => return Ok(LockAnswer::Die),
    };
    match log_at_once(writer, disk, transaction, key, rid, coming) {
        Ok(noted) => Ok(LockAnswer::Granted(noted)),
        Err(fault) => Err(late(fault)),
    }
}
