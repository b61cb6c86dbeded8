//! Deletes.

ghost use Rattle.std.specs.Prelude.{◌≡◌, ◌≤◌, ℕ, length, false, true, IfErr};
ghost use Rattle.im_base_types.specs.declared.fault.Fault.TheVariants.{Memory};
ghost use Rattle.im_base_types.specs.Answers.{Delete};
ghost use Rattle.im_theory_log.specs.Histories.{Base};
ghost use Rattle.im_theory_log.specs.Writer.{Writer};
ghost use Rattle.im_page_writer.specs.PageWriter.{IsReadyWriter};
ghost use Rattle.im_page_writer.specs.Outcome.{fault_of, mild, Logs};
ghost use Rattle.im_theory_machine.specs.Table.{SameLasting, SameTable};
ghost use Rattle.im_engine_access.specs.Edits.{MayEdit, DeleteKept};

use crate::begun::Deleting;
use crate::deleting_beside::delete_beside;
use crate::lock_answer::LockAnswer;
use crate::noted::Noted;
use im_base_disk::Disk;
use im_base_txn::Transaction;
use im_base_types::Fault;
use im_engine_locks::LockTable;
use im_page_writer::PageWriter;
use im_smo_log::late;
use im_tree_search::{Beside, Sight};
use std::alloc::Global;

/// Drops a key, for a transaction that is going, where no structure change is under way. Its locks are those that the access asks. A leaf other than
/// the root that is left empty is taken out of the tree, after the key's record: it is what `delete_beside` begins, made at once. It answers what the
/// transaction's row notes, and `None` where the key is not there.
///
/// What that change wants of memory is had before a lock is asked. A want of memory after the grant is `Failed`, and comes only where the leaf was left
/// empty. After `Memory`, `Wait` and `Die` nobody holds another lock than before.
pub fn delete<D: Disk>(
    alloc: Global,
    writer: &mut PageWriter,
    disk: &mut D,
    locks: &mut LockTable,
    transaction: &Transaction,
    key: &[u8],
) -> Result<LockAnswer<Option<Noted>>, Fault>
    requires ready { IsReadyWriter D.Disk writer.old disk.old }
    requires working { writer.old.failed ≡ false }
    requires owner { 1 ≤ transaction.now.number }
    requires keyed { 1 ≤ length key.now }
    requires short { length key.now ≤ 255 }
    ensures outcome { Logs D.Disk true mild writer.old disk.old writer.new disk.new (fault_of result) }
    ensures kept { (b : Base) (base : ℕ) (s : Writer) (e : ℕ) → MayEdit D.Disk b base s e transaction.now.number transaction.now.last transaction.now.undo_next (Delete key.now) locks.old writer.old disk.old
        → DeleteKept D.Disk b base s e transaction.now.number transaction.now.last key.now locks.old locks.new disk.old writer.new disk.new result }
    ensures table { IfErr result (λ e. e ≡ Memory → SameTable locks.old locks.new) }
    ensures lasting { IfErr result (λ e. e ≡ Memory → SameLasting locks.old locks.new) }
{
    let sight = delete_beside(alloc, writer, disk, locks, transaction, key, Beside::none())?;
    let answer = match sight {
        Sight::Seen(answer) => answer,
        Sight::Hidden => return Err(Fault::Failed),
    };
    let deleting = match answer {
        LockAnswer::Granted(deleting) => deleting,
        LockAnswer::Wait(holder) => return Ok(LockAnswer::Wait(holder)),
        LockAnswer::Die => return Ok(LockAnswer::Die),
    };
    match deleting {
        Deleting::Gone => Ok(LockAnswer::Granted(None)),
        Deleting::Taken(lsn) => Ok(LockAnswer::Granted(Some(Noted {
            last: lsn,
            undo_next: lsn,
        }))),
        Deleting::Dropping(begun) => {
            let lsn = begun.change().undo_next();
            match begun.run(writer, disk) {
                Ok(last) => Ok(LockAnswer::Granted(Some(Noted {
                    last,
                    undo_next: lsn,
                }))),
                Err(fault) => Err(late(fault)),
            }
        }
    }
}
