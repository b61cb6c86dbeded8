//! The next record that a transaction has to undo.

ghost use Rattle.std.specs.Prelude.{◌≡◌, ◌≢◌, ◌≤◌, ◌<◌, ℕ, length, false, IfOk, IfSome};
ghost use Rattle.im_theory_log.specs.Histories.{Base};
ghost use Rattle.im_theory_log.specs.Writer.{Writer};
ghost use Rattle.im_base_disk.specs.Runs.{Reads};
ghost use Rattle.im_page_writer.specs.PageWriter.{IsReadyWriter};
ghost use Rattle.im_page_writer.specs.Outcome.{fault_of, none_mild, IsSound};
ghost use Rattle.im_restart_undo.specs.GoingBeside.{IsGoingBeside};
ghost use Rattle.im_engine_rollback.specs.Ends.{TurnOutcome};
ghost use Rattle.im_engine_rollback.specs.Going.{Finds, GoesOnAt, ReadOne};

use im_base_disk::Disk;
use im_base_types::{Fault, Lsn, TxnId};
use im_log_record::decode;
use im_page_writer::PageWriter;
use im_restart_analysis::{is_key_record, undo_next_after};

// Reads the record of a transaction at an LSN: `None` where it is what is undone next, else where undo goes on.
fn read_one<D: Disk>(
    writer: &mut PageWriter,
    disk: &mut D,
    transaction: TxnId,
    lsn: Lsn,
    room: &mut [u8],
) -> Result<Option<Lsn>, Fault>
    requires room { 16384 ≤ length room.old }
    requires ready { IsReadyWriter D.Disk writer.old disk.old }
    requires working { writer.old.failed ≡ false }
    ensures outcome { TurnOutcome D.Disk none_mild writer.old writer.new disk.new (fault_of result) }
    ensures room { length room.new ≡ length room.old }
    ensures kept { (b : Base) (base : ℕ) (s : Writer) (e last undo_next : ℕ) → IsGoingBeside D.Disk b base s e transaction last undo_next writer.old disk.old → GoesOnAt transaction lsn s.log → lsn ≢ 0
        → IsSound result (ReadOne D.Disk b base s transaction lsn writer.new disk.new) }
    ensures reads { Reads D.Disk disk.old disk.new }
    ensures falls { IfOk result (λ next. IfSome next (λ l. l < lsn)) }
{
    let size = writer.read_at(disk, lsn, room)?;
    let record = decode(&room[..size])?;
    if record.transaction() != transaction {
        return Err(Fault::NotAStore);
    }
    if is_key_record(&record) {
        return Ok(None);
    }
    let next = undo_next_after(&record, lsn)?;
    Ok(Some(next))
}

/// The LSN of the next record that a transaction has to undo, 0 where nothing is left: the first insert or delete of a key that is
/// found from an LSN on, over compensations and ends of structure changes.
///
/// Refused `NotAStore` where a record is none of these, is another transaction's, or leads to no earlier one; otherwise as
/// `PageWriter::read_at` is.
pub(crate) fn next_key_record<D: Disk>(
    writer: &mut PageWriter,
    disk: &mut D,
    transaction: TxnId,
    from: Lsn,
    room: &mut [u8],
) -> Result<Lsn, Fault>
    requires room { 16384 ≤ length room.old }
    requires ready { IsReadyWriter D.Disk writer.old disk.old }
    requires working { writer.old.failed ≡ false }
    ensures outcome { TurnOutcome D.Disk none_mild writer.old writer.new disk.new (fault_of result) }
    ensures room { length room.new ≡ length room.old }
    ensures kept { (b : Base) (base : ℕ) (s : Writer) (e last : ℕ) → IsGoingBeside D.Disk b base s e transaction last from writer.old disk.old
        → IsSound result (Finds D.Disk b base s transaction writer.new disk.new) }
    ensures reads { Reads D.Disk disk.old disk.new }
{
    let mut lsn = from;
    while lsn != 0 {
        let Some(next) = read_one(writer, disk, transaction, lsn, room)? else {
            return Ok(lsn);
        };
        lsn = next;
    }
    Ok(0)
}
