//! One change of a transaction, taken back.

ghost use Rattle.std.specs.Prelude.{◌≡◌, ◌≢◌, ◌≤◌, ℕ, [], length, true, false};
ghost use Rattle.im_theory_log.specs.Histories.{Base};
ghost use Rattle.im_theory_log.specs.Transactions.{to_undo};
ghost use Rattle.im_theory_log.specs.Writer.{Writer};
ghost use Rattle.im_page_writer.specs.PageWriter.{IsReadyWriter};
ghost use Rattle.im_page_writer.specs.Outcome.{fault_of, none_mild, Logs};
ghost use Rattle.im_restart_analysis.specs.Losers.{is_loser};
ghost use Rattle.im_restart_undo.specs.GoingBeside.{IsGoingBeside};
ghost use Rattle.im_restart_undo.specs.Undoing.{IsGoing};
ghost use Rattle.im_engine_rollback.specs.Ends.{may_be_full, may_turn, TurnOutcome};
ghost use Rattle.im_engine_rollback.specs.Going.{IsNextAt};
ghost use Rattle.im_engine_rollback.specs.EndsBeside.{EndBesideKept, EndIfUndoneBesideKept};
ghost use Rattle.im_engine_rollback.specs.Turns.{EndIfUndoneKept, TakeKept, TurnKept};

use crate::next_record::next_key_record;
use crate::undone::Undone;
use im_base_disk::Disk;
use im_base_types::{Fault, Lsn, TxnId};
use im_log_record::{Record, decode};
use im_page_writer::PageWriter;
use im_restart_analysis::is_key_record;
use im_restart_undo::undo_one;
use std::alloc::Global;

// Takes back the record of a transaction at an LSN. It answers the LSN of the transaction's last record after that, and where its undo
// goes on.
fn undo_at<D: Disk>(
    alloc: Global,
    writer: &mut PageWriter,
    disk: &mut D,
    transaction: TxnId,
    last: Lsn,
    undo_next: Lsn,
    lsn: Lsn,
    room: &mut [u8],
) -> Result<(Lsn, Lsn), Fault>
    requires room { 16384 ≤ length room.old }
    requires ready { IsReadyWriter D.Disk writer.old disk.old }
    requires working { writer.old.failed ≡ false }
    requires owner { 1 ≤ transaction }
    ensures outcome { TurnOutcome D.Disk may_turn writer.old writer.new disk.new (fault_of result) }
    ensures room { length room.new ≡ length room.old }
    ensures kept { (b : Base) (base : ℕ) (s : Writer) (e : ℕ) → IsGoing D.Disk b base s e transaction last undo_next writer.old disk.old → IsNextAt transaction lsn s.log
        → TakeKept D.Disk b base s e transaction disk.old writer.new disk.new result }
{
    let size = writer.read_at(disk, lsn, room)?;
    let record = decode(&room[..size])?;
    if record.transaction() != transaction {
        return Err(Fault::NotAStore);
    }
    if !is_key_record(&record) {
        return Err(Fault::NotAStore);
    }
    let behind = undo_one(alloc, writer, disk, &record, last, undo_next)?;
    Ok((behind, record.prev()))
}

// Logs the End of a transaction of which nothing is left to undo.
fn log_end<D: Disk>(
    writer: &mut PageWriter,
    disk: &mut D,
    transaction: TxnId,
    last: Lsn,
) -> Result<(), Fault>
    requires ready { IsReadyWriter D.Disk writer.old disk.old }
    requires working { writer.old.failed ≡ false }
    requires owner { 1 ≤ transaction }
    ensures outcome { Logs D.Disk false none_mild writer.old disk.old writer.new disk.new (fault_of result) }
    ensures kept { (b : Base) (base : ℕ) (s : Writer) (e undo_next : ℕ) → IsGoingBeside D.Disk b base s e transaction last undo_next writer.old disk.old → is_loser transaction s.log ≡ true → to_undo transaction s.log ≡ []
        → EndBesideKept D.Disk b base s e transaction last disk.old writer.new disk.new result }
{
    let record = Record::End {
        transaction,
        prev: last,
    };
    writer.log_only(disk, &record)?;
    Ok(())
}

/// What is left of a transaction whose change was taken back: where nothing is, its End is logged. A structure change of another
/// transaction that goes on beside stays open as it was.
///
/// Refused `NotAStore` where the records are not as a log of the store has them; otherwise as `PageWriter::log_only` is.
pub fn end_if_undone<D: Disk>(
    writer: &mut PageWriter,
    disk: &mut D,
    transaction: TxnId,
    last: Lsn,
    undo_next: Lsn,
    room: &mut [u8],
) -> Result<Undone, Fault>
    requires room { 16384 ≤ length room.old }
    requires ready { IsReadyWriter D.Disk writer.old disk.old }
    requires working { writer.old.failed ≡ false }
    requires owner { 1 ≤ transaction }
    ensures outcome { TurnOutcome D.Disk may_be_full writer.old writer.new disk.new (fault_of result) }
    ensures room { length room.new ≡ length room.old }
    ensures kept { (b : Base) (base : ℕ) (s : Writer) (e : ℕ) → IsGoing D.Disk b base s e transaction last undo_next writer.old disk.old → is_loser transaction s.log ≡ true
        → EndIfUndoneKept D.Disk b base true s e transaction last undo_next disk.old writer.new disk.new result }
    ensures beside { (b : Base) (base : ℕ) (s : Writer) (e : ℕ) → IsGoingBeside D.Disk b base s e transaction last undo_next writer.old disk.old → is_loser transaction s.log ≡ true
        → EndIfUndoneBesideKept D.Disk b base true s e transaction last undo_next disk.old writer.new disk.new result }
{
    let next = next_key_record(writer, disk, transaction, undo_next, room)?;
    if next == 0 {
        log_end(writer, disk, transaction, last)?;
        return Ok(Undone::Ended);
    }
    Ok(Undone::More { last, undo_next })
}

// What is left of a transaction whose change was taken back, where it `ends` with its last one. One that does not goes on: nothing is read or logged.
pub(crate) fn end_or_go_on<D: Disk>(
    writer: &mut PageWriter,
    disk: &mut D,
    transaction: TxnId,
    last: Lsn,
    undo_next: Lsn,
    room: &mut [u8],
    ends: bool,
) -> Result<Undone, Fault>
    requires room { 16384 ≤ length room.old }
    requires ready { IsReadyWriter D.Disk writer.old disk.old }
    requires working { writer.old.failed ≡ false }
    requires owner { 1 ≤ transaction }
    ensures outcome { TurnOutcome D.Disk may_be_full writer.old writer.new disk.new (fault_of result) }
    ensures room { length room.new ≡ length room.old }
    ensures kept { (b : Base) (base : ℕ) (s : Writer) (e : ℕ) → IsGoing D.Disk b base s e transaction last undo_next writer.old disk.old → is_loser transaction s.log ≡ true
        → EndIfUndoneKept D.Disk b base ends s e transaction last undo_next disk.old writer.new disk.new result }
    ensures beside { (b : Base) (base : ℕ) (s : Writer) (e : ℕ) → IsGoingBeside D.Disk b base s e transaction last undo_next writer.old disk.old → is_loser transaction s.log ≡ true
        → EndIfUndoneBesideKept D.Disk b base ends s e transaction last undo_next disk.old writer.new disk.new result }
{
    if ends {
        return end_if_undone(writer, disk, transaction, last, undo_next, room);
    }
    Ok(Undone::More { last, undo_next })
}

/// Takes back the newest change that a transaction has left to undo. One that `ends` gets its End where that was the last one; one that does not
/// has one compensation more, and goes on. `last` is the LSN of its last record, and `undo_next` where its undo goes on. Records are read into the
/// room, of 16,384 bytes.
///
/// No lock is asked. Refused `Capacity` only where a key that comes back finds its leaf without room, and page numbers or levels are used
/// up; `Memory` only where it finds no room either, with all as it was; `Failed` only where memory is wanted after a record of the
/// transaction that joined the log; `NotAStore` where the records are not as a log of the store has them; otherwise as `PageWriter::log_change` is.
pub fn undo_next<D: Disk>(
    alloc: Global,
    writer: &mut PageWriter,
    disk: &mut D,
    transaction: TxnId,
    last: Lsn,
    undo_next: Lsn,
    room: &mut [u8],
    ends: bool,
) -> Result<Undone, Fault>
    requires room { 16384 ≤ length room.old }
    requires ready { IsReadyWriter D.Disk writer.old disk.old }
    requires working { writer.old.failed ≡ false }
    requires owner { 1 ≤ transaction }
    ensures outcome { TurnOutcome D.Disk may_turn writer.old writer.new disk.new (fault_of result) }
    ensures room { length room.new ≡ length room.old }
    ensures kept { (b : Base) (base : ℕ) (s : Writer) (e : ℕ) → IsGoing D.Disk b base s e transaction last undo_next writer.old disk.old → to_undo transaction s.log ≢ []
        → TurnKept D.Disk b base ends s e transaction disk.old writer.new disk.new result }
{
    let lsn = next_key_record(writer, disk, transaction, undo_next, room)?;
    if lsn == 0 {
        return Err(Fault::NotAStore);
    }
    let (behind, next) = undo_at(alloc, writer, disk, transaction, last, undo_next, lsn, room)?;
    end_or_go_on(writer, disk, transaction, behind, next, room, ends)
}
