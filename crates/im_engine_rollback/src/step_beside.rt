//! One change of a transaction, taken back beside a structure change of another.

ghost use Rattle.std.specs.Prelude.{◌≡◌, ◌≢◌, ◌≤◌, ℕ, [], length, true, false};
ghost use Rattle.im_theory_log.specs.Histories.{Base};
ghost use Rattle.im_theory_log.specs.Transactions.{is_key, to_undo};
ghost use Rattle.im_theory_log.specs.Writer.{Writer};
ghost use Rattle.im_log_record.specs.Entry.{view, transaction_of};
ghost use Rattle.im_log_record.specs.Spelling.{IsEntry};
ghost use Rattle.im_log.specs.Whats.{what_of};
ghost use Rattle.im_page_writer.specs.PageWriter.{IsReadyWriter};
ghost use Rattle.im_page_writer.specs.Outcome.{fault_of, Logs};
ghost use Rattle.im_tree_search.specs.declared.change_beside.Beside.{Beside};
ghost use Rattle.im_smo_pages.specs.Kept.{mild_to_take};
ghost use Rattle.im_smo_actions.specs.GoingBeside.{settled_pages, IsToldOf};
ghost use Rattle.im_restart_undo.specs.GoingBeside.{IsGoingBeside};
ghost use Rattle.im_restart_undo.specs.Planning.{IsBack};
ghost use Rattle.im_restart_undo.specs.Undoing.{IsToUndo};
ghost use Rattle.im_engine_rollback.specs.Ends.{may_turn, TurnOutcome};
ghost use Rattle.im_engine_rollback.specs.Going.{IsNextAt};
ghost use Rattle.im_engine_rollback.specs.TurnsBeside.{BackBesideKept, LoggedBackKept, TurnBesideKept};

use crate::logged_back::LoggedBack;
use crate::next_record::next_key_record;
use crate::undo_step::end_or_go_on;
use crate::undone_beside::UndoneBeside;
use im_base_disk::Disk;
use im_base_types::{Fault, Lsn, TxnId};
use im_log_record::{Record, decode};
use im_page_writer::PageWriter;
use im_restart_analysis::is_key_record;
use im_restart_undo::{Back, log_back, plan_back};
use im_smo_actions::plan_change;
use im_tree_search::{Beside, Sight};
use std::alloc::Global;

// Logs of a plan what can be logged at once: the compensation, where no split comes first. All that a structure change wants memory for is had
// in front of it.
fn log_planned<D: Disk>(
    alloc: Global,
    writer: &mut PageWriter,
    disk: &mut D,
    record: &Record,
    last: Lsn,
    undo_next: Lsn,
    back: Back,
) -> Result<LoggedBack, Fault>
    requires entry { IsEntry (view record.now) }
    requires ready { IsReadyWriter D.Disk writer.old disk.old }
    requires working { writer.old.failed ≡ false }
    requires key { is_key (what_of (view record.now)) ≡ true }
    requires owner { 1 ≤ transaction_of (view record.now) }
    ensures outcome { Logs D.Disk true mild_to_take writer.old disk.old writer.new disk.new (fault_of result) }
    ensures kept { (b : Base) (base : ℕ) (s : Writer) (e : ℕ) (beside : Beside) → IsGoingBeside D.Disk b base s e (transaction_of (view record.now)) last undo_next writer.old disk.old
        → IsToUndo D.Disk b base s (transaction_of (view record.now)) (view record.now) → IsToldOf b beside s.log → IsBack (settled_pages b s) beside (what_of (view record.now)) back
        → LoggedBackKept D.Disk b base s e (transaction_of (view record.now)) last undo_next beside (view record.now) disk.old writer.new disk.new result }
{
    match back {
        Back::Plain(page) => {
            let behind = log_back(writer, disk, record, last, undo_next, &Back::Plain(page))?;
            Ok(LoggedBack::Taken {
                last: behind,
                undo_next: record.prev(),
            })
        }
        Back::Split(plan) => {
            let change = plan_change(alloc, writer, disk, plan.images)?;
            Ok(LoggedBack::Splits(change))
        }
        Back::Drop(page, images) => {
            let change = plan_change(alloc, writer, disk, images)?;
            let behind = log_back(writer, disk, record, last, undo_next, &Back::Plain(page))?;
            Ok(LoggedBack::Drops {
                change,
                last: behind,
                undo_next: record.prev(),
            })
        }
    }
}

// Plans the record of a transaction back, and logs of the plan what can be logged at once.
fn back_beside<D: Disk>(
    alloc: Global,
    writer: &mut PageWriter,
    disk: &mut D,
    record: &Record,
    last: Lsn,
    undo_next: Lsn,
    beside: Beside<'_>,
) -> Result<Sight<LoggedBack>, Fault>
    requires entry { IsEntry (view record.now) }
    requires ready { IsReadyWriter D.Disk writer.old disk.old }
    requires working { writer.old.failed ≡ false }
    requires key { is_key (what_of (view record.now)) ≡ true }
    requires owner { 1 ≤ transaction_of (view record.now) }
    ensures outcome { Logs D.Disk true mild_to_take writer.old disk.old writer.new disk.new (fault_of result) }
    ensures kept { (b : Base) (base : ℕ) (s : Writer) (e : ℕ) → IsGoingBeside D.Disk b base s e (transaction_of (view record.now)) last undo_next writer.old disk.old
        → IsToUndo D.Disk b base s (transaction_of (view record.now)) (view record.now) → IsToldOf b beside.entry s.log
        → BackBesideKept D.Disk b base s e (transaction_of (view record.now)) last undo_next beside.entry disk.old writer.new disk.new result }
{
    let Sight::Seen(back) = plan_back(alloc, writer, disk, record, beside)? else {
        return Ok(Sight::Hidden);
    };
    let logged = log_planned(alloc, writer, disk, record, last, undo_next, back)?;
    Ok(Sight::Seen(logged))
}

// The same of the record at an LSN.
fn back_at<D: Disk>(
    alloc: Global,
    writer: &mut PageWriter,
    disk: &mut D,
    transaction: TxnId,
    last: Lsn,
    undo_next: Lsn,
    lsn: Lsn,
    room: &mut [u8],
    beside: Beside<'_>,
) -> Result<Sight<LoggedBack>, Fault>
    requires room { 16384 ≤ length room.old }
    requires ready { IsReadyWriter D.Disk writer.old disk.old }
    requires working { writer.old.failed ≡ false }
    requires owner { 1 ≤ transaction }
    ensures outcome { TurnOutcome D.Disk may_turn writer.old writer.new disk.new (fault_of result) }
    ensures room { length room.new ≡ length room.old }
    ensures kept { (b : Base) (base : ℕ) (s : Writer) (e : ℕ) → IsGoingBeside D.Disk b base s e transaction last undo_next writer.old disk.old → IsNextAt transaction lsn s.log → IsToldOf b beside.entry s.log
        → BackBesideKept D.Disk b base s e transaction last undo_next beside.entry disk.old writer.new disk.new result }
{
    let size = writer.read_at(disk, lsn, room)?;
    let record = decode(&room[..size])?;
    if record.transaction() != transaction {
        return Err(Fault::NotAStore);
    }
    if !is_key_record(&record) {
        return Err(Fault::NotAStore);
    }
    back_beside(alloc, writer, disk, &record, last, undo_next, beside)
}

/// Takes back the newest change that a transaction has left to undo, beside a structure change of another that may be under way. One that `ends`
/// gets its End where that was the last one. A structure change that it takes is handed out to be made in later steps, with what others are told of it: a
/// split in front of the compensation, and one that takes an empty leaf out of the tree after it. Records are read into the room, of 16,384 bytes.
///
/// It is hidden, with nothing logged but Images, where the change beside has made the page that the record names, or a page on the way to its key;
/// where the key's leaf is one of its pages; and where a structure change is needed beside it (`HiddenBack` of im_restart_undo).
///
/// No lock is asked. Refused `Memory` only where a structure change is needed, beside none, with all as it was: a leaf that would be left empty doesn't
/// stay, as it does in `undo_next`. Refused `Capacity` only where page numbers or levels are used up too; `NotAStore` where the records are not as a
/// log of the store has them; never `Failed`; otherwise as `PageWriter::log_change` is.
pub fn undo_beside<D: Disk>(
    alloc: Global,
    writer: &mut PageWriter,
    disk: &mut D,
    transaction: TxnId,
    last: Lsn,
    undo_next: Lsn,
    room: &mut [u8],
    beside: Beside<'_>,
    ends: bool,
) -> Result<Sight<UndoneBeside>, Fault>
    requires room { 16384 ≤ length room.old }
    requires ready { IsReadyWriter D.Disk writer.old disk.old }
    requires working { writer.old.failed ≡ false }
    requires owner { 1 ≤ transaction }
    ensures outcome { TurnOutcome D.Disk may_turn writer.old writer.new disk.new (fault_of result) }
    ensures room { length room.new ≡ length room.old }
    ensures kept { (b : Base) (base : ℕ) (s : Writer) (e : ℕ) → IsGoingBeside D.Disk b base s e transaction last undo_next writer.old disk.old → to_undo transaction s.log ≢ [] → IsToldOf b beside.entry s.log
        → TurnBesideKept D.Disk b base ends s e transaction last undo_next beside.entry disk.old writer.new disk.new result }
{
    let lsn = next_key_record(writer, disk, transaction, undo_next, room)?;
    if lsn == 0 {
        return Err(Fault::NotAStore);
    }
    let Sight::Seen(logged) = back_at(
        alloc,
        writer,
        disk,
        transaction,
        last,
        undo_next,
        lsn,
        room,
        beside,
    )?
    else {
        return Ok(Sight::Hidden);
    };
    match logged {
        LoggedBack::Taken { last, undo_next } => {
            let undone = end_or_go_on(writer, disk, transaction, last, undo_next, room, ends)?;
            Ok(Sight::Seen(UndoneBeside::Made(undone)))
        }
        LoggedBack::Splits(change) => Ok(Sight::Seen(UndoneBeside::Splits(change))),
        LoggedBack::Drops {
            change,
            last,
            undo_next,
        } => Ok(Sight::Seen(UndoneBeside::Drops {
            change,
            last,
            undo_next,
        })),
    }
}
